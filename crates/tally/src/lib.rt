// How many answers of a test program were asked for, and how many were right.
#![tactic(auto)]

ghost use Rattle.std.specs.Prelude.{◌≡◌, cond, ◌+◌, ◌%◌, ◌^◌};

use std::fmt;

#[derive(Clone, Copy, Default)]
pub struct Tally {
    pub asked: u64,
    pub right: u64,
}

impl Tally {
    // One answer more, right or not.
    pub fn count(&mut self, ok: bool)
        ensures asked { self.new.asked ≡ (self.old.asked + 1) % 2 ^ 64 }
        ensures right { self.new.right ≡ cond ok ((self.old.right + 1) % 2 ^ 64) self.old.right }
    {
        self.asked = self.asked.wrapping_add(1);
        if ok {
            self.right = self.right.wrapping_add(1);
        }
    }

    // How many answers were wrong.
    pub fn wrong(&self) -> u64
        ensures { (result + self.now.right) % 2 ^ 64 ≡ self.now.asked }
    {
        self.asked.wrapping_sub(self.right)
    }
}

// Writes `3 of 4 right`.
impl fmt::Display for Tally {
    fn fmt<W: fmt::Write>(&self, f: &mut fmt::Formatter<W>) -> fmt::Result {
        write!(f, "{} of {} right", self.right, self.asked)
    }
}
