// Check and Make beside the plain count over all sets: every small list, and random ones, without a roll and with one, with isolated depots and without. Then lists with more
// isolated depots than the count takes.
#![tactic(auto)]

ghost use Rattle.std.specs.Prelude.{◌≤◌};

use exhaustive::{has_groups, is_small, is_true};
use networks::{SMALL, group_at, isolated, random, rolled, small, variant, variants};
use records::{Edition, ListArray, PlanArray, Refusal};
use std::{fmt, io};
use tally::Tally;

// What came out: lists, and for how many of them Make's plan is fit, which the count finds true and grouped the same; plans judged, and of how many the check and the count say the
// same; those that are true.
#[derive(Clone, Copy, Default)]
struct Swept {
    lists: Tally,
    plans: Tally,
    truths: u64,
}

// Each number on a line of its own.
impl fmt::Display for Swept {
    fn fmt<W: fmt::Write>(&self, f: &mut fmt::Formatter<W>) -> fmt::Result {
        writeln!(f, "lists {}", self.lists.asked)?;
        writeln!(f, "unfit plans of make {}", self.lists.wrong())?;
        writeln!(f, "plans judged {}", self.plans.asked)?;
        writeln!(f, "true {}", self.truths)?;
        writeln!(f, "differ {}", self.plans.wrong())
    }
}

fn passes(list: &[u8], plan: &[u8]) -> bool {
    judge::check(list, plan).is_ok()
}

// The front of a buffer that a writer has filled, unless it refused.
fn written(w: Result<usize, Refusal>, out: &[u8]) -> Option<&[u8]> {
    match w {
        Ok(n) => out.get(..n),
        Err(_) => None,
    }
}

// The edition that a list is written in: one with a roll in edition 2.
fn edition(list: &ListArray) -> Edition
    ensures { (result.litres ≤ 4) × (result.share ≤ 8) }
{
    if list.roll.there {
        records::edition2()
    } else {
        records::edition1()
    }
}

fn write_list<'a>(list: &ListArray, out: &'a mut [u8]) -> Option<&'a [u8]> {
    if 512 < list.count {
        return None;
    }
    let w = writers::list(edition(list), *list, out);
    written(w, out)
}

fn write_plan<'a>(list: &ListArray, plan: &PlanArray, out: &'a mut [u8]) -> Option<&'a [u8]> {
    if 512 < list.count || 64 < plan.count {
        return None;
    }
    let w = writers::plan(edition(list), *plan, list.count, out);
    written(w, out)
}

// Does the check pass a plan? None where the plan cannot be written.
fn checked(list: &ListArray, bytes: &[u8], plan: &PlanArray) -> Option<bool> {
    let mut out = [0u8; 1024];
    let plan = write_plan(list, plan, &mut out)?;
    Some(passes(bytes, plan))
}

// The plan that Make writes, read again; no groups where there is none.
fn made(list: &ListArray, bytes: &[u8]) -> PlanArray {
    let mut out = [0u8; 1024];
    if 512 < list.count {
        return networks::no_groups();
    }
    let w = maker::make(bytes, &mut out);
    match written(w, &out) {
        Some(plan) => {
            readers::plan::read(edition(list), list.count, plan).unwrap_or(networks::no_groups())
        }
        None => networks::no_groups(),
    }
}

// Are the isolated depots, where there are any, the last group?
fn is_last(list: &ListArray, plan: &PlanArray) -> bool {
    let set = isolated(list);
    set == 0 || group_at(plan, plan.count.wrapping_sub(1)) == set
}

// Is Make's plan true with the groups of the count? Of a list that the count cannot take: does the check pass it?
fn is_fit(list: &ListArray, bytes: &[u8], plan: &PlanArray) -> bool {
    if !is_last(list, plan) {
        return false;
    }
    if !is_small(list) {
        return checked(list, bytes, plan) == Some(true);
    }
    is_true(list, plan) && has_groups(list, plan)
}

impl Swept {
    // One plan: the check passes it exactly if the count finds it true. Of a list that the count cannot take, plans with other groups than Make's are judged: none is true.
    fn judge(&mut self, list: &ListArray, bytes: &[u8], made: &PlanArray, plan: &PlanArray) {
        let same = made.count == plan.count && made.groups == plan.groups;
        if same && !is_small(list) {
            return;
        }
        if let Some(passed) = checked(list, bytes, plan) {
            let found = is_true(list, plan);
            self.plans.count(passed == found);
            if found {
                self.truths = self.truths.wrapping_add(1);
            }
        }
    }

    // One list: Make's plan, and near misses of it, one of each five.
    fn sweep(&mut self, list: &ListArray, from: usize) {
        let mut out = [0u8; 256];
        if let Some(bytes) = write_list(list, &mut out) {
            let plan = made(list, bytes);
            self.lists.count(is_fit(list, bytes, &plan));
            self.judge(list, bytes, &plan, &plan);
            let most = variants(list, &plan);
            for i in 0..80usize {
                let k = i * 5 + from % 5;
                if k < most {
                    self.judge(list, bytes, &plan, &variant(list, plan, k));
                }
            }
        }
    }
}

fn sweep_small(t: &mut Swept) {
    for n in 0..SMALL {
        t.sweep(&small(n), n);
    }
}

fn sweep_random(t: &mut Swept) {
    for k in 0..600usize {
        t.sweep(&random(7, k as u64), k);
    }
}

// Such lists with rolls: isolated depots below 8, and below 12 in one of each 16.
fn sweep_rolled(t: &mut Swept) {
    for k in 0..600usize {
        let most = if k % 16 == 0 { 12 } else { 8 };
        t.sweep(&rolled(random(11, k as u64), most, 13, k as u64), k);
    }
}

// Small lists with rolls, one of each nine: isolated depots below 6.
fn sweep_small_rolled(t: &mut Swept) {
    for n in 0..5152usize {
        t.sweep(&rolled(small(n * 9), 6, 17, n as u64), n);
    }
}

// Lists with isolated depots among all 64, or all that no site names.
fn sweep_wide(t: &mut Swept) {
    for k in 0..600usize {
        t.sweep(&rolled(random(19, k as u64), 64, 23, k as u64), k);
    }
}

fn main(rt: HostRuntime) -> io::Result<()> {
    let mut t = Swept::default();
    sweep_small(&mut t);
    sweep_random(&mut t);
    sweep_rolled(&mut t);
    sweep_small_rolled(&mut t);
    print!(rt; "{t}")?;
    let mut wide = Swept::default();
    sweep_wide(&mut wide);
    print!(rt; "{wide}")
}
