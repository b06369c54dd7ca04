// The ranks of the depots in the search (see `residual`): all taken out of its order, and those that it did not reach.
#![tactic(auto)]

ghost use Rattle.std.specs.Prelude.{◌≡◌, max, eqb, length};
ghost use Rattle.sets.specs.Set.{set_of};
ghost use Rattle.residual.specs.Array.{at};
ghost use Rattle.residual.specs.Rounds.{Cleared};

// Takes every depot out of the order.
pub fn clear(rank: &mut [usize])
    requires { length rank.old ≡ 64 }
    ensures { Cleared rank.old rank.new }
{
    for place in rank.iter_mut() {
        *place = (*place).max(64);
    }
}

// The depots that take part and were not reached.
pub fn unreached(rank: &[usize]) -> u64
    requires { length rank.now ≡ 64 }
    ensures { result ≡ set_of (λ d. eqb (at rank.now d) 64) 64 }
{
    let mut set: u64 = 0;
    for (d, place) in rank.iter().enumerate() {
        if *place == 64 {
            set = sets::with(set, d as u8);
        }
    }
    set
}
