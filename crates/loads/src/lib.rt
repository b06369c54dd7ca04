// The scaled loads of the depots.
#![tactic(auto)]

ghost use Rattle.std.specs.Prelude.{ℕ, ◌+◌, ◌<◌, ◌≤◌, ◌^◌, get_or};
ghost use Rattle.sets.specs.Sum.{sum};
ghost use Rattle.tables.specs.Tables.{Holds, part_of, Parts};

use records::ListArray;

// For each of the 64 depots, its scaled load, added to what the array has at its place. The array is passed and returned by value; each site changes the place of its first depot and then that of its second. In the contract `from` is the array as passed, in the body the running loads.
pub fn loads(mut from: [u64; 64], list: ListArray, shares: &[u64], wholes: &[u64]) -> [u64; 64]
    requires { ((k : ℕ) → k < 64 → get_or from k 0 ≤ 2 ^ 51) × Parts list shares.now wholes.now }
    ensures { Holds result (λ d. get_or from d 0 + sum (part_of list shares.now wholes.now d) list.count) 64 }
{
    for (i, &s) in list.sites[..list.count].iter().enumerate() {
        let share = shares[i];
        from[s.first as usize] += share;
        from[s.second as usize] += wholes[i] - share;
    }
    from
}
