// Rows 12 to 16, each a test on values.
#![tactic(auto)]

ghost use Rattle.std.specs.Prelude.{◌≡◌, true, not, ◌||◌, List, ℕ, ◌*◌, ◌<◌, ◌≤◌, ◌^◌, length, get_or};
ghost use Rattle.sets.specs.Set.{◌∩◌, has, set_of, is_empty};
ghost use Rattle.density.specs.Network.{Network};
ghost use Rattle.density.specs.Plan.{union, group_size, group_litres};
ghost use Rattle.density.specs.Rows.{first_row, groups_meet, share_broken, groups_rise};
ghost use Rattle.records.specs.Refusals.{refusal_of};
ghost use Rattle.tables.specs.Tables.{Holds, Uneven, form_rows, Entry, Small};

use density::Site;
use records::Refusal;

// Is the group empty, or does it meet those before it, whose depots are seen?
fn meets(group: u64, seen: u64) -> bool
    ensures { result ≡ (is_empty (has group) 64 || not (is_empty (has group ∩ has seen) 64)) }
{
    sets::is_empty(group) || !sets::are_disjoint(group, seen)
}

// Row 12.
fn groups_meet(groups: &[u64]) -> bool
    ensures { result ≡ groups_meet groups.now }
{
    let mut seen: u64 = 0;
    for group in groups {
        if meets(*group, seen) {
            return true;
        }
        seen = sets::union(seen, *group);
    }
    false
}

// The depots of all groups together.
pub fn union(groups: &[u64]) -> u64
    ensures { result ≡ set_of (union groups.now) 64 }
{
    let mut seen: u64 = 0;
    for group in groups {
        seen = sets::union(seen, *group);
    }
    seen
}

// Does a site's share break a rule? The groups of its depots have the places a and b, all is w × q. The share is all of it where the second depot's group is earlier or both depots are one,
// 0 where the first depot's group is earlier, otherwise at most all.
pub fn is_broken(s: Site, a: u8, b: u8, all: u64, share: u64) -> bool
    ensures { (N : Network) (gs ss : List ℕ) (i : ℕ) → Entry N gs ss i s a b all share → result ≡ share_broken N gs ss i }
{
    let least = if b < a || s.first == s.second { all } else { 0 };
    let most = if a < b { 0 } else { all };
    share < least || most < share
}

// Row 15: `all` are the listed depots, `sums` the scaled loads. A depot's is to be W of its group, for each of its crews.
pub fn loads_uneven(all: u64, places: &[u8], litres: &[u64], crews: &[u64], sums: &[u64]) -> bool
    requires places_len { (length places.now ≡ 64) × (length litres.now ≡ 64) × (length crews.now ≡ 64) × (length sums.now ≡ 64) }
    requires by_index { (d : ℕ) → d < 64 → has all d ≡ true → get_or places.now d 0 < 64 }
    requires by_index_2 { ((k : ℕ) → k < 64 → get_or litres.now k 0 ≤ 512 * 2 ^ 32) × ((d : ℕ) → d < 64 → get_or crews.now d 0 ≤ 9) }
    ensures { Uneven all places.now litres.now crews.now sums.now result }
{
    for (d, sum) in sums.iter().enumerate() {
        if sets::contains(all, d as u8) {
            let w = litres[places[d] as usize];
            if *sum != crews[d] * w {
                return true;
            }
        }
    }
    false
}

// Row 16.
pub fn groups_rise(n: usize, litres: &[u64], sizes: &[u64]) -> bool
    requires { Small litres.now sizes.now n }
    ensures { (N : Network) (gs : List ℕ) → length gs ≡ n → Holds litres.now (group_litres N gs) n → Holds sizes.now (group_size N gs) n → result ≡ groups_rise N gs }
{
    for k in 1..n {
        if litres[k - 1] * sizes[k] <= litres[k] * sizes[k - 1] {
            return true;
        }
    }
    false
}

// Rows 12 to 14, of what the pass over the sites found.
pub fn form_of(groups: &[u64], listed: u64, broken: bool) -> Result<(), Refusal>
    ensures { refusal_of result ≡ first_row (form_rows groups.now listed broken) }
{
    if groups_meet(groups) {
        return Err(Refusal::GroupsMeet);
    }
    if union(groups) != listed {
        return Err(Refusal::GroupsUnlisted);
    }
    if broken {
        return Err(Refusal::ShareBroken);
    }
    Ok(())
}
