// What rows 12 to 16 are tried on: the listed depots, the crews and the place of each depot, and q and W of each group.
#![tactic(auto)]

ghost use Rattle.std.specs.Prelude.{◌≡◌, false, cond, ◌<◌, ◌≤◌, ◌^◌, max, T, length, get_or};
ghost use Rattle.sets.specs.Set.{◌∪◌, has, set_of};
ghost use Rattle.density.specs.Network.{Listing, names, crews_of, enrolled, network, crews_above, in_range};
ghost use Rattle.density.specs.Plan.{place, group_size};
ghost use Rattle.records.specs.Values.{roll_in, listing};
ghost use Rattle.tables.specs.Tables.{net, Holds, Placed, Litres};

use density::Site;
use records::{ListArray, RollArray};

// What one pass over the sites finds: the listed depots, whether a share breaks a rule, and, where none does, W of each group.
// Kept: `broken` is a test's result that is read beside the set, and `litres` is filled either way.
#[derive(Clone, Copy)]
pub struct Tally {
    pub listed: u64,
    pub broken: bool,
    pub litres: [u64; 64],
}

// What rows 12 to 14 leave to the later rows: the listed depots, the place of each depot, and q and W of each group.
#[derive(Clone, Copy)]
pub struct Form {
    pub listed: u64,
    pub places: [u8; 64],
    pub sizes: [u64; 64],
    pub litres: [u64; 64],
}

// The set with the depots of a site.
pub fn name(set: u64, s: Site) -> u64
    requires { (s.first < 64) × (s.second < 64) }
    ensures { result ≡ set_of (has set ∪ names s) 64 }
{
    sets::with(sets::with(set, s.first), s.second)
}

// The depots with crews in the roll.
pub fn enrolled(roll: RollArray) -> u64
    ensures { result ≡ set_of (enrolled (roll_in roll)) 64 }
{
    let mut set: u64 = 0;
    if !roll.there {
        return set;
    }
    for (d, crews) in roll.crews.iter().enumerate() {
        if 0 < *crews {
            set = sets::with(set, d as u8);
        }
    }
    set
}

// The listed depots.
pub fn listed(list: ListArray) -> u64
    requires { (list.count ≤ 512) × T (in_range (listing list)) }
    ensures { result ≡ set_of (net list).listed 64 }
{
    let mut set = enrolled(list.roll);
    for s in &list.sites[..list.count] {
        set = name(set, *s);
    }
    set
}

// The places with k for each depot of the set.
fn mark(places: &mut [u8], set: u64, k: u8)
    requires { length places.old ≡ 64 }
    ensures { Holds places.new (λ d. cond (has set d) k (get_or places.old d 0)) 64 }
{
    for d in sets::depots(set) {
        places[d as usize] = k;
    }
}

// The place of each depot: that of the first group that has it, or the number of groups. From the last group to the first, so that the first has the last word.
pub fn places(groups: &[u64]) -> [u8; 64]
    requires { length groups.now ≤ 64 }
    ensures { Holds result (place groups.now) 64 }
{
    let n = groups.len();
    let mut r = [n as u8; 64];
    for k in (0..n).rev() {
        mark(&mut r, groups[k], k as u8);
    }
    r
}

// The crews of each depot: those of the roll or, without one, one each.
pub fn crews(roll: RollArray) -> [u64; 64]
    ensures { Holds result (crews_of (roll_in roll)) 64 }
{
    let mut r = [1u64; 64];
    if !roll.there {
        return r;
    }
    for (d, crews) in roll.crews.iter().enumerate() {
        r[d] = *crews as u64;
    }
    r
}

// q of each group: its crews added up. Without a roll "a group's size is the number of ones in its set."
pub fn sizes(roll: RollArray, groups: &[u64]) -> [u64; 64]
    requires { (crews_above (roll_in roll) ≡ false) × (length groups.now ≤ 64) }
    ensures { (l : Listing) → l.roll ≡ roll_in roll → Holds result (group_size (network l) groups.now) (length groups.now) }
{
    let weights = crews(roll);
    let ones = !roll.there;
    let mut r = [0u64; 64];
    for (k, group) in groups.iter().enumerate() {
        r[k] = sets::weight(&weights, ones, *group);
    }
    r
}

// The later of two places.
pub fn later(a: u8, b: u8) -> u8
    ensures { result ≡ max a b }
{
    a.max(b)
}

// The litres of a site.
pub fn litres_of(s: Site) -> u64
    ensures { (result ≡ s.litres) × (result < 2 ^ 32) }
{
    s.litres as u64
}

// W of each group, in one pass over the sites.
pub fn litres(list: ListArray, places: &[u8]) -> [u64; 64]
    requires { Placed list places.now }
    ensures { Litres list places.now result }
{
    let mut r = [0u64; 64];
    for s in &list.sites[..list.count] {
        let k = later(places[s.first as usize], places[s.second as usize]) as usize;
        r[k] += litres_of(*s);
    }
    r
}
