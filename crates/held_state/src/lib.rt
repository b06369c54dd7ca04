// What a store holds: its state, row 0, and the figures of a held plan.
// Kept: slices with their lengths in contracts, and no arrays by reference, which would ask more of callers.
#![tactic(auto)]

ghost use Rattle.std.specs.Prelude.{◌≡◌, ◌||◌, List, ℕ, ◌*◌, ◌^◌, ◌<◌, ◌≤◌, T, ltb, pos, ◌-ℤ◌, length, get_or};
ghost use Rattle.sets.specs.Set.{has, set_of};
ghost use Rattle.sets.specs.Sum.{any};
ghost use Rattle.density.specs.Network.{no_site, uncrewed};
ghost use Rattle.density.specs.Figures.{difference_of, groups_read, depots_read};
ghost use Rattle.records.specs.declared.ListArray.{ListArray};
ghost use Rattle.records.specs.declared.PlanArray.{PlanArray};
ghost use Rattle.records.specs.Values.{roll_in};
ghost use Rattle.tables.specs.Tables.{net, groups_in, Kept, lent_plan};
ghost use Rattle.held_state.specs.Held.{State, bad_site, corrupt};
ghost use Rattle.held_state.specs.Values.{BadKnown, Stands, Examined, held_litres, held_size};

use density::Site;
use records::{ListArray, Refusal, RollArray, roll};
use tables::Form;

// What is held beside the table: how many of its places are sites, a plan or none, and the list's roll or none.
// Kept: a flag and counts beside arrays, as a store's bytes have them: row 0 and the layout speak of the arrays where the flag is 0 too.
#[derive(Clone, Copy)]
pub struct Store {
    pub count: usize,
    pub held: bool,
    pub grouped: usize,
    pub groups: [u64; 64],
    pub shares: [u64; 512],
    pub roll: RollArray,
}

// What a call goes by beside the held sites and the arrays of the plan: the places of the table, whether a plan is held and of how many groups, and whether rows 5 or 6 refuse a held site.
// Kept: flags beside counts, all of which row 0 looks at in one step.
#[derive(Clone, Copy)]
pub struct Summary {
    pub places: usize,
    pub held: bool,
    pub grouped: usize,
    pub bad: bool,
}

// W and q of a depot's group.
#[derive(Clone, Copy)]
pub struct GroupFigures {
    pub litres: u64,
    pub size: u64,
}

// A difference, with its divisor.
#[derive(Clone, Copy)]
pub struct Difference {
    pub value: i64,
    pub divisor: u64,
}

// Do rows 5 or 6 refuse the site?
pub fn is_bad(x: Site) -> bool
    ensures { result ≡ bad_site x }
{
    63 < x.first || 63 < x.second || x.litres == 0
}

// Do they refuse one of the first n sites?
pub fn is_any_bad(sites: [Site; 512], n: usize) -> bool
    requires { n ≤ 512 }
    ensures { result ≡ any (λ i. bad_site (get_or sites i no_site)) n }
{
    for x in &sites[..n] {
        if is_bad(*x) {
            return true;
        }
    }
    false
}

// Does row 23 refuse a site? Without a roll none is looked at, and none is copied.
fn is_any_uncrewed(list: ListArray) -> bool
    requires { list.count ≤ 512 }
    ensures { result ≡ any (λ i. uncrewed (roll_in list.roll) (get_or list.sites i no_site)) list.count }
{
    let roll = list.roll;
    if !roll.there {
        return false;
    }
    let sites = list.sites;
    roll::any_uncrewed(roll, sites, list.count)
}

// The most groups of a plan.
const MOST_GROUPS: usize = 64;

// Are there more sites than 512, or than the table has places?
fn lacks_room(count: usize, places: usize) -> bool
    ensures { result ≡ (ltb 512 count || ltb places count) }
{
    512 < count || places < count
}

// Row 0, and the tables of the plan held, or none where no plan is; w × q of each site goes to `wholes`.
pub fn examine(
    list: ListArray,
    known: Summary,
    groups: &[u64],
    shares: &[u64],
    wholes: &mut [u64],
) -> Result<Option<Form>, Refusal>
    requires { (length groups.now ≡ 64) × (length shares.now ≡ 512) × (length wholes.old ≡ 512) × BadKnown list known }
    ensures { Examined list known (lent_plan known.grouped groups.now shares.now) result wholes.new }
{
    if lacks_room(list.count, known.places) {
        return Err(Refusal::CorruptStore);
    }
    if known.bad {
        return Err(Refusal::CorruptStore);
    }
    let roll = list.roll;
    if roll::is_above(roll) {
        return Err(Refusal::CorruptStore);
    }
    if is_any_uncrewed(list) {
        return Err(Refusal::CorruptStore);
    }
    if !known.held {
        return Ok(None);
    }
    if MOST_GROUPS < known.grouped {
        return Err(Refusal::CorruptStore);
    }
    let Ok(form) = verify::try_form(list, known.grouped, groups, shares, wholes) else {
        return Err(Refusal::CorruptStore);
    };
    Ok(Some(form))
}

// Row 0.
pub fn is_corrupt(list: ListArray, known: Summary, groups: &[u64], shares: &[u64]) -> bool
    requires { (length groups.now ≡ 64) × (length shares.now ≡ 512) × BadKnown list known }
    ensures { (s : State) → Stands s list known groups.now shares.now → result ≡ corrupt s }
{
    let mut wholes = [0u64; 512];
    examine(list, known, groups, shares, &mut wholes).is_err()
}

// W and q of a listed depot, from the tables.
pub fn figures_of(f: Form, d: u8) -> GroupFigures
    requires { ((list : ListArray) × (plan : PlanArray) × (ws : List ℕ) × Kept list plan f ws) × T (has f.listed d) }
    ensures { ((list : ListArray) (plan : PlanArray) (ws : List ℕ) → Kept list plan f ws → (result.litres ≡ held_litres list plan d) × (result.size ≡ held_size list plan d)) × (result.litres ≤ 512 * 2 ^ 32) × (result.size ≤ 576) }
{
    let k = f.places[d as usize] as usize;
    GroupFigures {
        litres: f.litres[k],
        size: f.sizes[k],
    }
}

// The difference of two numbers, below zero where the first is less.
fn less(x: u64, y: u64) -> i64
    requires { (x < 2 ^ 52) × (y < 2 ^ 52) }
    ensures { result ≡ pos x -ℤ pos y }
{
    (x as i64) - (y as i64)
}

// The difference of two listed depots, from the tables.
pub fn difference_of(f: Form, a: u8, b: u8) -> Difference
    requires { ((list : ListArray) × (plan : PlanArray) × (ws : List ℕ) × Kept list plan f ws) × T (has f.listed a) × T (has f.listed b) }
    ensures { (list : ListArray) (plan : PlanArray) (ws : List ℕ) → Kept list plan f ws → (result.value ≡ difference_of (held_litres list plan a) (held_size list plan a) (held_litres list plan b) (held_size list plan b)) × (result.divisor ≡ held_size list plan a * held_size list plan b) }
{
    let x = figures_of(f, a);
    let y = figures_of(f, b);
    Difference {
        value: less(x.litres * y.size, y.litres * x.size),
        divisor: x.size * y.size,
    }
}

// Is W/q below a threshold in litres (document 02: a mark)? W is compared with threshold × q: nothing is divided.
fn is_below(litres: u64, size: u64, threshold: u32) -> bool
    requires { size ≤ 576 }
    ensures { result ≡ ltb litres (threshold * size) }
{
    litres < (threshold as u64) * size
}

// How many of the n groups are read, in order: those before the first below the threshold, all where none is.
fn groups_read(f: Form, n: usize, threshold: u32) -> usize
    requires { (list : ListArray) × (plan : PlanArray) × (ws : List ℕ) × Kept list plan f ws × (n ≡ plan.count) }
    ensures { (result ≤ n) × ((list : ListArray) (plan : PlanArray) (ws : List ℕ) → Kept list plan f ws → n ≡ plan.count → result ≡ groups_read (net list) (groups_in list plan) threshold) }
{
    for k in 0..n {
        if is_below(f.litres[k], f.sizes[k], threshold) {
            return k;
        }
    }
    n
}

// The depots whose W/q is at least the threshold: those of the held groups that are read.
pub fn at_least(f: Form, groups: &[u64], threshold: u32) -> u64
    requires { (list : ListArray) × (plan : PlanArray) × (ws : List ℕ) × Kept list plan f ws × (groups.now ≡ groups_in list plan) }
    ensures { (list : ListArray) (plan : PlanArray) (ws : List ℕ) → Kept list plan f ws → groups.now ≡ groups_in list plan → result ≡ set_of (depots_read (net list) (groups_in list plan) threshold) 64 }
{
    let k = groups_read(f, groups.len(), threshold);
    rows::union(&groups[..k])
}
