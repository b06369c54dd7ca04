// Lists to test with, and plans that differ a little from a given one.
#![tactic(auto)]

ghost use Rattle.std.specs.Prelude.{◌<◌, ◌≤◌};

use density::Site;
use records::{ListArray, PlanArray, RollArray, no_roll};

// How many lists `small` has: the multisets of up to 4 of 30 kinds of site.
pub const SMALL: usize = 46376;

// The list without sites.
pub fn no_sites() -> ListArray {
    ListArray {
        count: 0,
        sites: [Site {
            first: 0,
            second: 0,
            litres: 0,
        }; 512],
        roll: no_roll(),
    }
}

// The list with one site more at its end, where there is a place.
pub fn with_site(mut list: ListArray, first: u8, second: u8, litres: u32) -> ListArray {
    let at = list.count;
    if let Some(place) = list.sites.get_mut(at) {
        *place = Site {
            first,
            second,
            litres,
        };
        list.count = at + 1;
    }
    list
}

// The list with a roll.
pub fn with_crews(mut list: ListArray, crews: [u8; 64]) -> ListArray {
    list.roll = RollArray { there: true, crews };
    list
}

// The list with a roll of as many crews at each depot below n, and none at the others.
pub fn with_crews_below(list: ListArray, n: usize, each: u8) -> ListArray {
    let mut crews = [0u8; 64];
    for (d, place) in crews.iter_mut().enumerate() {
        if d < n {
            *place = each;
        }
    }
    with_crews(list, crews)
}

// The plan without groups, all shares 0.
pub fn no_groups() -> PlanArray {
    PlanArray {
        count: 0,
        groups: [0; 64],
        shares: [0; 512],
    }
}

// The plan with one group more at its end, where there is a place.
pub fn with_group(mut plan: PlanArray, set: u64) -> PlanArray {
    let at = plan.count;
    if let Some(place) = plan.groups.get_mut(at) {
        *place = set;
        plan.count = at + 1;
    }
    plan
}

// The plan with the share of site i, where there is a place.
pub fn with_share(mut plan: PlanArray, i: usize, s: u64) -> PlanArray {
    if let Some(place) = plan.shares.get_mut(i) {
        *place = s;
    }
    plan
}

// The pairs of depots 0 to 3.
const PAIRS: [(u8, u8); 10] = [
    (0, 0),
    (0, 1),
    (0, 2),
    (0, 3),
    (1, 1),
    (1, 2),
    (1, 3),
    (2, 2),
    (2, 3),
    (3, 3),
];

// Each place's own number.
fn numbers() -> [usize; 32] {
    let mut out = [0; 32];
    for (k, place) in out.iter_mut().enumerate() {
        *place = k;
    }
    out
}

// At each place the sum of the numbers up to it. From the multisets of j of the kinds below k, for each k, this makes those of j + 1.
fn sums(mut counts: [usize; 32]) -> [usize; 32] {
    let mut sum: usize = 0;
    for count in counts.iter_mut() {
        sum = sum.wrapping_add(*count);
        *count = sum;
    }
    counts
}

// The last place whose number is at most n, of rising numbers from 0, and how much n is above that number.
fn last_at_most(counts: &[usize; 32], n: usize) -> (usize, usize) {
    let mut last = (0, n);
    for (k, count) in counts.iter().enumerate() {
        if *count <= n {
            last = (k, n - *count);
        }
    }
    last
}

// The list with a site of kind 1 to 30 more: a pair of depots below 4 and 1 to 3 litres.
fn with_kind(list: ListArray, kind: usize) -> ListArray {
    if kind == 0 {
        return list;
    }
    let place = kind - 1;
    match PAIRS.get(place / 3) {
        Some((first, second)) => with_site(list, *first, *second, (place % 3) as u32 + 1),
        None => list,
    }
}

// The n-th list, n < SMALL, of up to 4 sites over the pairs of depots below 4, with 1 to 3 litres each, kinds not falling. Kind 0 stands for no site.
pub fn small(n: usize) -> ListArray {
    let twos = sums(numbers());
    let threes = sums(twos);
    let fours = sums(threes);
    let (d, three) = last_at_most(&fours, n);
    let (c, two) = last_at_most(&threes, three);
    let (b, a) = last_at_most(&twos, two);
    with_kind(with_kind(with_kind(with_kind(no_sites(), a), b), c), d)
}

// A number of a xorshift generator, as one below m, if m is not 0.
fn below(x: u64, m: u64) -> u64 {
    if m == 0 { 0 } else { (x >> 20) % m }
}

// As one from 1 to m, if it fits.
fn up_to(x: u64, m: u64) -> u32 {
    let y = below(x, m);
    if y < 65535 {
        return (y as u32) + 1;
    }
    1
}

fn byte(x: u64) -> u8 {
    u8::try_from(x).unwrap_or(0)
}

// A xorshift generator, at the number that comes next; it is not 0.
#[derive(Clone, Copy)]
struct Generator(u64);

impl Generator {
    fn new(seed: u64, k: u64) -> Generator {
        let mut from = Generator((k << 1) | 1);
        from.skip();
        let mut generator = Generator(seed.wrapping_add(from.0) | 1);
        generator.skip();
        generator
    }

    // Leaves three numbers out.
    fn skip(&mut self) {
        for _ in 0..3 {
            self.draw();
        }
    }

    fn draw(&mut self) -> u64 {
        let x = self.0;
        let a = x ^ (x << 13);
        let b = a ^ (a >> 7);
        self.0 = b ^ (b << 17);
        x
    }

    fn draw_below(&mut self, m: u64) -> u64 {
        below(self.draw(), m)
    }
}

// The most litres of a site, small or large.
fn most_litres(choice: u64) -> u64 {
    match choice {
        0 => 1,
        1 => 3,
        2 => 20,
        _ => 65535,
    }
}

// The k-th pseudo-random list of a seed: up to 10 depots, up to 14 sites, in any order, own and parallel ones among them.
pub fn random(seed: u64, k: u64) -> ListArray {
    let mut numbers = Generator::new(seed, k);
    let depots = numbers.draw_below(10).wrapping_add(1);
    let count = numbers.draw_below(15);
    let most = most_litres(below(numbers.0, 4));
    let mut list = no_sites();
    numbers.draw();
    for _ in 0..count {
        let first = byte(numbers.draw_below(depots));
        let second = byte(numbers.draw_below(depots));
        list = with_site(list, first, second, up_to(numbers.draw(), most));
    }
    list
}

// The crews of a depot in a pseudo-random roll: 1 to 9, often the same.
fn some_crews(choice: u64, number: u64) -> u8 {
    match below(choice, 4) {
        0 => 1,
        1 => 9,
        _ => byte(below(number, 9).wrapping_add(1)),
    }
}

// Does a site name the depot?
fn is_named(list: &ListArray, depot: u8) -> bool {
    list.sites
        .iter()
        .take(list.count)
        .any(|site| site.first == depot || site.second == depot)
}

// Has a depot that no site names crews? By choice none has, one of four, every second, or all.
fn is_chosen(x: u64, choice: u64) -> bool {
    match choice {
        0 => false,
        1 => below(x, 4) == 0,
        2 => below(x, 2) == 0,
        _ => true,
    }
}

// The list with the k-th pseudo-random roll of a seed: 1 to 9 crews at each depot that a site names, and at none, some or all of the others below `most`.
pub fn rolled(list: ListArray, most: usize, seed: u64, k: u64) -> ListArray {
    let mut numbers = Generator::new(seed, k);
    let choice = below(numbers.0, 4);
    numbers.skip();
    let mut crews = [0u8; 64];
    for (d, place) in crews.iter_mut().enumerate() {
        let kind = numbers.draw();
        let number = numbers.draw();
        let more = is_chosen(numbers.draw(), choice) && d < most;
        if more || is_named(&list, d as u8) {
            *place = some_crews(kind, number);
        }
    }
    with_crews(list, crews)
}

// The set of the depots with crews that no site names.
pub fn isolated(list: &ListArray) -> u64 {
    let mut set: u64 = 0;
    if list.roll.there {
        for d in 0..64u8 {
            if list.roll.crews[d as usize] != 0 && !is_named(list, d) {
                set |= 1 << d;
            }
        }
    }
    set
}

// The group at place p, empty where the plan has none.
pub fn group_at(plan: &PlanArray, p: usize) -> u64 {
    plan.groups.get(p).copied().unwrap_or(0)
}

// The plan with another set at place p, where it has a group there.
fn with_group_at(mut plan: PlanArray, p: usize, set: u64) -> PlanArray {
    if p < plan.count {
        if let Some(place) = plan.groups.get_mut(p) {
            *place = set;
        }
    }
    plan
}

// The plan without the group at place p, where there is one: those behind it move one place down.
fn without_group(mut plan: PlanArray, p: usize) -> PlanArray {
    if p < plan.count && p < 64 {
        plan.groups.copy_within(p + 1.., p);
        plan.groups[63] = 0;
        plan.count -= 1;
    }
    plan
}

// The plan with one group more, at place p, where there is a place: those from there on move one place up.
fn with_group_before(mut plan: PlanArray, p: usize, set: u64) -> PlanArray {
    if plan.count < 64 && p <= plan.count {
        plan.groups.copy_within(p..63, p + 1);
        plan.groups[p] = set;
        plan.count += 1;
    }
    plan
}

// The set of the lowest depot of a set.
fn lowest(set: u64) -> u64 {
    set & set.wrapping_neg()
}

fn share_at(plan: &PlanArray, i: usize) -> u64 {
    plan.shares.get(i).copied().unwrap_or(0)
}

// The plan with the share of site i, where the list has one.
fn changed(list: &ListArray, plan: PlanArray, i: usize, s: u64) -> PlanArray {
    if i < list.count {
        return with_share(plan, i, s);
    }
    plan
}

fn one_more(list: &ListArray, plan: PlanArray, i: usize) -> PlanArray {
    let s = share_at(&plan, i).wrapping_add(1);
    changed(list, plan, i, s)
}

// 0 stays 0.
fn one_less(list: &ListArray, plan: PlanArray, i: usize) -> PlanArray {
    let s = share_at(&plan, i).saturating_sub(1);
    changed(list, plan, i, s)
}

fn exchanged(list: &ListArray, mut plan: PlanArray, i: usize, j: usize) -> PlanArray {
    let n = list.count.min(512);
    if i < n && j < n {
        plan.shares.swap(i, j);
    }
    plan
}

fn no_shares(mut plan: PlanArray) -> PlanArray {
    plan.shares = [0; 512];
    plan
}

// The groups at places p and p + 1 in one.
fn merged(plan: PlanArray, p: usize) -> PlanArray {
    let q = p.wrapping_add(1);
    if q < plan.count {
        let set = group_at(&plan, p) | group_at(&plan, q);
        return without_group(with_group_at(plan, p, set), q);
    }
    plan
}

// The group at place p in two, its lowest depot in the first of them or in the second.
fn split(plan: PlanArray, p: usize, first: bool) -> PlanArray {
    let set = group_at(&plan, p);
    let low = lowest(set);
    let rest = set & !low;
    if p < plan.count && rest != 0 {
        let (before, at) = if first { (low, rest) } else { (rest, low) };
        return with_group_before(with_group_at(plan, p, at), p, before);
    }
    plan
}

fn swapped(plan: PlanArray, p: usize) -> PlanArray {
    let q = p.wrapping_add(1);
    if q < plan.count {
        let set = group_at(&plan, p);
        let other = group_at(&plan, q);
        return with_group_at(with_group_at(plan, p, other), q, set);
    }
    plan
}

// The lowest depot of the group at place p goes to the group at place q.
fn moved(plan: PlanArray, p: usize, q: usize) -> PlanArray {
    if p < plan.count && q < plan.count {
        let set = group_at(&plan, p);
        let low = lowest(set);
        let more = group_at(&plan, q) | low;
        return with_group_at(with_group_at(plan, p, set & !low), q, more);
    }
    plan
}

fn litres_at(list: &ListArray, i: usize) -> u64 {
    list.sites.get(i).map_or(0, |site| site.litres as u64)
}

// How a plan is changed at a place p: its shares there and behind it, or its groups.
#[derive(Clone, Copy)]
enum Change {
    OneMore,
    OneLess,
    Exchanged,
    LessBehind,
    TwoMore,
    TwoMoreOneLess,
    Nothing,
    LitresMore,
    NoShares,
    Merged,
    SplitFirst,
    SplitSecond,
    Swapped,
    Without,
    EmptyBefore,
    MovedUp,
    MovedDown,
    Twice,
    OtherDepot,
    WithoutLowest,
}

// Each change.
const CHANGES: [Change; 20] = [
    Change::OneMore,
    Change::OneLess,
    Change::Exchanged,
    Change::LessBehind,
    Change::TwoMore,
    Change::TwoMoreOneLess,
    Change::Nothing,
    Change::LitresMore,
    Change::NoShares,
    Change::Merged,
    Change::SplitFirst,
    Change::SplitSecond,
    Change::Swapped,
    Change::Without,
    Change::EmptyBefore,
    Change::MovedUp,
    Change::MovedDown,
    Change::Twice,
    Change::OtherDepot,
    Change::WithoutLowest,
];

impl Change {
    // The plan changed at place p; unchanged where it has nothing to change there.
    fn at(self, list: &ListArray, plan: PlanArray, p: usize) -> PlanArray {
        let q = p.wrapping_add(1);
        let set = group_at(&plan, p);
        match self {
            Change::OneMore => one_more(list, plan, p),
            Change::OneLess => one_less(list, plan, p),
            Change::Exchanged => exchanged(list, plan, p, q),
            Change::LessBehind => one_more(list, one_less(list, plan, q), p),
            Change::TwoMore => one_more(list, one_more(list, plan, q), p),
            Change::TwoMoreOneLess => {
                let less = one_less(list, plan, p.wrapping_add(2));
                one_more(list, one_more(list, less, q), p)
            }
            Change::Nothing => changed(list, plan, p, 0),
            Change::LitresMore => {
                let s = share_at(&plan, p).wrapping_add(litres_at(list, p));
                changed(list, plan, p, s)
            }
            Change::NoShares => no_shares(plan),
            Change::Merged => merged(plan, p),
            Change::SplitFirst => split(plan, p, true),
            Change::SplitSecond => split(plan, p, false),
            Change::Swapped => swapped(plan, p),
            Change::Without => without_group(plan, p),
            Change::EmptyBefore => with_group_before(plan, p, 0),
            Change::MovedUp => moved(plan, p, q),
            Change::MovedDown => moved(plan, q, p),
            Change::Twice => with_group(plan, set),
            Change::OtherDepot => with_group_at(plan, p, set | 2048),
            Change::WithoutLowest => with_group_at(plan, p, set & !lowest(set)),
        }
    }
}

// The number of places: of sites or of groups, whichever are more, and at least 1.
fn places(list: &ListArray, plan: &PlanArray) -> usize
    ensures { (0 < result) × (result ≤ 512) }
{
    if 512 < list.count || 64 < plan.count {
        return 1;
    }
    list.count.max(plan.count).max(1)
}

// How many variants a plan has.
pub fn variants(list: &ListArray, plan: &PlanArray) -> usize {
    CHANGES.len() * places(list, plan)
}

// The k-th plan near the given one: one share, or some, or one group changed. Most are false where the plan is true.
pub fn variant(list: &ListArray, plan: PlanArray, k: usize) -> PlanArray {
    let n = places(list, &plan);
    match CHANGES.get(k / n) {
        Some(change) => change.at(list, plan, k % n),
        None => plan,
    }
}
