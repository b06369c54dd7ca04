// Document 01's lists with known plans, and lists with crews and isolated depots, counted over all sets.
#![tactic(auto)]

use exhaustive::{has_groups, is_small, is_true};
use networks::{
    no_groups, no_sites, with_crews, with_crews_below, with_group, with_share, with_site,
};
use records::{ListArray, PlanArray};
use std::io;
use tally::Tally;

fn one_site(a: u8, b: u8, w: u32) -> ListArray {
    with_site(no_sites(), a, b, w)
}

fn two_sites(a: u8, b: u8, w: u32, c: u8, d: u8, v: u32) -> ListArray {
    with_site(one_site(a, b, w), c, d, v)
}

fn one_group(g: u64) -> PlanArray {
    with_group(no_groups(), g)
}

fn two_groups(g: u64, h: u64) -> PlanArray {
    with_group(one_group(g), h)
}

fn shares(plan: PlanArray, s: u64, t: u64) -> PlanArray {
    with_share(with_share(plan, 0, s), 1, t)
}

// The list's groups are the plan's, and the plan is true or not, as expected.
fn known(t: &mut Tally, list: &ListArray, plan: &PlanArray) {
    t.count(has_groups(list, plan));
    t.count(is_true(list, plan));
}

fn untrue(t: &mut Tally, list: &ListArray, plan: &PlanArray) {
    t.count(!is_true(list, plan));
}

fn triangle() -> ListArray {
    with_site(two_sites(0, 1, 1, 1, 2, 1), 0, 2, 1)
}

fn nine_sites() -> ListArray {
    let mut list = no_sites();
    for (a, b) in [
        (0, 1),
        (0, 2),
        (0, 3),
        (1, 2),
        (1, 3),
        (2, 3),
        (0, 4),
        (1, 4),
        (4, 5),
    ] {
        list = with_site(list, a, b, 1);
    }
    list
}

// The starred lists.
fn starred(t: &mut Tally) {
    known(t, &no_sites(), &no_groups());
    known(t, &one_site(0, 1, 10), &with_share(one_group(3), 0, 10));
    known(t, &one_site(0, 0, 7), &with_share(one_group(1), 0, 7));
    known(t, &two_sites(0, 0, 4, 1, 1, 4), &shares(one_group(3), 8, 8));
    known(
        t,
        &two_sites(0, 0, 4, 1, 1, 3),
        &shares(two_groups(1, 2), 4, 3),
    );
    known(
        t,
        &two_sites(0, 0, 7, 0, 1, 6),
        &shares(two_groups(1, 2), 7, 0),
    );
}

fn starred_others(t: &mut Tally) {
    known(
        t,
        &two_sites(0, 0, 6, 0, 1, 6),
        &shares(one_group(3), 12, 0),
    );
    known(
        t,
        &two_sites(0, 0, 5, 0, 1, 6),
        &shares(one_group(3), 10, 1),
    );
    known(
        t,
        &two_sites(0, 1, 9, 1, 2, 1),
        &shares(two_groups(3, 4), 9, 0),
    );
    known(t, &triangle(), &shares(one_group(7), 3, 3));
}

// The list with crews at depots 0, 1 and 2, and none at the others.
fn crewed(list: ListArray, a: u8, b: u8, c: u8) -> ListArray {
    let mut crews = [0u8; 64];
    crews[0] = a;
    crews[1] = b;
    crews[2] = c;
    with_crews(list, crews)
}

// Lists with crews; a crewed depot that no site names is in the last group.
fn with_rolls(t: &mut Tally) {
    let one = one_site(0, 1, 12);
    known(t, &crewed(one, 3, 1, 0), &with_share(one_group(3), 0, 36));
    known(
        t,
        &crewed(one, 1, 1, 9),
        &with_share(two_groups(3, 4), 0, 12),
    );
    known(
        t,
        &crewed(one_site(0, 0, 4), 2, 0, 1),
        &with_share(two_groups(1, 4), 0, 8),
    );
    known(
        t,
        &crewed(two_sites(0, 1, 12, 2, 2, 5), 9, 9, 1),
        &shares(two_groups(4, 3), 108, 5),
    );
    known(
        t,
        &crewed(two_sites(0, 0, 4, 1, 1, 8), 1, 2, 0),
        &shares(one_group(3), 12, 24),
    );
    untrue(t, &crewed(one, 3, 1, 0), &with_share(one_group(3), 0, 24));
    untrue(t, &crewed(one, 1, 1, 9), &with_share(one_group(3), 0, 12));
    untrue(t, &crewed(one, 1, 1, 9), &with_share(one_group(7), 0, 12));
}

// Isolated depots beside sites, below them and above, and behind two groups.
fn isolated(t: &mut Tally) {
    let own = with_share(two_groups(1, 6), 0, 4);
    known(t, &crewed(one_site(0, 0, 4), 1, 2, 1), &own);
    known(t, &crewed(one_site(0, 0, 4), 1, 9, 9), &own);
    let below = crewed(one_site(1, 1, 4), 3, 1, 1);
    known(t, &below, &with_share(two_groups(2, 5), 0, 4));
    let two = crewed(two_sites(0, 0, 3, 1, 1, 4), 1, 1, 9);
    known(t, &two, &shares(with_group(two_groups(2, 1), 4), 3, 4));
}

// Isolated depots 1 and 2: both left out, one of them, each in a group of its own, and with one that is not listed.
fn isolated_apart(t: &mut Tally) {
    let list = crewed(one_site(0, 0, 4), 1, 2, 1);
    untrue(t, &list, &with_share(one_group(1), 0, 4));
    untrue(t, &list, &with_share(two_groups(1, 2), 0, 4));
    untrue(t, &list, &with_share(two_groups(1, 4), 0, 4));
    let each = with_group(two_groups(1, 2), 4);
    untrue(t, &list, &with_share(each, 0, 4));
    let other = with_group(two_groups(1, 4), 2);
    untrue(t, &list, &with_share(other, 0, 4));
    untrue(t, &list, &with_share(two_groups(1, 14), 0, 4));
}

// Both joined to the group before, with its share by the new scale and by the old, one of them, and both in a group before it.
fn isolated_joined(t: &mut Tally) {
    let list = crewed(one_site(0, 0, 4), 1, 2, 1);
    untrue(t, &list, &with_share(one_group(7), 0, 16));
    untrue(t, &list, &with_share(one_group(7), 0, 4));
    untrue(t, &list, &with_share(two_groups(3, 4), 0, 12));
    untrue(t, &list, &with_share(two_groups(5, 2), 0, 8));
    untrue(t, &list, &with_share(two_groups(6, 1), 0, 4));
}

// Rolls and no sites: with crews at one depot, at two, at three and at none.
fn isolated_alone(t: &mut Tally) {
    known(t, &crewed(no_sites(), 1, 0, 0), &one_group(1));
    known(t, &crewed(no_sites(), 0, 2, 1), &one_group(6));
    known(t, &crewed(no_sites(), 9, 9, 9), &one_group(7));
    known(t, &crewed(no_sites(), 0, 0, 0), &no_groups());
}

fn isolated_alone_others(t: &mut Tally) {
    let list = crewed(no_sites(), 0, 2, 1);
    untrue(t, &list, &no_groups());
    untrue(t, &list, &one_group(2));
    untrue(t, &list, &two_groups(2, 4));
    untrue(t, &list, &two_groups(4, 2));
    untrue(t, &list, &one_group(7));
    untrue(t, &crewed(no_sites(), 0, 0, 0), &one_group(1));
}

// As many depots as the count takes, and one more.
fn isolated_all(t: &mut Tally) {
    let all = with_crews_below(no_sites(), 12, 9);
    known(t, &all, &one_group(4095));
    let one = with_crews_below(one_site(0, 11, 12), 12, 1);
    known(t, &one, &with_share(two_groups(2049, 2046), 0, 12));
    untrue(t, &all, &one_group(2047));
    let more = with_crews_below(no_sites(), 13, 9);
    t.count(!is_small(&more));
    untrue(t, &more, &one_group(8191));
}

// False plans: the examples of rows 12 to 16, and others.
fn false_plans(t: &mut Tally) {
    let one = one_site(0, 1, 10);
    untrue(t, &one, &with_share(two_groups(1, 3), 0, 10));
    untrue(t, &one, &with_share(one_group(1), 0, 10));
    untrue(t, &one, &with_share(one_group(3), 0, 21));
    untrue(t, &one, &with_share(one_group(3), 0, 11));
    untrue(t, &one, &with_share(two_groups(3, 0), 0, 10));
    untrue(t, &one, &with_share(one_group(7), 0, 10));
}

fn false_others(t: &mut Tally) {
    untrue(
        t,
        &two_sites(0, 0, 4, 1, 1, 4),
        &shares(two_groups(1, 2), 4, 4),
    );
    untrue(
        t,
        &two_sites(0, 0, 4, 1, 1, 3),
        &shares(two_groups(2, 1), 4, 3),
    );
    untrue(t, &two_sites(0, 0, 5, 0, 1, 6), &shares(one_group(3), 9, 2));
    untrue(
        t,
        &two_sites(0, 0, 7, 0, 1, 6),
        &shares(two_groups(1, 2), 7, 6),
    );
    untrue(t, &no_sites(), &one_group(0));
    untrue(t, &nine_sites(), &two_groups(15, 48));
    untrue(t, &triangle(), &shares(one_group(7), 3, 2));
}

fn main(rt: HostRuntime) -> io::Result<()> {
    let mut t = Tally::default();
    starred(&mut t);
    starred_others(&mut t);
    with_rolls(&mut t);
    isolated(&mut t);
    isolated_apart(&mut t);
    isolated_joined(&mut t);
    isolated_alone(&mut t);
    isolated_alone_others(&mut t);
    isolated_all(&mut t);
    t.count(has_groups(&nine_sites(), &two_groups(31, 32)));
    false_plans(&mut t);
    false_others(&mut t);
    println!(rt; "known plans: {t}")
}
