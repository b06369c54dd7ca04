// Desks and tables that no history leaves behind, put to the desk's entry of each edition. Where row 0 applies, every call but load is refused by it, and the desk, the table and the
// buffer come back as they were; load works. Where only rows 15 or 16 would refuse the held plan, or the content lies beyond what is held, the desk answers from what it holds.
// Then tables of 0, 3, 512 and 600 places: a call stores what it is to store, and every other place keeps its content. Last, what only edition 2 can hold: large figures, rolls and isolated depots.
#![tactic(auto)]

ghost use Rattle.std.specs.Prelude.{◌≡◌, length};

use density::Site;
use edition1::{Request1, narrow_store};
use entries1::call_on1;
use held_state::Store;
use records::{Refusal, RollArray, no_roll};
use std::io;
use store::{Answer, Request};
use store_entries2::{call_on2, fresh2};
use table::values::narrow_low;
use table::{NO_SITE, NO_SITE1, Site1};
use tally::Tally;

#[derive(Clone, Copy)]
enum Edition {
    One,
    Two,
}

// A desk and a table of an edition, in figures. For edition 1 they are narrowed and what a call leaves is widened: a figure that does not fit would not come back.
#[derive(Clone, Copy)]
struct Desk {
    edition: Edition,
    store: Store,
    table: [Site; 600],
    places: usize,
}

fn site(first: u8, second: u8, litres: u32) -> Site {
    Site {
        first,
        second,
        litres,
    }
}

// A roll, or none with these bytes beside it: the crews of depots 0 and 1, and of all others alike.
fn roll_of(there: bool, first: u8, second: u8, others: u8) -> RollArray {
    let mut crews = [others; 64];
    crews[0] = first;
    crews[1] = second;
    RollArray { there, crews }
}

// A desk of so many sites, of two sites and others alike behind them, and no plan.
fn listed(
    edition: Edition,
    count: usize,
    first: Site,
    second: Site,
    others: Site,
    places: usize,
) -> Desk {
    let mut store = fresh2();
    store.count = count;
    let mut table = [others; 600];
    table[0] = first;
    table[1] = second;
    Desk {
        edition,
        store,
        table,
        places,
    }
}

impl Desk {
    // The desk with a plan of two groups and two shares at the front.
    fn planned(mut self, grouped: usize, g: u64, h: u64, s: u64, u: u64) -> Desk {
        let mut groups = [0u64; 64];
        groups[0] = g;
        groups[1] = h;
        let mut shares = [0u64; 512];
        shares[0] = s;
        shares[1] = u;
        self.store.held = true;
        self.store.grouped = grouped;
        self.store.groups = groups;
        self.store.shares = shares;
        self
    }

    // The desk with this roll or none.
    fn with_roll(mut self, roll: RollArray) -> Desk {
        self.store.roll = roll;
        self
    }

    fn crewed(self, first: u8, second: u8, others: u8) -> Desk {
        self.with_roll(roll_of(true, first, second, others))
    }

    // The desk with so many crews at one depot more.
    fn opened(mut self, depot: usize, n: u8) -> Desk {
        if let Some(crews) = self.store.roll.crews.get_mut(depot) {
            *crews = n;
        }
        self
    }
}

// A table and a request at edition 1's widths, and a table as the definition has it.
fn narrow_table(table: [Site; 600]) -> [Site1; 600] {
    let mut narrow = [NO_SITE1; 600];
    for (i, &x) in table.iter().enumerate() {
        narrow[i] = narrow_low(x);
    }
    narrow
}

fn widen_table(table: [Site1; 600]) -> [Site; 600] {
    let mut wide = [NO_SITE; 600];
    for (i, &x) in table.iter().enumerate() {
        wide[i] = Site::from(x);
    }
    wide
}

fn narrow_request(q: Request) -> Request1 {
    match q {
        Request::Load => Request1::Load,
        Request::Change(i, w) => Request1::Change(i, (w % 65536) as u16),
        Request::Add(f, s, w) => Request1::Add(f, s, (w % 65536) as u16),
        Request::Propose => Request1::Propose,
        Request::Share(i) => Request1::Share(i),
        Request::Depot(d) => Request1::Depot(d),
        Request::Difference(a, b) => Request1::Difference(a, b),
        Request::Written => Request1::Written,
        Request::AtLeast(m) => Request1::AtLeast(m),
        Request::ListWritten => Request1::ListWritten,
    }
}

// Kept: field by field, here and of stores, since this program alone compares them, and the crates that have the types would carry an equality for it.
fn same_site(a: &Site, b: &Site) -> bool {
    a.first == b.first && a.second == b.second && a.litres == b.litres
}

fn same_table(a: &[Site; 600], b: &[Site; 600]) -> bool {
    a.iter().zip(b.iter()).all(|(x, y)| same_site(x, y))
}

// Are both rolls there or both not, with the same bytes, and groups and shares the same?
fn same_store(a: &Store, b: &Store) -> bool {
    a.count == b.count
        && a.held == b.held
        && a.grouped == b.grouped
        && a.roll.there == b.roll.there
        && a.roll.crews == b.roll.crews
        && a.groups == b.groups
        && a.shares == b.shares
}

// What a call leaves, in figures, and the buffer that it was lent.
#[derive(Clone, Copy)]
struct Left {
    answer: Result<Answer, Refusal>,
    store: Store,
    table: [Site; 600],
    buffer: [u8; 20],
}

fn is_blank(buffer: &[u8; 20]) -> bool {
    buffer.iter().all(|x| *x == 0xA5)
}

fn called1(d: &Desk, request: Request, input: &[u8]) -> Left {
    let mut buffer = [0xA5u8; 20];
    let out = call_on1(
        narrow_store(d.store),
        narrow_table(d.table),
        d.places,
        narrow_request(request),
        input,
        &mut buffer,
    );
    Left {
        answer: out.answer,
        store: Store::from(out.store),
        table: widen_table(out.table),
        buffer,
    }
}

fn called2(d: &Desk, request: Request, input: &[u8]) -> Left {
    let mut buffer = [0xA5u8; 20];
    let out = call_on2(d.store, d.table, d.places, request, input, &mut buffer);
    let table = out.table;
    Left {
        answer: out.answer,
        store: out.store,
        table,
        buffer,
    }
}

impl Desk {
    fn called(&self, request: Request, input: &[u8]) -> Left {
        match self.edition {
            Edition::One => called1(self, request, input),
            Edition::Two => called2(self, request, input),
        }
    }

    // The desk that a call leaves.
    fn after(&self, request: Request, input: &[u8]) -> Desk {
        let left = self.called(request, input);
        let table = left.table;
        Desk {
            edition: self.edition,
            store: left.store,
            table,
            places: self.places,
        }
    }

    // The call gets this answer, and the desk and the table are as before.
    fn answers(&self, left: &Left, expected: Result<Answer, Refusal>) -> bool {
        left.answer == expected
            && same_store(&self.store, &left.store)
            && same_table(&self.table, &left.table)
    }

    // So is the buffer.
    fn stays(&self, request: Request, input: &[u8], expected: Result<Answer, Refusal>) -> bool {
        let left = self.called(request, input);
        self.answers(&left, expected) && is_blank(&left.buffer)
    }

    // What is written out has this length, and the buffer then is this.
    fn writes(&self, request: Request, n: usize, whole: &[u8]) -> bool {
        let left = self.called(request, b"");
        self.answers(&left, Ok(Answer::Length(n))) && left.buffer.as_slice() == whole
    }

    // The call is done, and the desk is this one then.
    fn leaves(&self, request: Request, input: &[u8], expected: &Store) -> bool {
        let left = self.called(request, input);
        left.answer == Ok(Answer::Done) && same_store(&left.store, expected)
    }

    // The call is done, this many sites are held then, and no plan and no roll.
    fn clears(&self, request: Request, input: &[u8], count: usize) -> bool {
        self.leaves(request, input, &bare(count, no_roll()))
    }

    // So it is, but the desk keeps its roll.
    fn keeps_roll(&self, request: Request, count: usize) -> bool {
        self.leaves(request, b"", &bare(count, self.store.roll))
    }

    // The call is done, this many sites are held then and no plan, this site stands at this place, and all other places keep their content.
    fn stores(&self, request: Request, input: &[u8], count: usize, k: usize, x: Site) -> bool {
        let left = self.called(request, input);
        let mut expected = self.table;
        if let Some(place) = expected.get_mut(k) {
            *place = x;
        }
        self.clears(request, input, count)
            && same_table(&expected, &left.table)
            && is_blank(&left.buffer)
    }
}

// A desk of this many sites and no plan, whose places for groups and shares are zero.
fn bare(count: usize, roll: RollArray) -> Store {
    Store {
        count,
        held: false,
        grouped: 0,
        groups: [0; 64],
        shares: [0; 512],
        roll,
    }
}

// Calls with no input that change nothing, and what each is answered.
fn asked(t: &mut Tally, d: &Desk, cases: &[(Request, Result<Answer, Refusal>)]) {
    for (request, expected) in cases {
        t.count(d.stays(*request, b"", *expected));
    }
}

// A call with no input that is done.
fn cleared(t: &mut Tally, d: &Desk, request: Request, count: usize) {
    t.count(d.clears(request, b"", count));
}

// Document 01's list T, and the plan of it.
fn list_t(e: Edition) -> &'static [u8] {
    match e {
        Edition::One => b"LS\x01\x00ST\x00\x01\x0A\x00",
        Edition::Two => b"L2\x01\x00S2\x00\x01\x0A\x00\x00\x00",
    }
}

fn plan_t(e: Edition) -> &'static [u8] {
    match e {
        Edition::One => b"PL\x01\x01\x00GR\x03\x00\x00\x00\x00\x00\x00\x00SH\x0A\x00\x00\x00",
        Edition::Two => {
            b"P2\x01\x01\x00GR\x03\x00\x00\x00\x00\x00\x00\x00S3\x0A\x00\x00\x00\x00\x00\x00\x00"
        }
    }
}

// The empty list.
fn list_empty(e: Edition) -> &'static [u8]
    ensures { length result.now ≡ 4 }
{
    match e {
        Edition::One => b"LS\x00\x00",
        Edition::Two => b"L2\x00\x00",
    }
}

// A row refuses the list T, or the plan of it, of an edition: the desk's own or the other.
fn loaded_t(t: &mut Tally, d: &Desk, e: Edition, row: Refusal) {
    t.count(d.stays(Request::Load, list_t(e), Err(row)));
}

fn proposed(t: &mut Tally, d: &Desk, e: Edition, row: Refusal) {
    t.count(d.stays(Request::Propose, plan_t(e), Err(row)));
}

// On load the empty list is done, and no bytes are row 1.
fn loaded(t: &mut Tally, d: &Desk) {
    t.count(d.stays(Request::Load, b"", Err(Refusal::ListHead)));
    t.count(d.clears(Request::Load, list_empty(d.edition), 0));
}

// The calls that try row 0 answer it, those that would write and those that only read: every call but load; a list that is refused, and the empty list, which is not.
fn corrupt(t: &mut Tally, d: &Desk) {
    for request in [
        Request::Change(0, 1),
        Request::Change(9, 0),
        Request::Add(0, 1, 1),
        Request::Add(64, 0, 0),
        Request::Share(0),
        Request::Depot(0),
        Request::Difference(0, 1),
        Request::AtLeast(0),
        Request::ListWritten,
        Request::Written,
    ] {
        t.count(d.stays(request, b"", Err(Refusal::CorruptStore)));
    }
    proposed(t, d, d.edition, Refusal::CorruptStore);
    loaded(t, d);
}

// "held site count above 512 or the table's places": sites (0,1) of 10.
fn corrupt_counts(t: &mut Tally, e: Edition) {
    let x = site(0, 1, 10);
    for (count, places) in [
        (1, 0),
        (2, 1),
        (513, 600),
        (600, 600),
        (601, 600),
        (18446744073709551615, 18446744073709551615),
    ] {
        corrupt(t, &listed(e, count, x, x, x, places));
    }
}

// A held site behind a sound one, and the same as the first, without a plan and with one.
fn with_site(t: &mut Tally, e: Edition, x: Site) {
    let sound = site(0, 1, 10);
    let first = listed(e, 1, x, sound, sound, 9);
    corrupt(t, &first);
    corrupt(t, &first.planned(1, 3, 0, 10, 0));
    corrupt(t, &listed(e, 2, sound, x, sound, 2));
}

// "a held site that rows 5 or 6 refuse"
fn corrupt_sites(t: &mut Tally, e: Edition) {
    with_site(t, e, site(0, 64, 10));
    with_site(t, e, site(255, 0, 10));
    with_site(t, e, site(0, 1, 0));
    let x = site(0, 1, 10);
    corrupt(t, &listed(e, 512, x, x, site(0, 0, 0), 512));
}

// T with held plans, each of so many groups, of which two stand at the front, and a share.
fn with_plans(t: &mut Tally, e: Edition, plans: &[(usize, u64, u64, u64)]) {
    let no = site(0, 0, 0);
    let one = listed(e, 1, site(0, 1, 10), no, no, 512);
    for (grouped, g, h, s) in plans {
        corrupt(t, &one.planned(*grouped, *g, *h, *s, 0));
    }
}

// "a held plan that rows 8 or 12 .. refuse": too many groups, groups that meet, an empty one
fn corrupt_groups(t: &mut Tally, e: Edition) {
    let plans = [
        (65, 3, 0, 10),
        (18446744073709551615, 3, 0, 10),
        (2, 1, 3, 10),
        (2, 3, 0, 10),
        (64, 3, 0, 10),
    ];
    with_plans(t, e, &plans);
}

// rows 13 and 14: a listed depot in no group, one that is not listed; a share above w × q
fn corrupt_shares(t: &mut Tally, e: Edition) {
    let plans = [
        (0, 3, 0, 10),
        (1, 1, 2, 10),
        (1, 7, 0, 10),
        (1, 3, 0, 21),
        (1, 3, 0, 4294967295),
    ];
    with_plans(t, e, &plans);
}

// row 14: own 0 of 7 and (0,1) of 6, the own site not whole; a share to an earlier group; a share above w × q
fn corrupt_own(t: &mut Tally, e: Edition) {
    let no = site(0, 0, 0);
    let two = listed(e, 2, site(0, 0, 7), site(0, 1, 6), no, 2);
    corrupt(t, &two.planned(2, 1, 2, 6, 0));
    corrupt(t, &two.planned(2, 1, 2, 7, 1));
    corrupt(t, &two.planned(1, 3, 0, 14, 13));
}

// The list written out is T.
fn written_t(t: &mut Tally, d: &Desk) {
    t.count(match d.edition {
        Edition::One => d.writes(
            Request::ListWritten,
            10,
            b"LS\x01\x00ST\x00\x01\x0A\x00\xA5\xA5\xA5\xA5\xA5\xA5\xA5\xA5\xA5\xA5",
        ),
        Edition::Two => d.writes(
            Request::ListWritten,
            12,
            b"L2\x01\x00S2\x00\x01\x0A\x00\x00\x00\xA5\xA5\xA5\xA5\xA5\xA5\xA5\xA5",
        ),
    });
}

// A plan that only row 15 refuses is answered from what is held.
fn uneven(t: &mut Tally, e: Edition) {
    let no = site(0, 0, 0);
    let d = listed(e, 1, site(0, 1, 10), no, no, 1).planned(1, 3, 0, 11, 0);
    let cases = [
        (Request::Share(0), Ok(Answer::Share(11, 20))),
        (Request::Depot(1), Ok(Answer::Depot(10, 2))),
        (Request::Written, Err(Refusal::BufferShort)),
    ];
    asked(t, &d, &cases);
    written_t(t, &d);
    cleared(t, &d, Request::Change(0, 10), 1);
}

// A plan that only row 16 refuses likewise.
fn rising(t: &mut Tally, e: Edition) {
    let no = site(0, 0, 0);
    let two = listed(e, 2, site(0, 0, 4), site(1, 1, 4), no, 600);
    let d = two.planned(2, 1, 2, 4, 4);
    let cases = [
        (Request::Depot(0), Ok(Answer::Depot(4, 1))),
        (Request::Difference(0, 1), Ok(Answer::Difference(0, 1))),
    ];
    asked(t, &d, &cases);
    proposed(t, &d, e, Refusal::OtherSiteCount);
    t.count(match e {
        Edition::One => d.writes(
            Request::ListWritten,
            16,
            b"LS\x02\x00ST\x00\x00\x04\x00ST\x01\x01\x04\x00\xA5\xA5\xA5\xA5",
        ),
        Edition::Two => d.writes(
            Request::ListWritten,
            20,
            b"L2\x02\x00S2\x00\x00\x04\x00\x00\x00S2\x01\x01\x04\x00\x00\x00",
        ),
    });
    cleared(t, &d, Request::Add(0, 1, 1), 3);
}

// The depots that reach a threshold are read from the held groups in order, up to the first below it. Here W/q is 4 and then 9, which only row 16 refuses.
fn rising_read(t: &mut Tally, e: Edition) {
    let no = site(0, 0, 0);
    let two = listed(e, 2, site(0, 0, 4), site(1, 1, 9), no, 2);
    let cases = [
        (Request::AtLeast(0), Ok(Answer::Reached(3))),
        (Request::AtLeast(4), Ok(Answer::Reached(3))),
        (Request::AtLeast(5), Ok(Answer::Reached(0))),
        (Request::AtLeast(9), Ok(Answer::Reached(0))),
    ];
    asked(t, &two.planned(2, 1, 2, 4, 9), &cases);
}

// Here it is 9 and then 4: at 9, 5 and 4, above 9, and far above.
fn falling_read(t: &mut Tally, e: Edition) {
    let no = site(0, 0, 0);
    let two = listed(e, 2, site(0, 0, 4), site(1, 1, 9), no, 2);
    let cases = [
        (Request::AtLeast(4), Ok(Answer::Reached(3))),
        (Request::AtLeast(5), Ok(Answer::Reached(2))),
        (Request::AtLeast(9), Ok(Answer::Reached(2))),
        (Request::AtLeast(10), Ok(Answer::Reached(0))),
        (Request::AtLeast(65536), Ok(Answer::Reached(0))),
        (Request::AtLeast(4294967295), Ok(Answer::Reached(0))),
    ];
    asked(t, &two.planned(2, 2, 1, 4, 9), &cases);
}

// Content beyond what is held is no corruption: places of the table, of groups and of shares.
fn beyond(t: &mut Tally, e: Edition) {
    let bad = site(255, 255, 0);
    let one = listed(e, 1, site(0, 1, 10), bad, bad, 600);
    let d = one.planned(1, 3, 3, 10, 77);
    let cases = [
        (Request::Share(0), Ok(Answer::Share(10, 20))),
        (Request::Depot(0), Ok(Answer::Depot(10, 2))),
        (Request::Share(1), Err(Refusal::NoSuchSite)),
        (Request::AtLeast(5), Ok(Answer::Reached(3))),
        (Request::AtLeast(6), Ok(Answer::Reached(0))),
    ];
    asked(t, &d, &cases);
    written_t(t, &d);
    cleared(t, &d, Request::Add(2, 3, 4), 2);
}

// Nor is a plan's content beside "no plan held".
fn beside(t: &mut Tally, e: Edition) {
    let bad = site(255, 255, 0);
    let one = listed(e, 1, site(0, 1, 10), bad, bad, 1);
    let mut d = one.planned(65, 3, 3, 99, 77);
    d.store.held = false;
    let cases = [
        (Request::AtLeast(0), Err(Refusal::NoPlanHeld)),
        (Request::Share(0), Err(Refusal::NoPlanHeld)),
        (Request::Add(0, 1, 1), Err(Refusal::TooManySites)),
        (Request::Propose, Err(Refusal::PlanHead)),
    ];
    asked(t, &d, &cases);
    written_t(t, &d);
    cleared(t, &d, Request::Change(0, 10), 1);
}

// A table of so many places, of which all, or 512, can hold sites, and all of these but one do: a change of the last site held, an add, and the list T. Then calls that are refused: no
// bytes, a site that is not held, a list of at least 22 bytes written out, and a site more than the table has places, or than 512.
fn lent(t: &mut Tally, e: Edition, last: usize, count: usize, all: usize, places: usize) {
    let x = site(2, 3, 5);
    let d = listed(e, count, x, x, x, places);
    t.count(d.stores(Request::Change(last, 7), b"", count, last, site(2, 3, 7)));
    t.count(d.stores(Request::Add(4, 5, 6), b"", all, count, site(4, 5, 6)));
    t.count(d.stores(Request::Load, list_t(e), 1, 0, site(0, 1, 10)));
    let cases = [
        (Request::Load, Err(Refusal::ListHead)),
        (Request::Change(count, 7), Err(Refusal::NoSuchSite)),
    ];
    asked(t, &d, &cases);
    let cases = [
        (Request::ListWritten, Err(Refusal::BufferShort)),
        (Request::Add(4, 5, 6), Err(Refusal::TooManySites)),
    ];
    asked(t, &listed(e, all, x, x, x, places), &cases);
}

// A table of no places: the list T, other calls, and the empty list.
fn lent_none(t: &mut Tally, e: Edition) {
    let x = site(2, 3, 5);
    let d = listed(e, 0, x, x, x, 0);
    loaded_t(t, &d, e, Refusal::TooManySites);
    let cases = [
        (Request::Change(0, 7), Err(Refusal::NoSuchSite)),
        (Request::Add(4, 5, 6), Err(Refusal::TooManySites)),
    ];
    asked(t, &d, &cases);
    let mut whole = [0xA5u8; 20];
    whole[..4].copy_from_slice(list_empty(e));
    t.count(d.writes(Request::ListWritten, 4, &whole));
    t.count(d.stores(Request::Load, list_empty(e), 0, 600, x));
}

// A list and a plan of the other edition, at a desk that holds T: rows 1 and 7.
fn other_edition(t: &mut Tally, e: Edition, other: Edition) {
    let x = site(0, 1, 10);
    let d = listed(e, 1, x, x, x, 2);
    loaded_t(t, &d, other, Refusal::ListHead);
    proposed(t, &d, other, Refusal::PlanHead);
}

// Figures that only edition 2 can hold: one site of the most litres, between two depots, and a share of 33 bits, which only row 15 refuses.
fn large(t: &mut Tally) {
    let no = site(0, 0, 0);
    let one = listed(Edition::Two, 1, site(0, 1, 4294967295), no, no, 1);
    let d = one.planned(1, 3, 0, 4294967296, 0);
    let cases = [
        (Request::Share(0), Ok(Answer::Share(4294967296, 8589934590))),
        (Request::Depot(1), Ok(Answer::Depot(4294967295, 2))),
        (Request::AtLeast(2147483647), Ok(Answer::Reached(3))),
        (Request::AtLeast(2147483648), Ok(Answer::Reached(0))),
    ];
    asked(t, &d, &cases);
    let whole = b"L2\x01\x00S2\x00\x01\xFF\xFF\xFF\xFF\xA5\xA5\xA5\xA5\xA5\xA5\xA5\xA5";
    t.count(d.writes(Request::ListWritten, 12, whole));
    cleared(t, &d, Request::Change(0, 65536), 1);
}

// Two own sites, of the most litres and of 65,536, and the difference of their depots.
fn large_own(t: &mut Tally) {
    let no = site(0, 0, 0);
    let two = listed(
        Edition::Two,
        2,
        site(0, 0, 4294967295),
        site(1, 1, 65536),
        no,
        2,
    );
    let cases = [
        (
            Request::Difference(1, 0),
            Ok(Answer::Difference(-4294901759, 1)),
        ),
        (Request::Share(1), Ok(Answer::Share(65536, 65536))),
        (Request::AtLeast(4294967295), Ok(Answer::Reached(1))),
        (Request::AtLeast(65536), Ok(Answer::Reached(3))),
    ];
    asked(t, &two.planned(2, 1, 2, 4294967295, 65536), &cases);
}

// Row 0: a site with the most litres that row 5 refuses; shares one above w × q, and whole in their low 32 bits alone.
fn large_corrupt(t: &mut Tally) {
    with_site(t, Edition::Two, site(0, 64, 4294967295));
    let no = site(0, 0, 0);
    let one = listed(Edition::Two, 1, site(0, 1, 4294967295), no, no, 1);
    corrupt(t, &one.planned(1, 3, 0, 8589934591, 0));
    corrupt(t, &one.planned(1, 3, 0, 18446744073709551615, 0));
    let own = listed(Edition::Two, 1, site(0, 0, 65536), no, no, 1);
    corrupt(t, &own.planned(1, 1, 0, 4295032832, 0));
}

// A change, an add and a load of such litres.
fn large_stored(t: &mut Tally) {
    let x = site(2, 3, 5);
    let d = listed(Edition::Two, 2, x, x, x, 3);
    t.count(d.stores(Request::Change(1, 65536), b"", 2, 1, site(2, 3, 65536)));
    let add = Request::Add(4, 5, 4294967295);
    t.count(d.stores(add, b"", 3, 2, site(4, 5, 4294967295)));
    let list = b"L2\x01\x00S2\x00\x01\x00\x00\x01\x00";
    t.count(d.stores(Request::Load, list, 1, 0, site(0, 1, 65536)));
}

// Row 22: a byte of a held roll above 9, of a depot that a site names, of one that none names, and where there is no site.
fn corrupt_rolls(t: &mut Tally) {
    let x = site(0, 1, 10);
    let one = listed(Edition::Two, 1, x, x, x, 2);
    corrupt(t, &one.crewed(10, 1, 0));
    corrupt(t, &one.crewed(1, 1, 255));
    corrupt(t, &listed(Edition::Two, 0, x, x, x, 2).crewed(0, 0, 10));
}

// Row 23: a held site whose first or second depot has no crew, without a plan and with one, and behind a sound site.
fn corrupt_crews(t: &mut Tally) {
    let x = site(0, 1, 10);
    let one = listed(Edition::Two, 1, x, x, x, 2);
    corrupt(t, &one.crewed(0, 1, 1));
    corrupt(t, &one.crewed(9, 0, 9));
    corrupt(t, &one.planned(1, 3, 0, 10, 0).crewed(1, 0, 1));
    let own = site(0, 0, 10);
    corrupt(t, &listed(Edition::Two, 2, own, x, x, 2).crewed(1, 0, 0));
}

// The site (0,1) of 12 litres with three crews and one, and its plan: 36 of 48. An added site needs crews, and a change and an add keep the roll.
fn rolled(t: &mut Tally) {
    let x = site(0, 1, 12);
    let one = listed(Edition::Two, 1, x, x, x, 2).crewed(3, 1, 0);
    let d = one.planned(1, 3, 0, 36, 0);
    let cases = [
        (Request::Share(0), Ok(Answer::Share(36, 48))),
        (Request::Depot(1), Ok(Answer::Depot(12, 4))),
        (Request::ListWritten, Err(Refusal::BufferShort)),
        (Request::Add(0, 2, 1), Err(Refusal::SiteUncrewed)),
    ];
    asked(t, &d, &cases);
    t.count(d.keeps_roll(Request::Add(1, 0, 1), 2));
    t.count(d.keeps_roll(Request::Change(0, 1), 1));
    loaded(t, &d);
}

// Bytes beside "no roll" are no corruption, and each depot has one crew.
fn beside_no_roll(t: &mut Tally) {
    let x = site(0, 1, 10);
    let one = listed(Edition::Two, 1, x, x, x, 2).with_roll(roll_of(false, 255, 0, 0));
    let d = one.planned(1, 3, 0, 10, 0);
    let cases = [
        (Request::Share(0), Ok(Answer::Share(10, 20))),
        (Request::Depot(1), Ok(Answer::Depot(10, 2))),
    ];
    asked(t, &d, &cases);
    written_t(t, &d);
    t.count(d.keeps_roll(Request::Add(2, 3, 4), 2));
}

// A list with the site (0,1) of 12 litres and with three crews, one and two at depots 0, 1 and 2: depot 2 is isolated.
fn opened_list() -> [u8; 78] {
    let mut bytes = [0u8; 78];
    bytes[..17].copy_from_slice(b"L2\x01\x00S2\x00\x01\x0C\x00\x00\x00DR\x03\x01\x02");
    bytes
}

// A list without sites and with nine crews at each depot.
fn empty_list() -> [u8; 70] {
    let mut bytes = [9u8; 70];
    bytes[..6].copy_from_slice(b"L2\x00\x00DR");
    bytes
}

// A fresh desk, over a table of two places.
fn fresh_desk() -> Desk {
    let no = site(0, 0, 0);
    listed(Edition::Two, 0, no, no, no, 2)
}

// A list that a fresh desk loads, and the desk and the table then.
fn loads(t: &mut Tally, list: &[u8], expected: &Desk) {
    let fresh = fresh_desk();
    t.count(fresh.leaves(Request::Load, list, &expected.store));
    let left = fresh.after(Request::Load, list);
    t.count(same_table(&left.table, &expected.table));
}

// A plan that a row refuses, and one that is held then, with the desk.
fn refuses(t: &mut Tally, d: &Desk, plan: &[u8], row: Refusal) {
    t.count(d.stays(Request::Propose, plan, Err(row)));
}

fn holds(t: &mut Tally, d: &Desk, plan: &[u8], expected: &Desk) {
    t.count(d.leaves(Request::Propose, plan, &expected.store));
}

// The desk that holds the first of these lists.
fn opened_desk() -> Desk {
    let no = site(0, 0, 0);
    let one = listed(Edition::Two, 1, site(0, 1, 12), no, no, 2);
    one.crewed(3, 1, 0).opened(2, 2)
}

// Plans of it that leave the isolated depot out, join it to the group before, or have it in a group before.
fn opened_refused(t: &mut Tally, d: &Desk) {
    let out = b"P2\x01\x01\x00GR\x03\x00\x00\x00\x00\x00\x00\x00S3\x24\x00\x00\x00\x00\x00\x00\x00";
    refuses(t, d, out, Refusal::GroupsUnlisted);
    let joined =
        b"P2\x01\x01\x00GR\x07\x00\x00\x00\x00\x00\x00\x00S3\x36\x00\x00\x00\x00\x00\x00\x00";
    refuses(t, d, joined, Refusal::LoadUneven);
    let before =
        b"P2\x02\x01\x00GR\x04\x00\x00\x00\x00\x00\x00\x00GR\x03\x00\x00\x00\x00\x00\x00\x00S3\x24\x00\x00\x00\x00\x00\x00\x00";
    refuses(t, d, before, Refusal::GroupsRise);
}

// Questions about it: W 0 and its crews; the differences with a depot of the group before, and with itself; one that is not listed.
fn opened_asked(t: &mut Tally, d: &Desk) {
    let cases = [
        (Request::Depot(2), Ok(Answer::Depot(0, 2))),
        (Request::Depot(0), Ok(Answer::Depot(12, 4))),
        (Request::Difference(1, 2), Ok(Answer::Difference(24, 8))),
        (Request::Difference(2, 1), Ok(Answer::Difference(-24, 8))),
        (Request::Difference(2, 2), Ok(Answer::Difference(0, 4))),
        (Request::Depot(3), Err(Refusal::DepotUnlisted)),
        (Request::Difference(2, 63), Err(Refusal::DepotUnlisted)),
    ];
    asked(t, d, &cases);
}

// The depots that reach 0 are all listed ones, and the isolated one does not reach 1. The share is that of a group of four crews.
fn opened_reached(t: &mut Tally, d: &Desk) {
    let cases = [
        (Request::AtLeast(0), Ok(Answer::Reached(7))),
        (Request::AtLeast(1), Ok(Answer::Reached(3))),
        (Request::AtLeast(3), Ok(Answer::Reached(3))),
        (Request::AtLeast(4), Ok(Answer::Reached(0))),
        (Request::Share(0), Ok(Answer::Share(36, 48))),
    ];
    asked(t, d, &cases);
}

// A site that names it is added, (2,1) of 1, and the plan of both sites proposed: its group carries the new one, and it has all of that.
fn opened_added(t: &mut Tally, d: &Desk) {
    let add = Request::Add(2, 1, 1);
    t.count(d.stays(Request::Add(2, 3, 1), b"", Err(Refusal::SiteUncrewed)));
    t.count(d.keeps_roll(add, 2));
    let two = d.after(add, b"");
    t.count(two.stays(Request::Depot(2), b"", Err(Refusal::NoPlanHeld)));
    let plan =
        b"P2\x02\x02\x00GR\x03\x00\x00\x00\x00\x00\x00\x00GR\x04\x00\x00\x00\x00\x00\x00\x00S3\x24\x00\x00\x00\x00\x00\x00\x00S3\x02\x00\x00\x00\x00\x00\x00\x00";
    holds(t, &two, plan, &two.planned(2, 3, 4, 36, 2));
    let cases = [
        (Request::Depot(2), Ok(Answer::Depot(1, 2))),
        (Request::Share(1), Ok(Answer::Share(2, 2))),
    ];
    asked(t, &two.after(Request::Propose, plan), &cases);
}

// A history: the list is loaded, its plan {0,1}, {2} with 36 of 48 proposed.
fn opened_history(t: &mut Tally) {
    let list = opened_list();
    loads(t, &list, &opened_desk());
    let d = fresh_desk().after(Request::Load, &list);
    opened_refused(t, &d);
    let plan =
        b"P2\x02\x01\x00GR\x03\x00\x00\x00\x00\x00\x00\x00GR\x04\x00\x00\x00\x00\x00\x00\x00S3\x24\x00\x00\x00\x00\x00\x00\x00";
    holds(t, &d, plan, &opened_desk().planned(2, 3, 4, 36, 0));
    let held = d.after(Request::Propose, plan);
    opened_asked(t, &held);
    opened_reached(t, &held);
    opened_added(t, &held);
}

// The desk that holds the second list.
fn empty_desk() -> Desk {
    fresh_desk().crewed(9, 9, 9)
}

// Plans of it with no group and with two.
fn empty_refused(t: &mut Tally, d: &Desk) {
    refuses(t, d, b"P2\x00\x00\x00", Refusal::GroupsUnlisted);
    let two = b"P2\x02\x00\x00GR\x01\x00\x00\x00\x00\x00\x00\x00GR\xFE\xFF\xFF\xFF\xFF\xFF\xFF\xFF";
    refuses(t, d, two, Refusal::GroupsRise);
}

// Questions: all depots have W 0 and 576 crews, and reach 0 alone.
fn empty_asked(t: &mut Tally, d: &Desk) {
    let cases = [
        (Request::Depot(63), Ok(Answer::Depot(0, 576))),
        (
            Request::Difference(0, 63),
            Ok(Answer::Difference(0, 331776)),
        ),
        (
            Request::AtLeast(0),
            Ok(Answer::Reached(18446744073709551615)),
        ),
        (Request::AtLeast(1), Ok(Answer::Reached(0))),
        (Request::Share(0), Err(Refusal::NoSuchSite)),
    ];
    asked(t, d, &cases);
}

// A history without sites: the plan of one group is proposed, and written out; then a site is added.
fn empty_history(t: &mut Tally) {
    let list = empty_list();
    loads(t, &list, &empty_desk());
    let d = fresh_desk().after(Request::Load, &list);
    empty_refused(t, &d);
    let plan = b"P2\x01\x00\x00GR\xFF\xFF\xFF\xFF\xFF\xFF\xFF\xFF";
    let expected = empty_desk().planned(1, 18446744073709551615, 0, 0, 0);
    holds(t, &d, plan, &expected);
    let held = d.after(Request::Propose, plan);
    empty_asked(t, &held);
    let whole = b"P2\x01\x00\x00GR\xFF\xFF\xFF\xFF\xFF\xFF\xFF\xFF\xA5\xA5\xA5\xA5\xA5";
    t.count(held.writes(Request::Written, 15, whole));
    t.count(held.keeps_roll(Request::Add(0, 63, 5), 1));
}

// Row 0: the held groups are not the listed depots. The isolated depot is left out; a roll byte went from 0 to 1, of a depot above it and of the last; one went to 0.
fn corrupt_opened(t: &mut Tally) {
    let d = opened_desk();
    corrupt(t, &d.planned(1, 3, 0, 36, 0));
    let held = d.planned(2, 3, 4, 36, 0);
    corrupt(t, &held.opened(3, 1));
    corrupt(t, &held.opened(63, 1));
    corrupt(t, &held.opened(2, 0));
}

// The same of desks without sites: no groups and one crew, one group and no crew; and of a plan that was whole before the roll's byte changed.
fn corrupt_empty(t: &mut Tally) {
    let no = site(0, 0, 0);
    let none = fresh_desk().crewed(0, 0, 0);
    let d = none.planned(0, 0, 0, 0, 0);
    t.count(d.stays(Request::AtLeast(0), b"", Ok(Answer::Reached(0))));
    corrupt(t, &d.opened(5, 1));
    corrupt(t, &none.planned(1, 32, 0, 0, 0));
    let one = listed(Edition::Two, 1, site(0, 1, 12), no, no, 2).crewed(3, 1, 0);
    let held = one.planned(1, 3, 0, 36, 0);
    t.count(held.stays(Request::AtLeast(0), b"", Ok(Answer::Reached(3))));
    corrupt(t, &held.opened(2, 1));
}

// No corruption: only row 15 refuses the isolated depot joined to the group before, and only row 16 a group before.
fn opened_odd(t: &mut Tally) {
    let joined = [
        (Request::Depot(2), Ok(Answer::Depot(12, 6))),
        (Request::AtLeast(2), Ok(Answer::Reached(7))),
    ];
    asked(t, &opened_desk().planned(1, 7, 0, 54, 0), &joined);
    let before = [
        (Request::Depot(2), Ok(Answer::Depot(0, 2))),
        (Request::AtLeast(0), Ok(Answer::Reached(7))),
        (Request::AtLeast(1), Ok(Answer::Reached(0))),
    ];
    asked(t, &opened_desk().planned(2, 4, 3, 36, 0), &before);
}

// Without a roll no depot is isolated, whatever the bytes beside it: the plan {0,1} is whole, and one with depot 2 is not.
fn opened_without(t: &mut Tally) {
    let no = site(0, 0, 0);
    let one = listed(Edition::Two, 1, site(0, 1, 12), no, no, 2);
    let d = one.with_roll(roll_of(false, 1, 1, 1));
    let cases = [
        (Request::Depot(2), Err(Refusal::DepotUnlisted)),
        (Request::AtLeast(0), Ok(Answer::Reached(3))),
    ];
    asked(t, &d.planned(1, 3, 0, 12, 0), &cases);
    corrupt(t, &d.planned(2, 3, 4, 12, 0));
}

// The cases of an edition.
fn desks(t: &mut Tally, e: Edition) {
    corrupt_counts(t, e);
    corrupt_sites(t, e);
    corrupt_groups(t, e);
    corrupt_shares(t, e);
    corrupt_own(t, e);
    uneven(t, e);
    rising(t, e);
    rising_read(t, e);
    falling_read(t, e);
    beyond(t, e);
    beside(t, e);
}

fn tables(t: &mut Tally, e: Edition) {
    lent_none(t, e);
    lent(t, e, 1, 2, 3, 3);
    lent(t, e, 510, 511, 512, 512);
    lent(t, e, 510, 511, 512, 600);
}

fn large_figures(t: &mut Tally) {
    large(t);
    large_own(t);
    large_corrupt(t);
    large_stored(t);
}

fn rolls(t: &mut Tally) {
    corrupt_rolls(t);
    corrupt_crews(t);
    rolled(t);
    beside_no_roll(t);
}

fn isolated_depots(t: &mut Tally) {
    opened_history(t);
    empty_history(t);
    corrupt_opened(t);
    corrupt_empty(t);
    opened_odd(t);
    opened_without(t);
}

fn main(rt: HostRuntime) -> io::Result<()> {
    let mut t = Tally::default();
    desks(&mut t, Edition::One);
    desks(&mut t, Edition::Two);
    println!(rt; "corrupt desks: {t}")?;
    let mut t = Tally::default();
    tables(&mut t, Edition::One);
    tables(&mut t, Edition::Two);
    println!(rt; "lent tables: {t}")?;
    let mut t = Tally::default();
    other_edition(&mut t, Edition::One, Edition::Two);
    other_edition(&mut t, Edition::Two, Edition::One);
    println!(rt; "the other edition: {t}")?;
    let mut t = Tally::default();
    large_figures(&mut t);
    println!(rt; "large figures: {t}")?;
    let mut t = Tally::default();
    rolls(&mut t);
    println!(rt; "rolls: {t}")?;
    let mut t = Tally::default();
    isolated_depots(&mut t);
    println!(rt; "isolated depots: {t}")
}
