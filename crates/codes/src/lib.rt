// A store call over lent bytes of either edition, and its answer as the numbers that a C function gives back.
#![tactic(auto)]

ghost use Rattle.std.specs.Prelude.{◌≡◌, [], ℕ, ◌<◌, ◌^◌};
ghost use Rattle.store.specs.Calls.{told, wrote};
ghost use Rattle.store.specs.declared.Request.TheVariants as request;
ghost use Rattle.store.specs.Trace.{ReadsOnly};
ghost use Rattle.store.specs.Widths.{Fitting};
ghost use Rattle.lent.specs.Lent.{is_of};
ghost use Rattle.codes.specs.Codes.{edition_in, row_code, length_code, told_by, outcome_of, Did, Figures, Differs, WroteOut, FreshCode, MigrateCode};

use density::Site;
use records::{Edition, Refusal, edition1, edition2};
use signed::{length, refused};
use store::{Answer, Request};

// A store's answer as numbers: its code, two figures and a difference.
#[derive(Clone, Copy)]
pub struct Coded {
    pub code: i64,
    pub first: u64,
    pub second: u64,
    pub difference: i64,
}

// What stands for row 0, whose number would be success.
const ROW_0: i64 = -256;

// What is answered where the bytes are no store of the edition.
const NO_STORE: i64 = -257;

// A row's number with a minus sign; row 0 is -256.
fn row(n: u8) -> i64
    ensures { result ≡ row_code n }
{
    if n == 0 {
        return ROW_0;
    }
    refused(n)
}

// An answer, with the number of the row where it is refused.
fn numbered(answer: Result<Answer, Refusal>) -> Result<Answer, u8>
    ensures { told_by result ≡ told answer }
{
    answer.map_err(Refusal::number)
}

// An answer as a code and figures; figures that it does not have stay as they were. A refusal is a number, of a row or not.
pub fn outcome(answer: Result<Answer, u8>, first: u64, second: u64, difference: i64) -> Coded
    ensures { result ≡ outcome_of (told_by answer) first second difference }
{
    let kept = Coded {
        code: 0,
        first,
        second,
        difference,
    };
    match answer {
        Err(n) => Coded {
            code: row(n),
            ..kept
        },
        Ok(Answer::Done | Answer::Length(_)) => kept,
        Ok(Answer::Share(s, w)) => Coded {
            first: s,
            second: w,
            ..kept
        },
        Ok(Answer::Depot(w, q)) => Coded {
            first: w,
            second: q,
            ..kept
        },
        Ok(Answer::Difference(d, q)) => Coded {
            second: q,
            difference: d,
            ..kept
        },
        Ok(Answer::Reached(x)) => Coded { first: x, ..kept },
    }
}

// The length written, or the row.
fn written(answer: Result<Answer, Refusal>) -> i64
    requires { (n : ℕ) → told answer ≡ wrote n → n < 2 ^ 63 }
    ensures { result ≡ length_code (told answer) }
{
    match answer {
        Err(refusal) => row(refusal.number()),
        Ok(Answer::Length(n)) => length(n),
        Ok(
            Answer::Done
            | Answer::Share(_, _)
            | Answer::Depot(_, _)
            | Answer::Difference(_, _)
            | Answer::Reached(_),
        ) => 0,
    }
}

// The edition of a store, told by the length of its bytes.
pub fn edition_in(store: &[u8]) -> Edition
    ensures { (result ≡ edition_in store.now) × Fitting result }
{
    if store.len() == 4704 {
        return edition2();
    }
    edition1()
}

// Have the bytes the length of a store of the edition?
fn is_store(e: Edition, store: &[u8]) -> bool
    requires { Fitting e }
    ensures { result ≡ is_of e store.now }
{
    let front = 536 + e.share * 512;
    if e.roll {
        return store.len() == front + 72;
    }
    store.len() == front
}

// Each function below answers -257 where the bytes are no store of the edition.

// Kept: one for each call, since each has the contract of its call.

// A fresh store: 0.
pub fn fresh(e: Edition, store: &mut [u8]) -> i64
    requires { Fitting e }
    ensures { FreshCode e store.old result store.new }
{
    if !is_store(e, store) {
        return NO_STORE;
    }
    lent::fresh(e, store);
    0
}

// Load: 0, or the row.
pub fn load(e: Edition, store: &mut [u8], table: &mut [u8], list: &[u8]) -> i64
    requires { Fitting e }
    ensures { Did e store.old table.old (record { request = request.Load; input = list.now; buffer = [] }) result store.new table.new }
{
    if !is_store(e, store) {
        return NO_STORE;
    }
    outcome(numbered(lent::load(e, store, table, list)), 0, 0, 0).code
}

// Change a site's litres: 0, or the row.
pub fn change(e: Edition, store: &mut [u8], table: &mut [u8], site: usize, litres: u32) -> i64
    requires { Fitting e × (litres < 256 ^ e.litres) }
    ensures { Did e store.old table.old (record { request = request.Change site litres; input = []; buffer = [] }) result store.new table.new }
{
    if !is_store(e, store) {
        return NO_STORE;
    }
    let a = numbered(lent::change(e, store, table, site, litres));
    outcome(a, 0, 0, 0).code
}

// Add a site at the end: 0, or the row.
pub fn add(e: Edition, store: &mut [u8], table: &mut [u8], x: Site) -> i64
    requires { Fitting e × (x.litres < 256 ^ e.litres) }
    ensures { Did e store.old table.old (record { request = request.Add x.first x.second x.litres; input = []; buffer = [] }) result store.new table.new }
{
    if !is_store(e, store) {
        return NO_STORE;
    }
    outcome(numbered(lent::add(e, store, table, x)), 0, 0, 0).code
}

// Propose a plan: 0 where it passes, or the row. The table is only read.
pub fn propose(e: Edition, store: &mut [u8], table: &[u8], plan: &[u8]) -> i64
    requires { Fitting e }
    ensures { Did e store.old table.now (record { request = request.Propose; input = plan.now; buffer = [] }) result store.new table.now }
{
    if !is_store(e, store) {
        return NO_STORE;
    }
    outcome(numbered(lent::propose(e, store, table, plan)), 0, 0, 0).code
}

// A call that only reads, for two figures: 0 and they are written, or the row.
pub fn figures(
    e: Edition,
    store: &[u8],
    table: &[u8],
    request: Request,
    first: &mut u64,
    second: &mut u64,
) -> i64
    requires { Fitting e × ReadsOnly request }
    ensures { Figures e store.now table.now (record { request = request; input = []; buffer = [] }) result first.old second.old first.new second.new }
{
    if !is_store(e, store) {
        return NO_STORE;
    }
    let mut none = [0u8; 0];
    let a = lent::look(e, store, table, request, &mut none);
    let o = outcome(numbered(a), *first, *second, 0);
    *first = o.first;
    *second = o.second;
    o.code
}

// The difference of two depots and its divisor: 0 and they are written, or the row.
pub fn difference(
    e: Edition,
    store: &[u8],
    table: &[u8],
    a: u8,
    b: u8,
    difference: &mut i64,
    divisor: &mut u64,
) -> i64
    requires { Fitting e }
    ensures { Differs e store.now table.now (record { request = request.Difference a b; input = []; buffer = [] }) result difference.old divisor.old difference.new divisor.new }
{
    if !is_store(e, store) {
        return NO_STORE;
    }
    let mut none = [0u8; 0];
    let answer = lent::look(e, store, table, Request::Difference(a, b), &mut none);
    let o = outcome(numbered(answer), 0, *divisor, *difference);
    *difference = o.difference;
    *divisor = o.second;
    o.code
}

// A call that only reads, for what it writes out: the length, or the row.
pub fn wrote_out(e: Edition, store: &[u8], table: &[u8], request: Request, buffer: &mut [u8]) -> i64
    requires { Fitting e × ReadsOnly request }
    ensures { WroteOut e store.now table.now (record { request = request; input = []; buffer = buffer.old }) result buffer.new }
{
    if !is_store(e, store) {
        return NO_STORE;
    }
    written(lent::look(e, store, table, request, buffer))
}

// The step to edition 2: 0, or the row; -257 where the old store is none of edition 1 or the new one none of edition 2. The old store and its table are only read.
pub fn migrate(store: &[u8], table: &[u8], store2: &mut [u8], table2: &mut [u8]) -> i64
    ensures { MigrateCode store.now table.now store2.old table2.old result store2.new table2.new }
{
    if !is_store(edition1(), store) {
        return NO_STORE;
    }
    if !is_store(edition2(), store2) {
        return NO_STORE;
    }
    let a = store_migrate_bytes::migrate(store, table, store2, table2);
    outcome(numbered(a), 0, 0, 0).code
}
