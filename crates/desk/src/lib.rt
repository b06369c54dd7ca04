// The static library of the store, for Rust and C: one function for each call, two for a fresh store, a change and an added site, and one for the step to edition 2, over lent bytes. A store of edition 1 is 2,584 bytes and a place of its table 4, of edition 2 4,704 and 6 (crate `layout`).
// Where the bytes of a store have another length, every function answers -257 and nothing is written; so do those for one edition where the store is of the other, and the step where the old store is none of edition 1 or the new one none of edition 2.
// Kept: functions that differ in an edition or a question stand one by one, since C calls each by its name.
#![tactic(auto)]

ghost use Rattle.std.specs.Prelude.{[]};
ghost use Rattle.records.specs.Format.{edition1, edition2};
ghost use Rattle.store.specs.declared.Request.TheVariants as request;
ghost use Rattle.codes.specs.Codes.{edition_in, Did, Figures, OneFigure, Differs, WroteOut, FreshCode, MigrateCode};

use codes::{edition_in, figures, wrote_out};
use density::Site;
use records::{edition1, edition2};
use store::Request;

// A fresh store of edition 1: 0.
#[unsafe(no_mangle)]
pub extern "C" fn sulgheti_fresh(store: &mut [u8]) -> i64
    ensures { FreshCode edition1 store.old result store.new }
{
    codes::fresh(edition1(), store)
}

// A fresh store of edition 2: 0.
#[unsafe(no_mangle)]
pub extern "C" fn sulgheti_fresh2(store: &mut [u8]) -> i64
    ensures { FreshCode edition2 store.old result store.new }
{
    codes::fresh(edition2(), store)
}

// Load: 0, or the row.
#[unsafe(no_mangle)]
pub extern "C" fn sulgheti_load(store: &mut [u8], table: &mut [u8], list: &[u8]) -> i64
    ensures { Did (edition_in store.old) store.old table.old (record { request = request.Load; input = list.now; buffer = [] }) result store.new table.new }
{
    let e = edition_in(store);
    codes::load(e, store, table, list)
}

// Change a site's litres, in a store of edition 1: 0, or the row.
#[unsafe(no_mangle)]
pub extern "C" fn sulgheti_change(
    store: &mut [u8],
    table: &mut [u8],
    site: usize,
    litres: u16,
) -> i64
    ensures { Did edition1 store.old table.old (record { request = request.Change site litres; input = []; buffer = [] }) result store.new table.new }
{
    codes::change(edition1(), store, table, site, litres as u32)
}

// Change a site's litres, in a store of edition 2: 0, or the row.
#[unsafe(no_mangle)]
pub extern "C" fn sulgheti_change2(
    store: &mut [u8],
    table: &mut [u8],
    site: usize,
    litres: u32,
) -> i64
    ensures { Did edition2 store.old table.old (record { request = request.Change site litres; input = []; buffer = [] }) result store.new table.new }
{
    codes::change(edition2(), store, table, site, litres)
}

// Add a site at the end, in a store of edition 1: 0, or the row.
#[unsafe(no_mangle)]
pub extern "C" fn sulgheti_add(
    store: &mut [u8],
    table: &mut [u8],
    first: u8,
    second: u8,
    litres: u16,
) -> i64
    ensures { Did edition1 store.old table.old (record { request = request.Add first second litres; input = []; buffer = [] }) result store.new table.new }
{
    let x = Site {
        first,
        second,
        litres: litres as u32,
    };
    codes::add(edition1(), store, table, x)
}

// Add a site at the end, in a store of edition 2: 0, or the row.
#[unsafe(no_mangle)]
pub extern "C" fn sulgheti_add2(
    store: &mut [u8],
    table: &mut [u8],
    first: u8,
    second: u8,
    litres: u32,
) -> i64
    ensures { Did edition2 store.old table.old (record { request = request.Add first second litres; input = []; buffer = [] }) result store.new table.new }
{
    let x = Site {
        first,
        second,
        litres,
    };
    codes::add(edition2(), store, table, x)
}

// Propose a plan: 0 where it passes, or the row. The table is only read.
#[unsafe(no_mangle)]
pub extern "C" fn sulgheti_propose(store: &mut [u8], table: &[u8], plan: &[u8]) -> i64
    ensures { Did (edition_in store.old) store.old table.now (record { request = request.Propose; input = plan.now; buffer = [] }) result store.new table.now }
{
    let e = edition_in(store);
    codes::propose(e, store, table, plan)
}

// A site's s and w × q: 0, or the row.
#[unsafe(no_mangle)]
pub extern "C" fn sulgheti_share(
    store: &[u8],
    table: &[u8],
    site: usize,
    share: &mut u64,
    whole: &mut u64,
) -> i64
    ensures { Figures (edition_in store.now) store.now table.now (record { request = request.Share site; input = []; buffer = [] }) result share.old whole.old share.new whole.new }
{
    let e = edition_in(store);
    figures(e, store, table, Request::Share(site), share, whole)
}

// A depot's W and q: 0, or the row.
#[unsafe(no_mangle)]
pub extern "C" fn sulgheti_depot(
    store: &[u8],
    table: &[u8],
    depot: u8,
    litres: &mut u64,
    size: &mut u64,
) -> i64
    ensures { Figures (edition_in store.now) store.now table.now (record { request = request.Depot depot; input = []; buffer = [] }) result litres.old size.old litres.new size.new }
{
    let e = edition_in(store);
    figures(e, store, table, Request::Depot(depot), litres, size)
}

// The difference of two depots and its divisor: 0, or the row.
#[unsafe(no_mangle)]
pub extern "C" fn sulgheti_difference(
    store: &[u8],
    table: &[u8],
    a: u8,
    b: u8,
    difference: &mut i64,
    divisor: &mut u64,
) -> i64
    ensures { Differs (edition_in store.now) store.now table.now (record { request = request.Difference a b; input = []; buffer = [] }) result difference.old divisor.old difference.new divisor.new }
{
    let e = edition_in(store);
    codes::difference(e, store, table, a, b, difference, divisor)
}

// The held plan written out: its length, or the row.
#[unsafe(no_mangle)]
pub extern "C" fn sulgheti_written(store: &[u8], table: &[u8], buffer: &mut [u8]) -> i64
    ensures { WroteOut (edition_in store.now) store.now table.now (record { request = request.Written; input = []; buffer = buffer.old }) result buffer.new }
{
    let e = edition_in(store);
    wrote_out(e, store, table, Request::Written, buffer)
}

// The depots whose W/q is at least so many litres, as a set: 0, or the row.
#[unsafe(no_mangle)]
pub extern "C" fn sulgheti_at_least(
    store: &[u8],
    table: &[u8],
    litres: u32,
    depots: &mut u64,
) -> i64
    ensures { OneFigure (edition_in store.now) store.now table.now (record { request = request.AtLeast litres; input = []; buffer = [] }) result depots.old depots.new }
{
    let mut none: u64 = 0;
    let e = edition_in(store);
    figures(e, store, table, Request::AtLeast(litres), depots, &mut none)
}

// The held list written out: its length, or the row.
#[unsafe(no_mangle)]
pub extern "C" fn sulgheti_list(store: &[u8], table: &[u8], buffer: &mut [u8]) -> i64
    ensures { WroteOut (edition_in store.now) store.now table.now (record { request = request.ListWritten; input = []; buffer = buffer.old }) result buffer.new }
{
    let e = edition_in(store);
    wrote_out(e, store, table, Request::ListWritten, buffer)
}

// The step of a store of edition 1 and its table, which are only read, to a store of edition 2 over a new table: 0, or the row.
#[unsafe(no_mangle)]
pub extern "C" fn sulgheti_migrate(
    store: &[u8],
    table: &[u8],
    store2: &mut [u8],
    table2: &mut [u8],
) -> i64
    ensures { MigrateCode store.now table.now store2.old table2.old result store2.new table2.new }
{
    codes::migrate(store, table, store2, table2)
}
