// The calls of the store, on values: what a call that is lent a table of site structs decides.
#![tactic(auto)]

ghost use Rattle.std.specs.Prelude.{◌≡◌, List, ℕ, ◌≤◌, length, take};
ghost use Rattle.density.specs.declared.Site.{Site};
ghost use Rattle.records.specs.declared.Edition.{Edition};
ghost use Rattle.records.specs.Bytes.{Bytes};
ghost use Rattle.held_state.specs.Held.{on, corrupt};
ghost use Rattle.held_state.specs.Values.{BadKnown};
ghost use Rattle.store.specs.declared.Request.TheVariants as request;
ghost use Rattle.store.specs.Trace.{ReadsOnly};
ghost use Rattle.store.specs.Widths.{Fitting};
ghost use Rattle.serve.specs.Serve.{Served};
ghost use Rattle.serve.specs.Stored.{one, stored_of};

use density::Site;
use held_state::{Store, Summary, is_any_bad, is_corrupt};
use records::{Edition, ListArray, Refusal};
use store::decide::{refuse, with_plan, without_plan};
use store::{Decision, Request};
use store_calls::{add_row, answer, change_row};
use table::capacity;

// Places of a table: from one up to another, which is not one of them.
// Kept: `Range` is not `Copy`, and what a call stores is a value as others are.
#[derive(Clone, Copy)]
pub struct Places {
    pub from: usize,
    pub to: usize,
}

// What a call goes by beside the sites and the plan.
fn summary(store: Store, sites: [Site; 512], places: usize) -> Summary
    ensures { (result.places ≡ places) × (result.held ≡ store.held) × (result.grouped ≡ store.grouped) × BadKnown (record { count = store.count; sites = sites; roll = store.roll }) result }
{
    Summary {
        places,
        held: store.held,
        grouped: store.grouped,
        bad: is_any_bad(sites, capacity(store.count)),
    }
}

// Row 0.
pub fn row_zero(store: Store, sites: [Site; 512], places: usize) -> bool
    ensures { (e : Edition) (table : List Site) → places ≡ length table → take places sites ≡ take 512 table → result ≡ corrupt (on e store table) }
{
    let list = ListArray {
        count: store.count,
        sites,
        roll: store.roll,
    };
    let known = summary(store, sites, places);
    is_corrupt(list, known, &store.groups, &store.shares)
}

// Reads a list, which becomes the one held.
fn load(e: Edition, store: Store, sites: [Site; 512], places: usize, input: &[u8]) -> Decision
    requires { e.litres ≤ 4 }
    ensures { (buffer : List ℕ) → Served e store sites places request.Load input.now buffer result buffer }
{
    match readers::list::read(e, places, input) {
        Ok(list) => without_plan(list.roll, list.sites, list.count),
        Err(row) => refuse(store, sites, row),
    }
}

// Changes the litres of site i.
fn change(store: Store, sites: [Site; 512], places: usize, i: usize, w: u32) -> Decision
    ensures { (e : Edition) (input buffer : List ℕ) → Served e store sites places (request.Change i w) input buffer result buffer }
{
    if row_zero(store, sites, places) {
        return refuse(store, sites, Refusal::CorruptStore);
    }
    if let Err(row) = change_row(store.count, i, w) {
        return refuse(store, sites, row);
    }
    let mut next = sites;
    next[i].litres = w;
    without_plan(store.roll, next, store.count)
}

// Adds a site at the end.
fn add(store: Store, sites: [Site; 512], places: usize, x: Site) -> Decision
    ensures { (e : Edition) (input buffer : List ℕ) → Served e store sites places (request.Add x.first x.second x.litres) input buffer result buffer }
{
    if row_zero(store, sites, places) {
        return refuse(store, sites, Refusal::CorruptStore);
    }
    if let Err(row) = add_row(store.count, places, store.roll, x) {
        return refuse(store, sites, row);
    }
    let mut next = sites;
    next[store.count] = x;
    without_plan(store.roll, next, store.count + 1)
}

// A plan that passes becomes the one held.
fn propose(e: Edition, store: Store, sites: [Site; 512], places: usize, input: &[u8]) -> Decision
    requires { e.share ≤ 8 }
    ensures { (buffer : List ℕ) → Served e store sites places request.Propose input.now buffer result buffer }
{
    if row_zero(store, sites, places) {
        return refuse(store, sites, Refusal::CorruptStore);
    }
    let list = ListArray {
        count: store.count,
        sites,
        roll: store.roll,
    };
    match judge::plan_for(e, list, input) {
        Ok(plan) => with_plan(store, plan, sites),
        Err(row) => refuse(store, sites, row),
    }
}

// A call that only reads: the store and the sites stay as they are.
fn ask(
    e: Edition,
    store: Store,
    sites: [Site; 512],
    places: usize,
    request: Request,
    buffer: &mut [u8],
) -> Decision
    requires { Fitting e × ReadsOnly request }
    ensures { (input : List ℕ) → Served e store sites places request input buffer.old result buffer.new }
{
    let list = ListArray {
        count: store.count,
        sites,
        roll: store.roll,
    };
    let known = summary(store, sites, places);
    let answer = answer(
        e,
        list,
        known,
        &store.groups,
        &store.shares,
        request,
        buffer,
    );
    Decision {
        answer,
        store,
        sites,
        n: 0,
    }
}

// Any call: the others only read.
pub fn serve(
    e: Edition,
    store: Store,
    sites: [Site; 512],
    places: usize,
    request: Request,
    input: &[u8],
    buffer: &mut [u8],
) -> Decision
    requires { Fitting e }
    ensures { Bytes input.now × Served e store sites places request input.now buffer.old result buffer.new }
{
    match request {
        Request::Load => load(e, store, sites, places, input),
        Request::Change(i, w) => change(store, sites, places, i, w),
        Request::Add(first, second, litres) => {
            add(
                store,
                sites,
                places,
                Site {
                    first,
                    second,
                    litres,
                },
            )
        }
        Request::Propose => propose(e, store, sites, places, input),
        _ => ask(e, store, sites, places, request, buffer),
    }
}

// The place i alone, if it is one of the first n; else none.
fn one(i: usize, n: usize) -> Places
    ensures { result ≡ one i n }
{
    if i < n {
        Places { from: i, to: i + 1 }
    } else {
        Places { from: 0, to: 0 }
    }
}

// Which of the first n places a call stores, at a store with so many sites: a load all of them, a change and an add one, the others none.
pub fn stored(request: Request, count: usize, n: usize) -> Places
    ensures { result ≡ stored_of request count n }
{
    match request {
        Request::Load => Places { from: 0, to: n },
        Request::Change(i, _) => one(i, n),
        Request::Add(_, _, _) => one(count, n),
        _ => Places { from: 0, to: 0 },
    }
}
