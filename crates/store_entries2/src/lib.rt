// The entries of edition 2 of document 02, c: a store call over a lent table, and over a table by value. Its store, sites and requests are those of the definition.
#![tactic(auto)]

ghost use Rattle.std.specs.Prelude.{◌≡◌, take, drop};
ghost use Rattle.records.specs.Format.{edition2};
ghost use Rattle.store.specs.State.{step};
ghost use Rattle.serve.specs.Serve.{Served};
ghost use Rattle.store_entries2.specs.Edition2.{view2, call_of2, Typed2, fresh2, turned2};

use density::Site;
use held_state::Store;
use records::{Refusal, edition2, no_roll};
use serve::{serve, stored};
use store::{Answer, Decision, Request};
use table::{NO_SITE, places_on};

// What a call of edition 2 gives back.
#[derive(Clone, Copy)]
pub struct Out2 {
    pub answer: Result<Answer, Refusal>,
    pub store: Store,
}

// What a call gives back to a program that owns its table.
#[derive(Clone, Copy)]
pub struct OutOn2 {
    pub answer: Result<Answer, Refusal>,
    pub store: Store,
    pub table: [Site; 600],
}

// "A fresh desk has no sites, no plan, and 512 places for shares, all zero." Nor has it a roll.
pub fn fresh2() -> Store
    ensures { result ≡ fresh2 }
{
    Store {
        count: 0,
        held: false,
        grouped: 0,
        groups: [0; 64],
        shares: [0; 512],
        roll: no_roll(),
    }
}

// What a call does, on values.
fn serve2(
    store: Store,
    sites: [Site; 512],
    places: usize,
    request: Request,
    input: &[u8],
    buffer: &mut [u8],
) -> Decision
    ensures { Typed2 request input.now × Served edition2 store sites places request input.now buffer.old result buffer.new }
{
    serve(edition2(), store, sites, places, request, input, buffer)
}

// Kept: `call2` and `call_on2` beside those of edition 1: their contracts speak of other stores and views, and theorems name all four.
// A call, over a lent table. Four calls and no branch.
pub fn call2(
    store: Store,
    table: &mut [Site],
    request: Request,
    input: &[u8],
    buffer: &mut [u8],
) -> Out2
    ensures { Typed2 request input.now × (turned2 result table.new buffer.new ≡ step (view2 store table.old) (call_of2 request input.now buffer.old)) }
{
    let sites = table::held(table, NO_SITE);
    let d = serve2(store, sites, table.len(), request, input, buffer);
    let places = stored(request, store.count, d.n);
    table::store(table, d.sites, places.from, places.to);
    Out2 {
        answer: d.answer,
        store: d.store,
    }
}

// A call for a program that owns its table: it lends the first so many places of the array, at most all 600, and those behind keep their content.
pub fn call_on2(
    store: Store,
    table: [Site; 600],
    places: usize,
    request: Request,
    input: &[u8],
    buffer: &mut [u8],
) -> OutOn2
    ensures { Typed2 request input.now × (turned2 (record { answer = result.answer; store = result.store }) (take places result.table) buffer.new ≡ step (view2 store (take places table)) (call_of2 request input.now buffer.old)) × (drop places result.table ≡ drop places table) }
{
    let mut t = table;
    let few = places_on(places);
    let out = call2(store, &mut t[..few], request, input, buffer);
    OutOn2 {
        answer: out.answer,
        store: out.store,
        table: t,
    }
}
