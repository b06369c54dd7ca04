// The entries of edition 1 of document 01: a desk call over a lent table, and over a table by value.
#![tactic(auto)]

ghost use Rattle.std.specs.Prelude.{◌≡◌, take, drop};
ghost use Rattle.store.specs.State.{step};
ghost use Rattle.edition1.specs.Edition1.{view1, request_of1, call_of1, Typed1, turned1};
ghost use Rattle.serve.specs.Stored.{stored_of};

use edition1::{Out1, Request1, Store1, serve1};
use records::Refusal;
use serve::{Places, stored};
use store::{Answer, Request};
use table::{NO_SITE1, Site1, places_on};

// What a call gives back to a program that owns its table.
#[derive(Clone, Copy)]
pub struct OutOn1 {
    pub answer: Result<Answer, Refusal>,
    pub store: Store1,
    pub table: [Site1; 600],
}

// A call for a program that owns its table: it lends the first so many places of the array, at most all 600, and those behind keep their content.
pub fn call_on1(
    store: Store1,
    table: [Site1; 600],
    places: usize,
    request: Request1,
    input: &[u8],
    buffer: &mut [u8],
) -> OutOn1
    ensures { Typed1 request input.now × (turned1 (record { answer = result.answer; store = result.store }) (take places result.table) buffer.new ≡ step (view1 store (take places table)) (call_of1 request input.now buffer.old)) × (drop places result.table ≡ drop places table) }
{
    let mut t = table;
    let few = places_on(places);
    let out = call1(store, &mut t[..few], request, input, buffer);
    OutOn1 {
        answer: out.answer,
        store: out.store,
        table: t,
    }
}

// Which of the first n places a call stores, at a store with so many sites.
fn stored1(request: Request1, count: usize, n: usize) -> Places
    ensures { result ≡ stored_of (request_of1 request) count n }
{
    stored(Request::from(request), count, n)
}

// A call, over a lent table. Four calls and no branch.
pub fn call1(
    store: Store1,
    table: &mut [Site1],
    request: Request1,
    input: &[u8],
    buffer: &mut [u8],
) -> Out1
    ensures { Typed1 request input.now × (turned1 result table.new buffer.new ≡ step (view1 store table.old) (call_of1 request input.now buffer.old)) }
{
    let sites = table::held(table, NO_SITE1);
    let d = serve1(store, sites, table.len(), request, input, buffer);
    let places = stored1(request, store.count, d.n);
    table::store(table, d.sites, places.from, places.to);
    Out1 {
        answer: d.answer,
        store: d.store,
    }
}
