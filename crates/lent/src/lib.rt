// The store's calls over bytes that the caller lends, at an edition's widths. The bytes have the length of a store of the edition (`is_of`); what the caller gives is tested before.
// Kept: the edition, the store and the table go one by one and not as a struct, which would hold the store to be written in calls that only read.
#![tactic(auto)]

ghost use Rattle.std.specs.Prelude.{◌≡◌, true, List, ℕ, ◌<◌, ◌≤◌, ◌^◌, take, is_err, IfOk, IfErr};
ghost use Rattle.records.specs.Bytes.{Bytes};
ghost use Rattle.records.specs.declared.ListArray.{ListArray};
ghost use Rattle.records.specs.declared.refusal.Refusal.TheVariants.{CorruptStore};
ghost use Rattle.held_state.specs.Held.{corrupt};
ghost use Rattle.held_state.specs.Values.{BadKnown};
ghost use Rattle.store.specs.declared.Request.TheVariants as request;
ghost use Rattle.store.specs.Calls.{told};
ghost use Rattle.store.specs.State.{bare};
ghost use Rattle.store.specs.Trace.{ReadsOnly};
ghost use Rattle.store.specs.Widths.{Named, Fitting};
ghost use Rattle.layout.specs.Layout.{places_in, store_in, sites_in};
ghost use Rattle.layout_put.specs.Put.{PutStore};
ghost use Rattle.lent.specs.Lent.{state_in, is_of, Freshened, Called};

use density::Site;
use held_state::{Summary, is_corrupt};
use layout::{Header, is_any_bad, list_in, site_in, store_in};
use layout_put::{put_bare, put_plan, put_roll, put_site, put_sites};
use records::{Edition, Refusal, RollArray, no_roll};
use store::{Answer, Request};
use store_calls::{add_row, answer, change_row};

// Writes a store of n sites and of a roll or none that holds no plan.
fn put_new(e: Edition, store: &mut [u8], n: usize, roll: RollArray)
    requires { is_of e store.old ≡ true }
    ensures { PutStore e.share e.roll (bare n roll) store.new }
{
    put_bare(store, e.share, n);
    if !e.roll {
        return;
    }
    put_roll(store, e.share, roll);
}

// A fresh store over its bytes.
pub fn fresh(e: Edition, store: &mut [u8])
    requires { is_of e store.old ≡ true }
    ensures { Freshened e store.new }
{
    put_new(e, store, 0, no_roll());
}

// What a call goes by beside the sites and the plan.
pub fn summary(e: Edition, h: Header, table: &[u8]) -> Summary
    requires { e.litres ≤ 4 }
    ensures { (result.places ≡ places_in e.litres table.now) × (result.held ≡ h.held) × (result.grouped ≡ h.grouped) × ((list : ListArray) → list.count ≡ h.count → (h.count ≤ 512 → h.count ≤ places_in e.litres table.now → take h.count list.sites ≡ take h.count (sites_in e.litres table.now)) → BadKnown list result) }
{
    Summary {
        places: table.len() / (2 + e.litres),
        held: h.held,
        grouped: h.grouped,
        bad: is_any_bad(table, e.litres, h.count),
    }
}

// What a change and an added site go by, of a store and its table that row 0 lets through.
#[derive(Clone, Copy)]
struct Held {
    count: usize,
    roll: RollArray,
    places: usize,
}

// Row 0, of the bytes.
// Kept: the lines that read the store and the list stand in each call that needs them: one function for them would give back 9 KB by value, once more on a bounded stack.
fn row_zero(e: Edition, store: &[u8], table: &[u8]) -> Result<Held, Refusal>
    requires { Fitting e × (is_of e store.now ≡ true) }
    ensures zero { is_err result ≡ corrupt (state_in e store.now table.now) }
    ensures row { IfErr result (λ x. x ≡ CorruptStore) }
    ensures kept { IfOk result (λ r. (r.count ≡ (store_in e.share e.roll store.now).count) × (r.roll ≡ (store_in e.share e.roll store.now).roll) × (r.places ≡ places_in e.litres table.now)) }
{
    let mut groups = [0u64; 64];
    let mut shares = [0u64; 512];
    let h = store_in(store, e.share, e.roll, &mut groups, &mut shares);
    let list = list_in(table, e.litres, h.count, h.roll);
    let known = summary(e, h, table);
    if is_corrupt(list, known, &groups, &shares) {
        Err(Refusal::CorruptStore)
    } else {
        Ok(Held {
            count: h.count,
            roll: h.roll,
            places: known.places,
        })
    }
}

// A list becomes the one held. Nothing of the store is read: a load does not try row 0.
pub fn load(e: Edition, store: &mut [u8], table: &mut [u8], input: &[u8]) -> Result<Answer, Refusal>
    requires { Fitting e × (is_of e store.old ≡ true) }
    ensures { (buffer : List ℕ) → Called e store.old table.old (record { request = request.Load; input = input.now; buffer = buffer }) (told result) store.new table.new buffer }
{
    let list = readers::list::read(e, table.len() / (2 + e.litres), input)?;
    put_sites(table, e.litres, list.sites, list.count);
    put_new(e, store, list.count, list.roll);
    Ok(Answer::Done)
}

// Changes the litres of site i.
pub fn change(
    e: Edition,
    store: &mut [u8],
    table: &mut [u8],
    i: usize,
    w: u32,
) -> Result<Answer, Refusal>
    requires { Fitting e × (is_of e store.old ≡ true) × (w < 256 ^ e.litres) }
    ensures { (input buffer : List ℕ) → Bytes input → Called e store.old table.old (record { request = request.Change i w; input = input; buffer = buffer }) (told result) store.new table.new buffer }
{
    let held = row_zero(e, store, table)?;
    change_row(held.count, i, w)?;
    let at = (2 + e.litres) * i;
    let x = site_in(table, at, e.litres);
    put_site(table, at, e.litres, Site { litres: w, ..x });
    put_bare(store, e.share, held.count);
    Ok(Answer::Done)
}

// Adds a site at the end.
pub fn add(e: Edition, store: &mut [u8], table: &mut [u8], x: Site) -> Result<Answer, Refusal>
    requires { Fitting e × (is_of e store.old ≡ true) × (x.litres < 256 ^ e.litres) }
    ensures { (input buffer : List ℕ) → Bytes input → Called e store.old table.old (record { request = request.Add x.first x.second x.litres; input = input; buffer = buffer }) (told result) store.new table.new buffer }
{
    let held = row_zero(e, store, table)?;
    add_row(held.count, held.places, held.roll, x)?;
    put_site(table, (2 + e.litres) * held.count, e.litres, x);
    put_bare(store, e.share, held.count + 1);
    Ok(Answer::Done)
}

// A plan that passes becomes the one held. The table is only read.
pub fn propose(e: Edition, store: &mut [u8], table: &[u8], input: &[u8]) -> Result<Answer, Refusal>
    requires { Fitting e × (is_of e store.old ≡ true) }
    ensures { (buffer : List ℕ) → Called e store.old table.now (record { request = request.Propose; input = input.now; buffer = buffer }) (told result) store.new table.now buffer }
{
    let mut groups = [0u64; 64];
    let mut shares = [0u64; 512];
    let h = store_in(store, e.share, e.roll, &mut groups, &mut shares);
    let list = list_in(table, e.litres, h.count, h.roll);
    let known = summary(e, h, table);
    if is_corrupt(list, known, &groups, &shares) {
        return Err(Refusal::CorruptStore);
    }
    let plan = judge::plan_for(e, list, input)?;
    put_plan(
        store,
        e.share,
        h.count,
        plan.count,
        &plan.groups,
        &plan.shares,
    );
    Ok(Answer::Done)
}

// A question, or the list written out: store and table are only read.
pub fn look(
    e: Edition,
    store: &[u8],
    table: &[u8],
    request: Request,
    buffer: &mut [u8],
) -> Result<Answer, Refusal>
    requires { Fitting e × (is_of e store.now ≡ true) × ReadsOnly request }
    ensures { (input : List ℕ) → Bytes input → Called e store.now table.now (record { request = request; input = input; buffer = buffer.old }) (told result) store.now table.now buffer.new }
{
    let mut groups = [0u64; 64];
    let mut shares = [0u64; 512];
    let h = store_in(store, e.share, e.roll, &mut groups, &mut shares);
    let list = list_in(table, e.litres, h.count, h.roll);
    let known = summary(e, h, table);
    answer(e, list, known, &groups, &shares, request, buffer)
}

// Any call: the others only read.
pub fn call(
    e: Edition,
    store: &mut [u8],
    table: &mut [u8],
    request: Request,
    input: &[u8],
    buffer: &mut [u8],
) -> Result<Answer, Refusal>
    requires { Fitting e × (is_of e store.old ≡ true) × Named (256 ^ e.litres) request }
    ensures { Called e store.old table.old (record { request = request; input = input.now; buffer = buffer.old }) (told result) store.new table.new buffer.new }
{
    match request {
        Request::Load => load(e, store, table, input),
        Request::Change(i, w) => change(e, store, table, i, w),
        Request::Add(first, second, litres) => {
            let x = Site {
                first,
                second,
                litres,
            };
            add(e, store, table, x)
        }
        Request::Propose => propose(e, store, table, input),
        _ => look(e, store, table, request, buffer),
    }
}
