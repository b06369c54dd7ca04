// What each call decides, on values: the rows of a change and of an added site, and the answers to calls that only read.
#![tactic(auto)]

ghost use Rattle.std.specs.Prelude.{◌≡◌, cond, not, ◌||◌, List, ℕ, ◌*◌, ◌≤◌, leb, length, get_or};
ghost use Rattle.std.specs.declared.result.Result.TheVariants.{Ok, Err};
ghost use Rattle.density.specs.Rows.{first_row};
ghost use Rattle.density.specs.Figures.{difference_of};
ghost use Rattle.records.specs.declared.ListArray.{ListArray};
ghost use Rattle.records.specs.declared.PlanArray.{PlanArray};
ghost use Rattle.records.specs.declared.refusal.Refusal.TheVariants.{NoSuchSite, DepotUnlisted};
ghost use Rattle.records.specs.Refusals.{refusal_of};
ghost use Rattle.records.specs.Values.{roll_in};
ghost use Rattle.tables.specs.Tables.{net, Kept};
ghost use Rattle.held_state.specs.Held.{State};
ghost use Rattle.held_state.specs.Values.{BadKnown, Stands, held_litres, held_size};
ghost use Rattle.store.specs.declared.Answer.TheVariants as answer;
ghost use Rattle.store.specs.declared.Request.TheVariants as request;
ghost use Rattle.store.specs.Calls.{Call, told};
ghost use Rattle.store.specs.Model.{Model, rows_of, migrate_rows};
ghost use Rattle.store.specs.State.{step};
ghost use Rattle.store.specs.Trace.{ReadsOnly};
ghost use Rattle.store.specs.Widths.{Fitting};
ghost use Rattle.store_calls.specs.Told.{wrote_told};

use density::Site;
use held_state::{Summary, at_least, difference_of, examine, figures_of};
use records::{Edition, ListArray, Refusal, RollArray, roll};
use store::{Answer, Request};
use tables::Form;

// The row that refuses a change of the litres of site i, at a store of so many sites.
pub fn change_row(count: usize, i: usize, w: u32) -> Result<(), Refusal>
    ensures { (b : Model) (c : Call) → length b.list.sites ≡ count → refusal_of result ≡ first_row (rows_of b c (request.Change i w)) }
{
    if w == 0 {
        return Err(Refusal::NoLitres);
    }
    if count <= i {
        return Err(Refusal::NoSuchSite);
    }
    Ok(())
}

// The row that refuses another site, at a store of so many sites with a table of so many places, whose list has this roll or none.
pub fn add_row(count: usize, places: usize, roll: RollArray, x: Site) -> Result<(), Refusal>
    ensures { (b : Model) (c : Call) → length b.list.sites ≡ count → b.places ≡ places → b.list.roll ≡ roll_in roll → refusal_of result ≡ first_row (rows_of b c (request.Add x.first x.second x.litres)) }
{
    if 512 <= count || places <= count {
        return Err(Refusal::TooManySites);
    }
    if 63 < x.first || 63 < x.second {
        return Err(Refusal::DepotAbove63);
    }
    if x.litres == 0 {
        return Err(Refusal::NoLitres);
    }
    if roll::is_uncrewed(roll, x) {
        return Err(Refusal::SiteUncrewed);
    }
    Ok(())
}

// The row that refuses the step to edition 2 of a store of so many sites, over a new table of so many places.
pub fn migrate_row(count: usize, places: usize) -> Result<(), Refusal>
    ensures { (b : Model) → length b.list.sites ≡ count → refusal_of result ≡ first_row (migrate_rows b places) }
{
    if places < count {
        return Err(Refusal::TooManySites);
    }
    Ok(())
}

// A depot's W and q.
fn depot_told(f: Form, d: u8) -> Result<Answer, Refusal>
    requires { (list : ListArray) × (plan : PlanArray) × (ws : List ℕ) × Kept list plan f ws }
    ensures { (list : ListArray) (plan : PlanArray) (ws : List ℕ) → Kept list plan f ws → result ≡ cond (not ((net list).listed d)) (Err DepotUnlisted) (Ok (answer.Depot (held_litres list plan d) (held_size list plan d))) }
{
    if !sets::contains(f.listed, d) {
        return Err(Refusal::DepotUnlisted);
    }
    let x = figures_of(f, d);
    Ok(Answer::Depot(x.litres, x.size))
}

// The difference of two depots, with its divisor.
fn difference_told(f: Form, a: u8, b: u8) -> Result<Answer, Refusal>
    requires { (list : ListArray) × (plan : PlanArray) × (ws : List ℕ) × Kept list plan f ws }
    ensures { (list : ListArray) (plan : PlanArray) (ws : List ℕ) → Kept list plan f ws → result ≡ cond (not ((net list).listed a) || not ((net list).listed b)) (Err DepotUnlisted) (Ok (answer.Difference (difference_of (held_litres list plan a) (held_size list plan a) (held_litres list plan b) (held_size list plan b)) (held_size list plan a * held_size list plan b))) }
{
    if !sets::contains(f.listed, a) {
        return Err(Refusal::DepotUnlisted);
    }
    if !sets::contains(f.listed, b) {
        return Err(Refusal::DepotUnlisted);
    }
    let x = difference_of(f, a, b);
    Ok(Answer::Difference(x.value, x.divisor))
}

// A site's s and w × q.
fn share_told(count: usize, shares: &[u64], wholes: &[u64], i: usize) -> Result<Answer, Refusal>
    requires { (count ≤ length shares.now) × (count ≤ length wholes.now) }
    ensures { result ≡ cond (leb count i) (Err NoSuchSite) (Ok (answer.Share (get_or shares.now i 0) (get_or wholes.now i 0))) }
{
    if count <= i {
        return Err(Refusal::NoSuchSite);
    }
    Ok(Answer::Share(shares[i], wholes[i]))
}

// What a writer answers.
fn wrote_told(w: Result<usize, Refusal>) -> Result<Answer, Refusal>
    ensures { result ≡ wrote_told w }
{
    Ok(Answer::Length(w?))
}

// The answer to a call that only reads: row 0 is tried once, and the tables that it leaves are what a question is answered from. The list is written out with a plan or without one; every
// other such call is a question, which row 17 concerns. The last arm is never taken.
pub fn answer(
    e: Edition,
    list: ListArray,
    known: Summary,
    groups: &[u64],
    shares: &[u64],
    request: Request,
    buffer: &mut [u8],
) -> Result<Answer, Refusal>
    requires { Fitting e × (length groups.now ≡ 64) × (length shares.now ≡ 512) × BadKnown list known × ReadsOnly request }
    ensures { (s : State) (input : List ℕ) → s.edition ≡ e → Stands s list known groups.now shares.now → record { answer = told result; buffer = buffer.new } ≡ (step s (record { request = request; input = input; buffer = buffer.old })).reply }
{
    let count = list.count;
    let mut wholes = [0u64; 512];
    let held = examine(list, known, groups, shares, &mut wholes)?;
    if let Request::ListWritten = request {
        return wrote_told(writers::list(e, list, buffer));
    }
    let Some(form) = held else {
        return Err(Refusal::NoPlanHeld);
    };
    match request {
        Request::Share(i) => share_told(count, shares, &wholes, i),
        Request::Depot(d) => depot_told(form, d),
        Request::Difference(a, b) => difference_told(form, a, b),
        Request::Written => wrote_told(writers::plan_of(
            e,
            &groups[..known.grouped],
            &shares[..count],
            buffer,
        )),
        Request::AtLeast(m) => Ok(Answer::Reached(at_least(form, &groups[..known.grouped], m))),
        _ => Err(Refusal::CorruptStore),
    }
}
