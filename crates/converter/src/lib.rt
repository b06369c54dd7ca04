// Lists and plans between editions: up from edition 1 to edition 2, and back where every figure fits.
#![tactic(auto)]

ghost use Rattle.std.specs.Prelude.{◌≡◌, ◌≤◌};
ghost use Rattle.records.specs.Values.{listing};
ghost use Rattle.records.specs.Answer.{list_read};
ghost use Rattle.records.specs.Refusals.{outcome};
ghost use Rattle.records.specs.Write.{WrittenOf};
ghost use Rattle.records.specs.Files.{WrittenBoth};
ghost use Rattle.converter.specs.Convert.{is_outside, outside, unfit, upgrade, downgrade, list_for, convert_list, convert_plan};

use density::Site;
use records::{Edition, Lengths, ListArray, Refusal, edition1, edition2};

// A way: the edition of what is given, the edition of what is written, and whether it goes back.
// Kept: the definitions `upgrade` and `downgrade` and the theorems on ways name the field `back`.
#[derive(Clone, Copy)]
pub struct Way {
    pub from: Edition,
    pub to: Edition,
    pub back: bool,
}

// Up.
fn upgrade() -> Way
    ensures { result ≡ upgrade }
{
    Way {
        from: edition1(),
        to: edition2(),
        back: false,
    }
}

// Back.
fn downgrade() -> Way
    ensures { result ≡ downgrade }
{
    Way {
        from: edition2(),
        to: edition1(),
        back: true,
    }
}

// Are a site's litres outside 1 to 65,535?
fn is_outside(x: Site) -> bool
    ensures { result ≡ is_outside x }
{
    x.litres == 0 || 65535 < x.litres
}

// Are those of any site of the list?
fn any_outside(list: ListArray) -> bool
    requires { list.count ≤ 512 }
    ensures { result ≡ outside (listing list) }
{
    for x in &list.sites[..list.count] {
        if is_outside(*x) {
            return true;
        }
    }
    false
}

// Row 21: has the list a site that edition 1 does not have, or a roll?
fn is_unfit(list: ListArray) -> bool
    requires { list.count ≤ 512 }
    ensures { result ≡ unfit (listing list) }
{
    any_outside(list) || list.roll.there
}

// The list that a way takes, or the row that refuses it: the rows of a list, and going back row 21.
fn list_for(w: Way, list: &[u8]) -> Result<ListArray, Refusal>
    requires { w.from.litres ≤ 4 }
    ensures { outcome result ≡ list_read (list_for w list.now) }
{
    let sites = readers::list::read(w.from, 512, list)?;
    if w.back && is_unfit(sites) {
        return Err(Refusal::NotInEdition1);
    }
    Ok(sites)
}

// A list, one way.
fn list_by(w: Way, list: &[u8], out: &mut [u8]) -> Result<usize, Refusal>
    requires { (w.from.litres ≤ 4) × (w.to.litres ≤ 8) }
    ensures { WrittenOf (convert_list w list.now out.old) out.old result out.new }
{
    let sites = list_for(w, list)?;
    writers::list(w.to, sites, out)
}

// A list and its plan, one way.
fn plan_by(
    w: Way,
    list: &[u8],
    plan: &[u8],
    out: &mut [u8],
    other: &mut [u8],
) -> Result<Lengths, Refusal>
    requires { (w.from.litres ≤ 4) × (w.from.share ≤ 8) × (w.to.litres ≤ 8) × (w.to.share ≤ 8) }
    ensures { WrittenBoth (convert_plan w list.now plan.now out.old other.old) out.old other.old result out.new other.new }
{
    let sites = list_for(w, list)?;
    let judged = judge::plan_for(w.from, sites, plan)?;
    writers::both(w.to, sites, judged, out, other)
}

// Kept: a public function for each way, here and below, a line over the one for both, since README and theorems name them.
// A list of edition 1, written in edition 2 at the front of `out`.
pub fn upgrade_list(list: &[u8], out: &mut [u8]) -> Result<usize, Refusal>
    ensures { WrittenOf (convert_list upgrade list.now out.old) out.old result out.new }
{
    list_by(upgrade(), list, out)
}

// A list of edition 2, written in edition 1 where its litres fit.
pub fn downgrade_list(list: &[u8], out: &mut [u8]) -> Result<usize, Refusal>
    ensures { WrittenOf (convert_list downgrade list.now out.old) out.old result out.new }
{
    list_by(downgrade(), list, out)
}

// A list and its plan, of edition 1, written in edition 2: the list at the front of `out`, the plan at the front of `other`.
pub fn upgrade_plan(
    list: &[u8],
    plan: &[u8],
    out: &mut [u8],
    other: &mut [u8],
) -> Result<Lengths, Refusal>
    ensures { WrittenBoth (convert_plan upgrade list.now plan.now out.old other.old) out.old other.old result out.new other.new }
{
    plan_by(upgrade(), list, plan, out, other)
}

// A list and its plan, of edition 2, written in edition 1 where the list's litres fit.
pub fn downgrade_plan(
    list: &[u8],
    plan: &[u8],
    out: &mut [u8],
    other: &mut [u8],
) -> Result<Lengths, Refusal>
    ensures { WrittenBoth (convert_plan downgrade list.now plan.now out.old other.old) out.old other.old result out.new other.new }
{
    plan_by(downgrade(), list, plan, out, other)
}
