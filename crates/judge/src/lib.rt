// Check: a plan, as bytes, judged against a list.
#![tactic(auto)]

ghost use Rattle.std.specs.Prelude.{◌≡◌, ◌≤◌, T};
ghost use Rattle.density.specs.Network.{in_range};
ghost use Rattle.records.specs.Answer.{plan_read};
ghost use Rattle.records.specs.Format.{edition_of};
ghost use Rattle.records.specs.Values.{listing};
ghost use Rattle.records.specs.Refusals.{outcome, refusal_of};
ghost use Rattle.judge.specs.Check.{judged_for, check_row};

use records::{Edition, ListArray, PlanArray, Refusal};

// A plan for a list, by rows 7 to 16: the plan, or the row that refuses it.
pub fn plan_for(e: Edition, list: ListArray, plan: &[u8]) -> Result<PlanArray, Refusal>
    requires { (e.share ≤ 8) × (list.count ≤ 512) × T (in_range (listing list)) }
    ensures { outcome result ≡ plan_read (judged_for e (listing list) plan.now) }
{
    let laid = readers::plan::read(e, list.count, plan)?;
    verify::plan_row(list, laid)?;
    Ok(laid)
}

// Check, by an edition. The list's answer is taken apart, and a refusal is handed on before the plan is read.
pub fn check_by(e: Edition, list: &[u8], plan: &[u8]) -> Result<(), Refusal>
    requires { (e.litres ≤ 4) × (e.share ≤ 8) }
    ensures { refusal_of result ≡ check_row e list.now plan.now }
{
    let listed = readers::list::read(e, 512, list);
    let Ok(sites) = listed else {
        return Err(listed.unwrap_err());
    };
    plan_for(e, sites, plan)?;
    Ok(())
}

// Check: a list of either edition and a plan, which passes only in the list's. Where the list is refused, the plan is not read.
// Kept: a line over the function that takes the edition, as `maker::make` is, since README and theorems name both.
pub fn check(list: &[u8], plan: &[u8]) -> Result<(), Refusal>
    ensures { refusal_of result ≡ check_row (edition_of list.now) list.now plan.now }
{
    check_by(readers::edition::edition_of(list), list, plan)
}
