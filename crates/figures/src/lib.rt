// The figures of a list: the plan made for it, the place of each depot, and q and W of each group.
#![tactic(auto)]

ghost use Rattle.std.specs.Prelude.{◌≡◌, ◌≤◌, T};
ghost use Rattle.density.specs.Network.{in_range};
ghost use Rattle.records.specs.Values.{listing};
ghost use Rattle.figures.specs.Computed.{Computed, Of};

use records::{Edition, ListArray, PlanArray, Refusal};

// A list, the plan made for it, the place of each depot, and q and W of each group.
#[derive(Clone, Copy)]
pub struct Figures {
    pub list: ListArray,
    pub plan: PlanArray,
    pub places: [u8; 64],
    pub sizes: [u64; 64],
    pub litres: [u64; 64],
}

// The figures of a list.
fn of_list(list: ListArray) -> Figures
    requires { (list.count ≤ 512) × T (in_range (listing list)) }
    ensures { (result.list ≡ list) × Computed result }
{
    let plan = maker::make_plan(list);
    let groups = &plan.groups[..plan.count];
    let places = tables::places(groups);
    let sizes = tables::sizes(list.roll, groups);
    let litres = tables::litres(list, &places);
    Figures {
        list,
        plan,
        places,
        sizes,
        litres,
    }
}

// Reads a list of an edition, and computes its figures; or the row that refuses it.
pub fn read(e: Edition, input: &[u8]) -> Result<Figures, Refusal>
    requires { e.litres ≤ 4 }
    ensures { Of e input.now result }
{
    let list = readers::list::read(e, 512, input)?;
    Ok(of_list(list))
}
