// Make: a plan for a list, on values (`make_plan`) and on bytes (`make`).
#![tactic(auto)]

ghost use Rattle.std.specs.Prelude.{◌*◌, ◌≤◌, ◌^◌, T};
ghost use Rattle.density.specs.Network.{in_range};
ghost use Rattle.records.specs.Values.{listing};
ghost use Rattle.records.specs.Format.{edition_of, read_list};
ghost use Rattle.maker.specs.Planned.{Planned};
ghost use Rattle.maker.specs.Make.{Made};

use records::{Edition, ListArray, PlanArray, Refusal};

// The groups of the list, and level shares.
pub fn make_plan(list: ListArray) -> PlanArray
    requires { (list.count ≤ 512) × T (in_range (listing list)) }
    ensures { Planned list result }
{
    decompose::decompose(list)
}

// Make, by an edition whose shares have room for w × q, with q up to 576.
fn make_by(e: Edition, list: &[u8], out: &mut [u8]) -> Result<usize, Refusal>
    requires { (e.litres ≤ 4) × (e.share ≤ 8) × (256 ^ e.litres * 576 ≤ 256 ^ e.share) }
    ensures { Made e (read_list e 512 list.now) out.old result out.new }
{
    let sites = readers::list::read(e, 512, list)?;
    let plan = make_plan(sites);
    writers::plan(e, plan, sites.count, out)
}

// Make: writes a plan for a list of either edition, in the list's, at the front of `out`, and answers its length.
// Kept: a line over the function that takes the edition, as `judge::check` is.
pub fn make(list: &[u8], out: &mut [u8]) -> Result<usize, Refusal>
    ensures { Made (edition_of list.now) (read_list (edition_of list.now) 512 list.now) out.old result out.new }
{
    make_by(readers::edition::edition_of(list), list, out)
}
