// Rows 12 to 16: a plan, as a value, checked against a list.
#![tactic(auto)]

ghost use Rattle.std.specs.Prelude.{◌≡◌, length};
ghost use Rattle.sets.specs.Set.{set_of};
ghost use Rattle.density.specs.Rows.{first_row, plan_rows};
ghost use Rattle.records.specs.Refusals.{refusal_of};
ghost use Rattle.tables.specs.Tables.{net, groups_in, shares_in, Counted, Ready, Tables, lent_plan, Tallied, Formed};

use records::{ListArray, PlanArray, Refusal};
use tables::{Form, Tally};

// One pass over the sites: the listed depots, those with crews in the roll first, and W of each group; w × q of each site goes to `wholes`.
// At a share that breaks a rule, and at a site without a group (the groups are then not the listed depots, and row 13 refuses the plan), it stops adding up; from there on it only names depots.
fn add_up(
    list: ListArray,
    count: usize,
    sets: &[u64],
    shares: &[u64],
    places: &[u8],
    sizes: &[u64],
    wholes: &mut [u64],
) -> Tally
    requires { Counted list (lent_plan count sets.now shares.now) × Tables list (lent_plan count sets.now shares.now) places.now sizes.now × (length shares.now ≡ 512) × (length wholes.old ≡ 512) }
    ensures { (result.listed ≡ set_of (net list).listed 64) × (Ready list (lent_plan count sets.now shares.now) → Tallied list (lent_plan count sets.now shares.now) places.now result wholes.new) }
{
    let sites = &list.sites[..list.count];
    let mut set = tables::enrolled(list.roll);
    let mut litres = [0u64; 64];
    let mut end = sites.len();
    for (i, &s) in sites.iter().enumerate() {
        let a = places[s.first as usize];
        let b = places[s.second as usize];
        let k = tables::later(a, b) as usize;
        if count <= k {
            end = i;
            break;
        }
        let w = tables::litres_of(s);
        let all = w * sizes[k];
        if rows::is_broken(s, a, b, all, shares[i]) {
            end = i;
            break;
        }
        set = tables::name(set, s);
        litres[k] += w;
        wholes[i] = all;
    }
    for s in &sites[end..] {
        set = tables::name(set, *s);
    }
    Tally {
        listed: set,
        broken: end < sites.len(),
        litres,
    }
}

// Rows 12 to 14, and what the later rows are tried on; w × q of each site goes to `wholes`.
pub fn try_form(
    list: ListArray,
    count: usize,
    sets: &[u64],
    shares: &[u64],
    wholes: &mut [u64],
) -> Result<Form, Refusal>
    requires { Counted list (lent_plan count sets.now shares.now) × (length sets.now ≡ 64) × (length shares.now ≡ 512) × (length wholes.old ≡ 512) }
    ensures { Formed list (lent_plan count sets.now shares.now) result wholes.new }
{
    let groups = &sets[..count];
    let at = tables::places(groups);
    let q = tables::sizes(list.roll, groups);
    let t = add_up(list, count, sets, shares, &at, &q, wholes);
    rows::form_of(groups, t.listed, t.broken)?;
    // Kept: the check asks for a variable where an array of one struct is put into another.
    let litres = t.litres;
    Ok(Form {
        listed: t.listed,
        places: at,
        sizes: q,
        litres,
    })
}

// Rows 12 to 16. Row 15 compares straight from the running loads.
pub fn plan_row(list: ListArray, plan: PlanArray) -> Result<(), Refusal>
    requires { Counted list plan }
    ensures { refusal_of result ≡ first_row (plan_rows (net list) (groups_in list plan) (shares_in list plan)) }
{
    let sets = plan.groups;
    let shares = plan.shares;
    let mut wholes = [0u64; 512];
    let form = try_form(list, plan.count, &sets, &shares, &mut wholes)?;
    let at = form.places;
    let q = form.sizes;
    let w = form.litres;
    let loads = loads::loads([0u64; 64], list, &shares, &wholes);
    let roll = list.roll;
    let crews = tables::crews(roll);
    if rows::loads_uneven(form.listed, &at, &w, &crews, &loads) {
        return Err(Refusal::LoadUneven);
    }
    if rows::groups_rise(plan.count, &w, &q) {
        return Err(Refusal::GroupsRise);
    }
    Ok(())
}
