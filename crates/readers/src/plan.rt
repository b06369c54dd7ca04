// The reader of a plan.
ghost use Rattle.std.specs.Prelude.{◌≡◌, ◌≤◌, ◌+◌, ◌*◌, length};
ghost use Rattle.records.specs.Answer.{plan_read};
ghost use Rattle.records.specs.Refusals.{outcome};
ghost use Rattle.records.specs.Format.{read_plan};
ghost use Rattle.readers.specs.Head.{plan_head};

use records::{Edition, PlanArray, Refusal, scan};

// The group count of a plan's head, or the row of 7 to 10 that refuses.
fn head(e: Edition, sites: usize, s: &[u8]) -> Result<usize, Refusal>
    requires { (e.share ≤ 8) × (sites ≤ 512) }
    ensures { outcome result ≡ plan_head e sites s.now }
{
    let Some(found) = scan::step_at(s, 0, 3) else {
        return Err(Refusal::PlanHead);
    };
    if found.mark != e.mark.plan {
        return Err(Refusal::PlanHead);
    }
    let body = found.body;
    let count = (body % 256) as usize;
    if 64 < count {
        return Err(Refusal::TooManyGroups);
    }
    if body / 256 != sites as u64 {
        return Err(Refusal::OtherSiteCount);
    }
    let size = 2 + e.share;
    if s.len() != 5 + 10 * count + size * sites {
        return Err(Refusal::PlanLength);
    }
    Ok(count)
}

// Reads a plan for a list of `sites` sites: one reader goes through the groups behind the head and on through the shares.
pub fn read(e: Edition, sites: usize, s: &[u8]) -> Result<PlanArray, Refusal>
    requires { (e.share ≤ 8) × (sites ≤ 512) }
    ensures { outcome result ≡ plan_read (read_plan e sites s.now) }
{
    let count = head(e, sites, s)?;
    let mut groups = [0u64; 64];
    let mut shares = [0u64; 512];
    let end = crate::all_bodies::<4, 8>(
        s,
        5,
        e.mark.group,
        &mut groups[..count],
        e.share,
        e.mark.share,
        &mut shares[..sites],
    );
    if end.wrong {
        return Err(Refusal::PlanMark);
    }
    Ok(PlanArray {
        count,
        groups,
        shares,
    })
}
