// The writers of a list and of a plan.
#![tactic(auto)]

ghost use Rattle.std.specs.Prelude.{◌≡◌, ◌≤◌, ◌+◌, length, take};
ghost use Rattle.records.specs.declared.Edition.{Edition};
ghost use Rattle.records.specs.Values.{roll_in, listing, plan_in};
ghost use Rattle.records.specs.Write.{place, roll_bytes, list_bytes, plan_bytes, Written};
ghost use Rattle.records.specs.Files.{files, fitted_both, WrittenBoth};

use density::Site;
use records::{Edition, Lengths, ListArray, PlanArray, Refusal, RollArray};
use writers_numbers::{crews, number_at, records, sites};

// Writes a plan of some groups and shares at the front of `out`; the shares go into what remains of it behind the groups.
pub fn plan_of(e: Edition, groups: &[u64], shares: &[u64], out: &mut [u8]) -> Result<usize, Refusal>
    requires { (e.share ≤ 8) × (length groups.now ≤ 64) × (length shares.now ≤ 512) }
    ensures { Written (plan_bytes e (record { groups = groups.now; shares = shares.now })) out.old result out.new }
{
    let g = groups.len();
    let n = shares.len();
    let w = e.share;
    let at = 5 + 10 * g;
    let end = at + (2 + w) * n;
    if out.len() < end {
        return Err(Refusal::BufferShort);
    }
    number_at(out, 0, 2, e.mark.plan);
    number_at(out, 2, 1, g as u64);
    number_at(out, 3, 2, n as u64);
    records(&mut out[5..], e.mark.group, 8, groups);
    records(&mut out[at..], e.mark.share, w, shares);
    Ok(end)
}

// Writes a plan for `n` sites at the front of `out`.
pub fn plan(e: Edition, p: PlanArray, n: usize, out: &mut [u8]) -> Result<usize, Refusal>
    requires { (e.share ≤ 8) × (p.count ≤ 64) × (n ≤ 512) }
    ensures { Written (plan_bytes e (plan_in p n)) out.old result out.new }
{
    let groups = p.groups;
    let shares = p.shares;
    plan_of(e, &groups[..p.count], &shares[..n], out)
}

// Puts a roll's record at a place of `out`, where there is a roll.
fn roll(e: Edition, k: RollArray, out: &mut [u8], at: usize)
    requires { at + length (roll_bytes e (roll_in k)) ≤ length out.old }
    ensures { out.new ≡ place at (roll_bytes e (roll_in k)) out.old }
{
    if !k.there {
        return;
    }
    let by = k.crews;
    number_at(out, at, 2, e.mark.roll);
    crews(out, at + 2, by);
}

// The bytes of a roll's record, 0 where there is no roll.
fn roll_size(k: RollArray) -> usize
    ensures { ((e : Edition) → result ≡ length (roll_bytes e (roll_in k))) × (result ≤ 66) }
{
    if k.there {
        return 66;
    }
    0
}

// Writes a list of the first `n` sites, and its roll, at the front of `out`.
fn list_of(
    e: Edition,
    table: [Site; 512],
    n: usize,
    k: RollArray,
    out: &mut [u8],
) -> Result<usize, Refusal>
    requires { (e.litres ≤ 8) × (n ≤ 512) }
    ensures { Written (list_bytes e (record { sites = take n table; roll = roll_in k })) out.old result out.new }
{
    let w = e.litres;
    let size = 4 + w;
    let end = 4 + size * n;
    let total = end + roll_size(k);
    if out.len() < total {
        return Err(Refusal::BufferShort);
    }
    number_at(out, 0, 2, e.mark.list);
    number_at(out, 2, 2, n as u64);
    sites(e, table, n, &mut out[4..]);
    roll(e, k, out, end);
    Ok(total)
}

// Writes a list at the front of `out`.
pub fn list(e: Edition, l: ListArray, out: &mut [u8]) -> Result<usize, Refusal>
    requires { (e.litres ≤ 8) × (l.count ≤ 512) }
    ensures { Written (list_bytes e (listing l)) out.old result out.new }
{
    let table = l.sites;
    let k = l.roll;
    list_of(e, table, l.count, k, out)
}

// Writes a list at the front of `out` and a plan for it at the front of `other`; nothing where either is too short. The list's buffer is looked at first.
pub fn both(
    e: Edition,
    l: ListArray,
    p: PlanArray,
    out: &mut [u8],
    other: &mut [u8],
) -> Result<Lengths, Refusal>
    requires { (e.litres ≤ 8) × (e.share ≤ 8) × (l.count ≤ 512) × (p.count ≤ 64) }
    ensures { WrittenBoth (fitted_both (files e (listing l) (plan_in p l.count)) out.old other.old) out.old other.old result out.new other.new }
{
    let n = l.count;
    let k = l.roll;
    let first = 4 + (4 + e.litres) * n + roll_size(k);
    let second = 5 + 10 * p.count + (2 + e.share) * n;
    if out.len() < first {
        return Err(Refusal::BufferShort);
    }
    if other.len() < second {
        return Err(Refusal::BufferShort);
    }
    let _ = list(e, l, out);
    let _ = plan(e, p, n, other);
    Ok(Lengths {
        list: first,
        plan: second,
    })
}
