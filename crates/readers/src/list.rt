// The reader of a list.
ghost use Rattle.std.specs.Prelude.{◌≡◌, ◌&&◌, ℕ, ◌<◌, ◌≤◌, ◌+◌, ◌*◌, ◌^◌, eqb, length, drop, get_or};
ghost use Rattle.sets.specs.Sum.{any};
ghost use Rattle.density.specs.Network.{no_site, uncrewed};
ghost use Rattle.records.specs.Values.{roll_in};
ghost use Rattle.records.specs.Answer.{sites_read, roll_at, roll_read, list_read};
ghost use Rattle.records.specs.Refusals.{outcome};
ghost use Rattle.records.specs.Format.{site_size, site_count, list_size, read_list};
ghost use Rattle.readers.specs.Head.{list_head};
ghost use Rattle.readers.specs.Body.{site_body, site_bodies};

use crate::SiteBody;
use density::Site;
use records::{Edition, ListArray, Refusal, RollArray, RollRead, SitesRead, no_site, roll, scan};

// A site, from the number that its record's body is.
fn site_of(body: u64) -> SiteBody
    requires { body < 2 ^ 48 }
    ensures { result ≡ site_body body }
{
    let first = (body % 256) as u8;
    let second = (body / 256 % 256) as u8;
    let litres = (body / 65536) as u32;
    let site = Site {
        first,
        second,
        litres,
    };
    let depot = 63 < first || 63 < second;
    let none = litres == 0;
    SiteBody {
        site,
        depot,
        litres: none,
    }
}

// The sites that the bodies of their records say, beside whether a mark is wrong.
fn sites_of(bodies: &[u64], marks: bool) -> SitesRead
    requires { (length bodies.now ≤ 512) × ((i : ℕ) → i < length bodies.now → get_or bodies.now i 0 < 2 ^ 48) }
    ensures { result ≡ site_bodies bodies.now marks }
{
    let none = no_site();
    let mut sites = [none; 512];
    let mut depots = false;
    let mut litres = false;
    for (i, body) in bodies.iter().enumerate() {
        let r = site_of(*body);
        sites[i] = r.site;
        depots |= r.depot;
        litres |= r.litres;
    }
    SitesRead {
        sites,
        marks,
        depots,
        litres,
    }
}

// The records of `n` sites behind the head of `s`, each read once. A list has no groups.
pub fn sites(e: Edition, n: usize, s: &[u8]) -> SitesRead
    requires { (e.litres ≤ 4) × (n ≤ 512) × (4 + site_size e * n ≤ length s.now) }
    ensures { result ≡ sites_read e n s.now }
{
    let mut none = [0u64; 0];
    let mut bodies = [0u64; 512];
    let w = 2 + e.litres;
    let end = crate::all_bodies::<4, 6>(
        s,
        4,
        e.mark.group,
        &mut none,
        w,
        e.mark.site,
        &mut bodies[..n],
    );
    sites_of(&bodies[..n], end.wrong)
}

// Does a roll follow the `n` sites of a list? Its 66 bytes show in the length.
fn is_rolled(e: Edition, n: usize, len: usize) -> bool
    requires { (e.litres ≤ 4) × (n ≤ 512) }
    ensures { result ≡ (e.roll && eqb len (list_size e n + 66)) }
{
    let end = 4 + (4 + e.litres) * n + 66;
    e.roll && len == end
}

// The roll's record at a place of `s`, where its mark is m.
fn roll_at(m: u64, s: &[u8], at: usize) -> RollRead
    requires { length s.now ≡ at + 66 }
    ensures { result ≡ roll_at m (drop at s.now) }
{
    let r = scanner::record_at(s, at, 0, m, false);
    let crews = roll::bytes_at(s, r.next);
    let roll = RollArray { there: true, crews };
    RollRead {
        mark: r.wrong,
        roll,
    }
}

// The roll behind the `n` sites of a list, or none.
fn roll_of(e: Edition, n: usize, s: &[u8]) -> RollRead
    requires { (e.litres ≤ 4) × (n ≤ 512) × (site_count s.now ≡ n) }
    ensures { result ≡ roll_read e s.now }
{
    if is_rolled(e, n, s.len()) {
        return roll_at(e.mark.roll, s, 4 + (4 + e.litres) * n);
    }
    let roll = records::no_roll();
    RollRead { mark: false, roll }
}

// The site count of a list's head, or the row of 1 to 3 that refuses.
fn head(e: Edition, places: usize, s: &[u8]) -> Result<usize, Refusal>
    requires { e.litres ≤ 4 }
    ensures { outcome result ≡ list_head e places s.now }
{
    let Some(found) = scan::step_at(s, 0, 2) else {
        return Err(Refusal::ListHead);
    };
    if found.mark != e.mark.list {
        return Err(Refusal::ListHead);
    }
    let n = found.body as usize;
    if 512 < n || places < n {
        return Err(Refusal::TooManySites);
    }
    let size = 4 + e.litres;
    let rolled = is_rolled(e, n, s.len());
    if s.len() == 4 + size * n || rolled {
        return Ok(n);
    }
    Err(Refusal::ListLength)
}

// Row 23, of the first `n` sites read. Without a roll none is looked at, and none is copied.
fn is_any_uncrewed(roll: RollArray, r: SitesRead, n: usize) -> bool
    requires { n ≤ 512 }
    ensures { result ≡ any (λ i. uncrewed (roll_in roll) (get_or r.sites i no_site)) n }
{
    if !roll.there {
        return false;
    }
    let sites = r.sites;
    roll::any_uncrewed(roll, sites, n)
}

// Reads a list for which there are `places` places.
pub fn read(e: Edition, places: usize, s: &[u8]) -> Result<ListArray, Refusal>
    requires { e.litres ≤ 4 }
    ensures { outcome result ≡ list_read (read_list e places s.now) }
{
    let count = head(e, places, s)?;
    let r = sites(e, count, s);
    let k = roll_of(e, count, s);
    if r.marks || k.mark {
        return Err(Refusal::SiteMark);
    }
    if r.depots {
        return Err(Refusal::DepotAbove63);
    }
    if r.litres {
        return Err(Refusal::NoLitres);
    }
    let roll = k.roll;
    if roll::is_above(roll) {
        return Err(Refusal::CrewsAbove9);
    }
    if is_any_uncrewed(roll, r, count) {
        return Err(Refusal::SiteUncrewed);
    }
    let sites = r.sites;
    Ok(ListArray { count, sites, roll })
}
