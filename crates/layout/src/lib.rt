// The store and the table laid in bytes, by the width of a share and of a site's litres and by whether the edition has rolls: what bytes stand for.
// Numbers and places are read one after another by loops over a width; the widths of both editions are given to them as constants.
#![tactic(auto)]

ghost use Rattle.std.specs.Prelude.{◌≡◌, false, cond, ◌<◌, ◌≤◌, ◌+◌, ◌*◌, ◌-◌, ◌/◌, ◌^◌, length, take, drop, get_or};
ghost use Rattle.sets.specs.Sum.{any};
ghost use Rattle.density.specs.Network.{no_site};
ghost use Rattle.held_state.specs.Held.{bad_site};
ghost use Rattle.layout.specs.Layout.{store_size, no_header, roll_behind, roll_wrong, place_size, places_in, numbers, place_in, sites_in, site_of_number, StoreRead};

use density::Site;
use held_state::is_bad;
use records::number::field;
use records::roll::bytes_at;
use records::{ListArray, RollArray, no_roll, no_site};
use table::capacity;

// The first words of a store: how many sites it has, whether a plan is held, and of how many groups; and its roll or none.
// Kept: a flag and a count side by side, as in `held_state::Store`.
#[derive(Clone, Copy)]
pub struct Header {
    pub count: usize,
    pub held: bool,
    pub grouped: usize,
    pub roll: RollArray,
}

// Reads numbers of `w` bytes from a place of `s` on, one for each place of `out`.
fn numbers_by(out: &mut [u64], s: &[u8], from: usize, w: usize)
    requires { (w ≤ 8) × (from + w * length out.old ≤ length s.now) }
    ensures { out.new ≡ numbers w (length out.old) from s.now }
{
    let mut at = from;
    for x in out.iter_mut() {
        *x = field(s, at, w);
        at += w;
    }
}

// The same; the widths of the editions' shares are constants of its calls.
// Kept: the width is a parameter, here and of places below, and no const one: the contracts take any width, and a const parameter serves only those written out.
fn numbers_in(out: &mut [u64], s: &[u8], from: usize, w: usize)
    requires { (w ≤ 8) × (from + w * length out.old ≤ length s.now) }
    ensures { out.new ≡ numbers w (length out.old) from s.now }
{
    match w {
        4 => numbers_by(out, s, from, 4),
        8 => numbers_by(out, s, from, 8),
        _ => numbers_by(out, s, from, w),
    }
}

// What bytes that are no store read as: more sites than a store can have.
fn no_store() -> Header
    ensures { result ≡ no_header }
{
    Header {
        count: 513,
        held: false,
        grouped: 0,
        roll: no_roll(),
    }
}

// Is the number in front of a roll's crews, at a place of `s`, neither 0 nor 1?
fn is_roll_wrong(s: &[u8], at: usize, rolls: bool) -> bool
    requires { length s.now ≡ at + cond rolls 72 0 }
    ensures { result ≡ roll_wrong rolls (drop at s.now) }
{
    rolls && 1 < field(s, at, 8)
}

// The roll or none at a place of `s`; none where the edition has no rolls.
fn roll_in(s: &[u8], at: usize, rolls: bool) -> RollArray
    requires { length s.now ≡ at + cond rolls 72 0 }
    ensures { result ≡ roll_behind rolls (drop at s.now) }
{
    if !rolls {
        return no_roll();
    }
    RollArray {
        there: field(s, at, 8) == 1,
        crews: bytes_at(s, at + 8),
    }
}

// Reads a store: its first words, its roll or none, and as many groups and shares as they say.
pub fn store_in(s: &[u8], w: usize, rolls: bool, groups: &mut [u64], shares: &mut [u64]) -> Header
    requires { (w ≤ 8) × (length s.now ≡ store_size w rolls) × (length groups.old ≡ 64) × (length shares.old ≡ 512) }
    ensures { StoreRead w rolls s.now groups.old shares.old result groups.new shares.new }
{
    let held = field(s, 8, 8);
    if 1 < held {
        return no_store();
    }
    let front = 536 + w * 512;
    if is_roll_wrong(s, front, rolls) {
        return no_store();
    }
    let count = field(s, 0, 8) as usize;
    let grouped = field(s, 16, 8) as usize;
    numbers_in(&mut groups[..grouped.min(64)], s, 24, 8);
    numbers_in(&mut shares[..count.min(512)], s, 536, w);
    Header {
        count,
        held: held == 1,
        grouped,
        roll: roll_in(s, front, rolls),
    }
}

// A site, from the number that its place's bytes are.
fn site_of(body: u64) -> Site
    requires { body < 2 ^ 48 }
    ensures { result ≡ site_of_number body }
{
    Site {
        first: (body % 256) as u8,
        second: (body / 256 % 256) as u8,
        litres: (body / 65536) as u32,
    }
}

// The site at a place of a table's bytes.
pub fn site_in(t: &[u8], at: usize, w: usize) -> Site
    requires { (w ≤ 4) × (at + place_size w ≤ length t.now) }
    ensures { result ≡ place_in w (take (place_size w) (drop at t.now)) }
{
    site_of(field(t, at, 2 + w))
}

// The site at the i-th place of a table whose places have `size` bytes.
fn site_at(t: &[u8], i: usize, size: usize) -> Site
    requires { (2 ≤ size) × (size ≤ 6) × (i < length t.now / size) }
    ensures { result ≡ get_or (sites_in (size - 2) t.now) i no_site }
{
    site_of(field(t, size * i, size))
}

// The list of a roll or none and of the sites of the first n places, each of `size` bytes.
fn list_by(t: &[u8], size: usize, n: usize, roll: RollArray) -> ListArray
    requires { (2 ≤ size) × (size ≤ 6) }
    ensures { (result.count ≡ n) × (result.roll ≡ roll) × (n ≤ 512 → n ≤ places_in (size - 2) t.now → take n result.sites ≡ take n (sites_in (size - 2) t.now)) }
{
    let places = n.min(capacity(t.len() / size));
    let mut sites = [no_site(); 512];
    for i in 0..places {
        sites[i] = site_at(t, i, size);
    }
    ListArray {
        count: n,
        sites,
        roll,
    }
}

// The list of the first n places, with its roll or none.
pub fn list_in(t: &[u8], w: usize, n: usize, roll: RollArray) -> ListArray
    requires { w ≤ 4 }
    ensures { (result.count ≡ n) × (result.roll ≡ roll) × (n ≤ 512 → n ≤ places_in w t.now → take n result.sites ≡ take n (sites_in w t.now)) }
{
    match w {
        2 => list_by(t, 4, n, roll),
        4 => list_by(t, 6, n, roll),
        _ => list_by(t, 2 + w, n, roll),
    }
}

// Is one of the first n places, each of `size` bytes, a bad site?
fn bad_by(t: &[u8], size: usize, n: usize) -> bool
    requires { (2 ≤ size) × (size ≤ 6) }
    ensures { n ≤ 512 → n ≤ places_in (size - 2) t.now → result ≡ any (λ i. bad_site (get_or (sites_in (size - 2) t.now) i no_site)) n }
{
    let count = n.min(capacity(t.len() / size));
    let mut bad = false;
    for i in 0..count {
        bad |= is_bad(site_at(t, i, size));
    }
    bad
}

// Do rows 5 or 6 refuse one of the first n sites?
pub fn is_any_bad(t: &[u8], w: usize, n: usize) -> bool
    requires { w ≤ 4 }
    ensures { n ≤ 512 → n ≤ places_in w t.now → result ≡ any (λ i. bad_site (get_or (sites_in w t.now) i no_site)) n }
{
    match w {
        2 => bad_by(t, 4, n),
        4 => bad_by(t, 6, n),
        _ => bad_by(t, 2 + w, n),
    }
}
