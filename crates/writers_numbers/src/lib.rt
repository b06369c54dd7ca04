// The writers of numbers and of records: of a mark and a number, and of sites, one or one after another.
#![tactic(auto)]

ghost use Rattle.std.specs.Prelude.{◌≡◌, ℕ, ◌≤◌, ◌+◌, ◌*◌, length, take};
ghost use mathlib.Core.List.{◌++◌, flat_map};
ghost use Rattle.records.specs.Bytes.{le};
ghost use Rattle.records.specs.Write.{place, onto, mark_bytes, site_bytes};
ghost use Rattle.records.specs.Format.{site_size};

use density::Site;
use records::{Edition, number};

// Puts the two, four, six or eight low bytes of `x` at a place of `out`.
// Kept: a function for each width of an edition, so that none is written by a loop at run time.
fn put_two(out: &mut [u8], at: usize, x: u64)
    requires { at + 2 ≤ length out.old }
    ensures { out.new ≡ place at (le 2 x) out.old }
{
    out[at] = (x % 256) as u8;
    out[at + 1] = (x / 256 % 256) as u8;
}

fn put_four(out: &mut [u8], at: usize, x: u64)
    requires { at + 4 ≤ length out.old }
    ensures { out.new ≡ place at (le 4 x) out.old }
{
    put_two(out, at, x);
    put_two(out, at + 2, x / 65536);
}

fn put_six(out: &mut [u8], at: usize, x: u64)
    requires { at + 6 ≤ length out.old }
    ensures { out.new ≡ place at (le 6 x) out.old }
{
    put_four(out, at, x);
    put_two(out, at + 4, x / 4294967296);
}

fn put_eight(out: &mut [u8], at: usize, x: u64)
    requires { at + 8 ≤ length out.old }
    ensures { out.new ≡ place at (le 8 x) out.old }
{
    put_four(out, at, x);
    put_four(out, at + 4, x / 4294967296);
}

// Puts the `w` low bytes of `x` at a place of `out`.
pub fn number_at(out: &mut [u8], at: usize, w: usize, x: u64)
    requires { at + w ≤ length out.old }
    ensures { out.new ≡ place at (le w x) out.old }
{
    if w == 4 {
        return put_four(out, at, x);
    }
    if w == 2 {
        return put_two(out, at, x);
    }
    if w == 8 {
        return put_eight(out, at, x);
    }
    if w == 6 {
        return put_six(out, at, x);
    }
    number::put(&mut out[at..at + w], x);
}

// Puts a record of a mark and a number of `w` bytes at a place of `out`.
pub fn record_at(out: &mut [u8], at: usize, mark: u64, w: usize, x: u64)
    requires { at + (2 + w) ≤ length out.old }
    ensures { out.new ≡ place at (mark_bytes mark w x) out.old }
{
    number_at(out, at, 2, mark);
    number_at(out, at + 2, w, x);
}

// Puts the 64 bytes of a roll, one for each depot, at a place of `out`.
pub fn crews(out: &mut [u8], at: usize, bytes: [u8; 64])
    requires { at + 64 ≤ length out.old }
    ensures { out.new ≡ place at bytes out.old }
{
    out[at..at + 64].copy_from_slice(&bytes);
}

// Writes records of a mark and a number of `w` bytes, one for each number.
pub fn records(out: &mut [u8], mark: u64, w: usize, xs: &[u64])
    requires { (2 + w) * length xs.now ≤ length out.old }
    ensures { out.new ≡ onto (flat_map (mark_bytes mark w) xs.now) out.old }
{
    let mut at = 0;
    for x in xs {
        record_at(out, at, mark, w, *x);
        at += 2 + w;
    }
}

// A site's depots and litres as one number, of which the low bytes are its depots' and then its litres'.
pub fn body_of(x: Site) -> u64
    ensures { (w : ℕ) → le (2 + w) result ≡ le 1 x.first ++ (le 1 x.second ++ le w x.litres) }
{
    u64::from(x.first) + 256 * u64::from(x.second) + 65536 * u64::from(x.litres)
}

// Puts a site's record at a place of `out`.
pub fn site_at(e: Edition, out: &mut [u8], at: usize, x: Site)
    requires { at + site_size e ≤ length out.old }
    ensures { out.new ≡ place at (site_bytes e x) out.old }
{
    let w = 2 + e.litres;
    record_at(out, at, e.mark.site, w, body_of(x));
}

// Writes the records of the first `n` sites.
pub fn sites(e: Edition, table: [Site; 512], n: usize, out: &mut [u8])
    requires { (e.litres ≤ 8) × (n ≤ 512) × (site_size e * n ≤ length out.old) }
    ensures { out.new ≡ onto (flat_map (site_bytes e) (take n table)) out.old }
{
    let size = 4 + e.litres;
    let mut at = 0;
    for x in &table[..n] {
        site_at(e, out, at, *x);
        at += size;
    }
}
