// What is written over the bytes of a store and of a table, by the width of a share and of a site's litres. What stands in front of a store's roll and the roll are written apart.
// Numbers and places are written one after another by loops over a width; the widths of both editions are given as constants to that of the places, edition 1's to that of the shares.
#![tactic(auto)]

ghost use Rattle.std.specs.Prelude.{◌≡◌, true, ℕ, ◌<◌, ◌≤◌, ◌+◌, ◌*◌, ◌^◌, length, take, get_or};
ghost use mathlib.Core.List.{flat_map};
ghost use Rattle.records.specs.Bytes.{le};
ghost use Rattle.records.specs.Write.{place, onto};
ghost use Rattle.records.specs.declared.RollArray.{RollArray};
ghost use Rattle.store.specs.State.{bare};
ghost use Rattle.layout.specs.Layout.{front_size, store_size, roll_part, place_size, place_bytes, table_over, StoreFits};
ghost use Rattle.layout_put.specs.Put.{held_store, PutFront, PutSites};

use density::Site;
use records::RollArray;
use writers_numbers::{body_of, crews, number_at};

// Writes numbers of `w` bytes, one behind the other, to the front of `out`.
fn put_numbers(out: &mut [u8], w: usize, xs: &[u64])
    requires { w * length xs.now ≤ length out.old }
    ensures { out.new ≡ onto (flat_map (le w) xs.now) out.old }
{
    let mut at = 0;
    for x in xs {
        number_at(out, at, w, *x);
        at += w;
    }
}

// Writes a store of n sites that holds no plan. Its roll stays.
pub fn put_bare(out: &mut [u8], w: usize, n: usize)
    requires { front_size w ≤ length out.old }
    ensures { (roll : RollArray) → PutFront w (bare n roll) out.old out.new }
{
    let end = 536 + w * 512;
    number_at(out, 0, 8, n as u64);
    out[8..end].fill(0);
}

// Writes a store that holds a plan. Its roll stays. By their types its figures have the widths, where its shares have theirs.
// Kept: the width is a parameter, here and of places below, and no const one, as in `layout`.
pub fn put_plan(
    out: &mut [u8],
    w: usize,
    count: usize,
    grouped: usize,
    groups: &[u64],
    shares: &[u64],
)
    requires { (front_size w ≤ length out.old) × (length groups.now ≡ 64) × (length shares.now ≡ 512) }
    ensures { ((roll : RollArray) → PutFront w (held_store count grouped groups.now shares.now roll) out.old out.new) × ((roll : RollArray) → ((i : ℕ) → get_or shares.now i 0 < 256 ^ w) → StoreFits w (held_store count grouped groups.now shares.now roll)) }
{
    number_at(out, 0, 8, count as u64);
    number_at(out, 8, 8, 1);
    number_at(out, 16, 8, grouped as u64);
    put_numbers(&mut out[24..], 8, groups);
    match w {
        4 => put_numbers(&mut out[536..], 4, shares),
        _ => put_numbers(&mut out[536..], w, shares),
    }
}

// Writes the roll of a store, or the lack of one.
pub fn put_roll(out: &mut [u8], w: usize, roll: RollArray)
    requires { length out.old ≡ store_size w true }
    ensures { out.new ≡ place (front_size w) (roll_part true roll) out.old }
{
    let at = 536 + w * 512;
    number_at(out, at, 8, u64::from(roll.there));
    crews(out, at + 8, roll.crews);
}

// A site goes to a place of a table's bytes.
pub fn put_site(out: &mut [u8], at: usize, w: usize, x: Site)
    requires { at + place_size w ≤ length out.old }
    ensures { out.new ≡ place at (place_bytes w x) out.old }
{
    number_at(out, at, 2 + w, body_of(x));
}

// The first n sites go to the first places.
fn put_by(out: &mut [u8], w: usize, sites: [Site; 512], n: usize)
    requires { (n ≤ 512) × (place_size w * n ≤ length out.old) }
    ensures { out.new ≡ table_over w (take n sites) out.old }
{
    for (i, x) in sites[..n].iter().enumerate() {
        put_site(out, (2 + w) * i, w, *x);
    }
}

// Copy out: the first n sites go to the table's bytes. The other places keep their content.
pub fn put_sites(out: &mut [u8], w: usize, sites: [Site; 512], n: usize)
    requires { (n ≤ 512) × (place_size w * n ≤ length out.old) }
    ensures { PutSites w n sites out.old out.new }
{
    match w {
        2 => put_by(out, 2, sites, n),
        4 => put_by(out, 4, sites, n),
        _ => put_by(out, w, sites, n),
    }
}
