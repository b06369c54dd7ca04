// One attempt to level a set of depots: lays its sites on them, and pushes the shares as far as the sites allow.
// A site i has two arcs, i at its first depot and 512 + i at its second: `ends` has their depots, 64 where there is no site, `share` what each has.
#![tactic(auto)]

ghost use Rattle.std.specs.Prelude.{◌≡◌, ◌&&◌, ◌||◌, ℕ, ◌+◌, ◌*◌, ◌<◌, ◌^◌, length};
ghost use Rattle.sets.specs.Set.{has};
ghost use Rattle.residual.specs.Array.{at, total_load};
ghost use Rattle.attempt.specs.Lay.{Listed, SiteLaid, Ready, Laying, Aiming};
ghost use Rattle.attempt.specs.Attempt.{Stage, Attempted};

// Is depot d in the set?
fn contains(set: u64, d: usize) -> bool
    requires { d < 64 }
    ensures { result ≡ has set d }
{
    sets::contains(set, d as u8)
}

// Are depots x and y both in the set?
fn covers(set: u64, x: usize, y: usize) -> bool
    requires { (x < 64) × (y < 64) }
    ensures { result ≡ (has set x && has set y) }
{
    contains(set, x) && contains(set, y)
}

// Does the set carry a site of depots x and y, given what is grouped before?
fn carries(set: u64, before: u64, x: usize, y: usize) -> bool
    requires { (x < 64) × (y < 64) }
    ensures { result ≡ (((has set x || has before x) && (has set y || has before y)) && (has set x || has set y)) }
{
    let (sx, sy) = (contains(set, x), contains(set, y));
    let (bx, by) = (contains(before, x), contains(before, y));
    (sx || bx) && (sy || by) && (sx || sy)
}

// Lays site i whole on one of its depots, if the set carries it. The litres that it brings.
fn lay_site(
    ends: &[usize],
    litres: &[u64],
    set: u64,
    before: u64,
    q: u64,
    i: usize,
    share: &mut [u64],
    load: &mut [u64],
) -> u64
    requires listed { Listed ends.now litres.now }
    requires i_bound { (i < 512) × (length share.old ≡ 1024) × (length load.old ≡ 64) × (total_load load.old + q * at litres.now i < 2 ^ 64) }
    ensures { SiteLaid ends.now litres.now (has set) (has before) q i share.old load.old result share.new load.new }
{
    let x = ends[i];
    if 64 <= x {
        return 0;
    }
    let y = ends[512 + i];
    if covers(before, x, y) {
        return 0;
    }
    let w = lay_on::part(carries(set, before, x, y), litres[i]);
    lay_on::lay_on(i, x, y, contains(set, x), q * w, share, load);
    w
}

// Lays all sites of the set, given what is grouped before, at the scale q. The litres of the set.
pub fn lay(
    ends: &[usize],
    litres: &[u64],
    set: u64,
    before: u64,
    q: u64,
    share: &mut [u64],
    load: &mut [u64],
) -> u64
    requires ready { Ready ends.now litres.now (has set) (has before) q }
    requires laying { Laying ends.now litres.now (has set) (has before) q share.old 0 share.old load.old 0 }
    ensures { Laying ends.now litres.now (has set) (has before) q share.old result share.new load.new 512 }
{
    let mut total = 0;
    for i in 0..512 {
        total += lay_site(ends, litres, set, before, q, i, share, load);
    }
    total
}

// The targets and ranks for pushes within the set: each of its depots is to have w for each of its crews.
pub fn aim(crews: &[u64], set: u64, w: u64, target: &mut [u64], rank: &mut [usize])
    requires crews_len { (length crews.now ≡ 64) × ((d : ℕ) → d < 64 → w * at crews.now d < 2 ^ 64) }
    requires aiming { Aiming crews.now set w target.old rank.old 0 }
    ensures { Aiming crews.now set w target.new rank.new 64 }
{
    for d in 0..64 {
        let t = contains(set, d);
        target[d] = lay_on::part(t, w * crews[d]);
        rank[d] = if t { 64 } else { 65 };
    }
}

// Lays the set and pushes its shares. The whole set where it is level, else its denser part.
pub fn attempt(
    ends: &[usize],
    chain: &[usize],
    litres: &[u64],
    crews: &[u64],
    set: u64,
    before: u64,
    q: u64,
    share: &mut [u64],
) -> u64
    requires { Stage ends.now chain.now litres.now crews.now set before q share.old }
    ensures { Attempted ends.now litres.now crews.now set before q share.old result share.new }
{
    let mut load = [0u64; 64];
    let mut target = [0u64; 64];
    let mut order = [0usize; 64];
    let mut rank = [0usize; 64];
    let w = lay(ends, litres, set, before, q, share, &mut load);
    aim(crews, set, w, &mut target, &mut rank);
    flow::relax(
        ends, chain, &target, share, &mut load, &mut order, &mut rank,
    );
    ranks::unreached(&rank)
}
