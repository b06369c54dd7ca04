// Moves share between the depots of a set, along residual arcs, until no depot above its target can pass share on to one below.
// The arrays are those of residual.
#![tactic(auto)]

ghost use Rattle.std.specs.Prelude.{◌≡◌, ◌<◌, length};
ghost use Rattle.residual.specs.Rounds.{Excess, Depots, Tested, Found, AllDischarged, Seeded, Start, Relaxed};
ghost use Rattle.residual.specs.Moves.{Loaded, Ranked, Discharged};
ghost use Rattle.residual.specs.Search.{Queue, Placed, Linked, Linking, Prepended};

// Pushes the excess of u along each of its arcs.
fn discharge(
    ends: &[usize],
    chain: &[usize],
    rank: &[usize],
    target: &[u64],
    u: usize,
    share: &mut [u64],
    load: &mut [u64],
)
    requires ranked { Ranked ends.now chain.now rank.now target.now }
    requires placed { Placed rank.now u }
    requires loaded { Loaded ends.now share.old load.old }
    ensures { Discharged ends.now rank.now target.now u 0 share.old load.old share.new load.new }
{
    let mut j = chain[1024 + u];
    // Kept: each arc of the chain names the next; an iterator would have to carry that each is in range.
    while 0 < j {
        push::push_excess(ends, rank, target, u, j - 1, share, load);
        j = chain[j - 1];
    }
}

// Whether one of the first n of the order is above its target.
fn any_excess(order: &[usize], n: usize, target: &[u64], load: &[u64]) -> bool
    requires target_len { (length target.now ≡ 64) × (length load.now ≡ 64) }
    requires depots { Depots order.now n }
    ensures { Tested order.now target.now load.now n result }
{
    for &d in &order[..n] {
        if target[d] < load[d] {
            return true;
        }
    }
    false
}

// Discharges the depots of the order from its end down to the first `start`.
fn discharge_all(
    ends: &[usize],
    chain: &[usize],
    order: &[usize],
    rank: &[usize],
    target: &[u64],
    start: usize,
    n: usize,
    share: &mut [u64],
    load: &mut [u64],
)
    requires ranked { Ranked ends.now chain.now rank.now target.now }
    requires loaded { Loaded ends.now share.old load.old }
    requires found { Found ends.now share.old order.now rank.now target.now load.old start n }
    requires excess { Excess order.now target.now load.old start n }
    ensures { AllDischarged ends.now rank.now target.now share.old load.old share.new load.new }
{
    for k in (start..n).rev() {
        discharge(ends, chain, rank, target, order[k], share, load);
    }
}

// Begins the order with the depots below their targets.
fn seeds(target: &[u64], load: &[u64], order: &mut [usize], rank: &mut [usize]) -> usize
    requires target_len { (length target.now ≡ 64) × (length load.now ≡ 64) }
    requires queue { Queue 0 order.old rank.old }
    ensures { Seeded target.now load.now rank.old result order.new rank.new }
{
    let mut n = 0;
    for d in 0..64 {
        n = residual::enqueue(target[d].saturating_sub(load[d]), d, n, order, rank);
    }
    n
}

// Moves share until no depot above its target can pass share on to one below. The number of depots that can.
pub fn relax(
    ends: &[usize],
    chain: &[usize],
    target: &[u64],
    share: &mut [u64],
    load: &mut [u64],
    order: &mut [usize],
    rank: &mut [usize],
) -> usize
    requires start { Start ends.now chain.now target.now order.old rank.old }
    requires loaded { Loaded ends.now share.old load.old }
    ensures { Relaxed ends.now target.now rank.old share.old load.old result rank.new share.new load.new }
{
    // Kept: whether another round follows is known only in the midst of one.
    loop {
        ranks::clear(rank);
        let start = seeds(target, load, order, rank);
        let n = residual::reach(ends, chain, share, start, order, rank);
        let more = any_excess(order, n, target, load);
        if !more {
            return n;
        }
        discharge_all(ends, chain, order, rank, target, start, n, share, load);
    }
}

// Puts arc j before the others at depot e.
fn prepend(e: usize, j: usize, chain: &mut [usize])
    requires { (j < 1024) × (length chain.old ≡ 1088) }
    ensures { Prepended e j chain.old chain.new }
{
    if 64 <= e {
        return;
    }
    chain[j] = chain[1024 + e];
    chain[1024 + e] = j + 1;
}

// Links the arcs at each depot, in a chain that has 0 for each depot.
pub fn link(ends: &[usize], chain: &mut [usize])
    requires { Linking ends.now chain.old 0 }
    ensures { Linked ends.now chain.new }
{
    for (j, &e) in ends.iter().enumerate() {
        prepend(e, j, chain);
    }
}
