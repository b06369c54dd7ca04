// The search for the depots that can pass share on, arc by arc, to one below its target.
// A site i has two arcs: i at its first depot and i + 512 at its second.
// ends[j] is the depot of arc j, or 64 where there is no site; share[j] is what that depot has of the site.
// rank[d] is the place of depot d in the search order, 64 where it is not reached, 65 where it takes no part.
// Kept: the lists go one by one and not as a struct of slices, as the definitions of specs/ take them.
#![tactic(auto)]

ghost use Rattle.std.specs.Prelude.{◌≡◌, ◌<◌};
ghost use Rattle.residual.specs.Search.{reverse, Queue, Enqueued, Residual, Placed, Scanned, Reached};

// The arc of the same site at its other depot.
pub fn reverse(j: usize) -> usize
    requires { j < 1024 }
    ensures { (result ≡ reverse j) × (result < 1024) }
{
    if j < 512 {
        return j + 512;
    }
    j - 512
}

// Puts u at the end of the search order, if it has something to give, takes part and is not reached yet.
pub fn enqueue(give: u64, u: usize, n: usize, order: &mut [usize], rank: &mut [usize]) -> usize
    requires u_bound { u < 64 }
    requires queue { Queue n order.old rank.old }
    ensures { Enqueued give u n order.old rank.old result order.new rank.new }
{
    if give == 0 {
        return n;
    }
    let place = rank[u];
    if place == 64 {
        rank[u] = n;
        order[n] = u;
        return n + 1;
    }
    n
}

// Enqueues the depot at the other end of each arc at v, where that depot has share on it.
fn scan(
    ends: &[usize],
    chain: &[usize],
    share: &[u64],
    v: usize,
    start: usize,
    order: &mut [usize],
    rank: &mut [usize],
) -> usize
    requires residual { Residual ends.now chain.now share.now }
    requires placed { Placed rank.old v }
    requires queue { Queue start order.old rank.old }
    ensures { Scanned ends.now share.now v start order.old rank.old result order.new rank.new }
{
    let mut n = start;
    let mut j = chain[1024 + v];
    // Kept: each arc of the chain names the next; an iterator would have to carry that each is in range.
    while 0 < j {
        let p = reverse(j - 1);
        n = enqueue(share[p], ends[p], n, order, rank);
        j = chain[j - 1];
    }
    n
}

// All depots that can pass share on, arc by arc, to one of the first `start` of the order.
pub fn reach(
    ends: &[usize],
    chain: &[usize],
    share: &[u64],
    start: usize,
    order: &mut [usize],
    rank: &mut [usize],
) -> usize
    requires residual { Residual ends.now chain.now share.now }
    requires queue { Queue start order.old rank.old }
    ensures { Reached ends.now share.now start order.old rank.old result order.new rank.new }
{
    let mut n = start;
    let mut k: usize = 0;
    // Kept: a queue, which grows while it is read.
    while k < n {
        let v = order[k];
        n = scan(ends, chain, share, v, n, order, rank);
        k += 1;
    }
    n
}
