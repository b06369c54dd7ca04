// Moves share along an arc, from a depot above its target to one that comes earlier in the search order.
// The arrays are those of residual.
#![tactic(auto)]

ghost use Rattle.std.specs.Prelude.{◌≡◌, ◌<◌, ltb, length};
ghost use Rattle.residual.specs.Array.{at};
ghost use Rattle.residual.specs.Search.{reverse};
ghost use Rattle.residual.specs.Moves.{shift, Room, Loaded, Movable, Pushed, ArcAt, ExcessPushed};

// Moves m from place i to place k.
fn transfer(xs: &mut [u64], i: usize, k: usize, m: u64)
    requires { Room xs.old i k m }
    ensures { xs.new ≡ shift xs.old i k m }
{
    xs[i] -= m;
    xs[k] += m;
}

// Moves m of the share on arc j to its reverse.
fn push(ends: &[usize], share: &mut [u64], load: &mut [u64], j: usize, m: u64)
    requires loaded { Loaded ends.now share.old load.old }
    requires movable { Movable ends.now share.old load.old j m }
    ensures { Pushed ends.now share.old load.old j m share.new load.new }
{
    let p = residual::reverse(j);
    let u = ends[j];
    let v = ends[p];
    transfer(share, j, p, m);
    transfer(load, u, v, m);
}

// Whether the depot at the other end of arc j comes before u in the order.
fn leads_earlier(ends: &[usize], rank: &[usize], u: usize, j: usize) -> bool
    requires ends_len { (length ends.now ≡ 1024) × (length rank.now ≡ 64) }
    requires u_bound { (u < 64) × (j < 1024) × (at ends.now (reverse j) < 64) }
    ensures { result ≡ ltb (at rank.now (at ends.now (reverse j))) (at rank.now u) }
{
    let v = ends[residual::reverse(j)];
    rank[v] < rank[u]
}

// Moves what u has above its target along its arc j, as far as the share goes, if the other depot comes earlier.
pub fn push_excess(
    ends: &[usize],
    rank: &[usize],
    target: &[u64],
    u: usize,
    j: usize,
    share: &mut [u64],
    load: &mut [u64],
)
    requires arc_at { ArcAt ends.now rank.now target.now u j }
    requires loaded { Loaded ends.now share.old load.old }
    ensures { ExcessPushed ends.now rank.now target.now u j share.old load.old share.new load.new }
{
    if !leads_earlier(ends, rank, u, j) {
        return;
    }
    let m = load[u].saturating_sub(target[u]).min(share[j]);
    if m == 0 {
        return;
    }
    push(ends, share, load, j, m);
}
