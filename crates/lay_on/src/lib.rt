// One site laid on one of its depots: its shares stored, and the depots' loads raised.
// Site i is at the places i and 512 + i of `share`, for its first and its second depot.
#![tactic(auto)]

ghost use Rattle.std.specs.Prelude.{◌≡◌, ◌+◌, ◌-◌, ◌<◌, ◌^◌, length, set};
ghost use Rattle.sets.specs.Sum.{when};
ghost use Rattle.residual.specs.Array.{total_load};
ghost use Rattle.lay_on.specs.Raise.{raise};

// x where the test holds, else 0.
pub fn part(there: bool, x: u64) -> u64
    ensures { result ≡ when there x }
{
    if there { x } else { 0 }
}

// Adds m to the load of depot d.
fn add_to(load: &mut [u64], d: usize, m: u64)
    requires { (d < 64) × (length load.old ≡ 64) × (total_load load.old + m < 2 ^ 64) }
    ensures { load.new ≡ raise load.old d m }
{
    load[d] += m;
}

// Stores the shares of site i.
fn store(share: &mut [u64], i: usize, first: u64, second: u64)
    requires { (i < 512) × (length share.old ≡ 1024) }
    ensures { share.new ≡ set (set share.old i first) (512 + i) second }
{
    share[i] = first;
    share[512 + i] = second;
}

// Lays t of site i on its first depot x if that is in the set, else on its second depot y.
pub fn lay_on(
    i: usize,
    x: usize,
    y: usize,
    inside: bool,
    t: u64,
    share: &mut [u64],
    load: &mut [u64],
)
    requires i_bound { (i < 512) × (x < 64) × (y < 64) }
    requires share_len { (length share.old ≡ 1024) × (length load.old ≡ 64) × (total_load load.old + t < 2 ^ 64) }
    ensures { (share.new ≡ set (set share.old i (when inside t)) (512 + i) (t - when inside t)) × (load.new ≡ raise (raise load.old x (when inside t)) y (t - when inside t)) }
{
    let first = part(inside, t);
    let second = t - first;
    store(share, i, first, second);
    add_to(load, x, first);
    add_to(load, y, second);
}
