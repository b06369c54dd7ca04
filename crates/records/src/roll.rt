// Rolls: the crews of a depot, and rows 22 and 23.
ghost use Rattle.std.specs.Prelude.{◌≡◌, ◌≤◌, ◌+◌, length, take, drop, get_or};
ghost use Rattle.sets.specs.Sum.{any};
ghost use Rattle.density.specs.Network.{no_site, crews_of, crews_above, uncrewed};
ghost use Rattle.records.specs.Values.{roll_in};

use crate::RollArray;
use density::Site;

// The 64 bytes of `s` from a place on.
pub fn bytes_at(s: &[u8], at: usize) -> [u8; 64]
    requires { at + 64 ≤ length s.now }
    ensures { result ≡ take 64 (drop at s.now) }
{
    let mut crews = [0u8; 64];
    // Kept: a loop, here and in `is_above`: by `copy_from_slice` and `any` the reader of a list took 8 KB more of stack, and Make more than the header states.
    let mut d: usize = 0;
    while d < 64 {
        crews[d] = s[at + d];
        d += 1;
    }
    crews
}

// The crews of a depot: those of the roll or, without one, one.
pub fn crews_at(roll: RollArray, d: u8) -> u8
    ensures { result ≡ crews_of (roll_in roll) d }
{
    if !roll.there {
        return 1;
    }
    if 63 < d {
        return 0;
    }
    roll.crews[d as usize]
}

// Row 22: is a byte of the roll above 9?
pub fn is_above(roll: RollArray) -> bool
    ensures { result ≡ crews_above (roll_in roll) }
{
    if !roll.there {
        return false;
    }
    let mut d: u8 = 0;
    while d < 64 {
        if 9 < crews_at(roll, d) {
            return true;
        }
        d += 1;
    }
    false
}

// Row 23, of one site: does it name a depot without crews?
pub fn is_uncrewed(roll: RollArray, s: Site) -> bool
    ensures { result ≡ uncrewed (roll_in roll) s }
{
    let first = crews_at(roll, s.first) == 0;
    let second = crews_at(roll, s.second) == 0;
    first || second
}

// Row 23, of the first n sites.
pub fn any_uncrewed(roll: RollArray, sites: [Site; 512], n: usize) -> bool
    requires { n ≤ 512 }
    ensures { result ≡ any (λ i. uncrewed (roll_in roll) (get_or sites i no_site)) n }
{
    roll.there && sites[..n].iter().any(|s| is_uncrewed(roll, *s))
}
