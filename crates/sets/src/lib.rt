// Sets of depots, 0 to 63, as numbers: bit n, worth 2 to the n, stands for depot n.
// `specs/Set.antt` says what each function means; `proofs/` has the laws.
#![tactic(auto)]

ghost use Rattle.std.specs.Prelude.{◌≡◌, true, ℕ, ◌<◌, ◌≤◌, length, get_or};
ghost use Rattle.std.specs.Iterator.{at_most};
ghost use Rattle.sets.specs.Set.{only, ◌∪◌, ◌∩◌, ◌∖◌, has, set_of, is_empty, weigh, cardinality, lowest, TakesLowest};

// Is the depot in the set? A number from 64 on is in none.
pub fn contains(set: u64, depot: u8) -> bool
    ensures { result ≡ has set depot }
{
    if 63 < depot {
        return false;
    }
    (set >> depot) & 1 == 1
}

// The set of one depot.
pub fn single(depot: u8) -> u64
    requires { depot < 64 }
    ensures { result ≡ set_of (only depot) 64 }
{
    1 << depot
}

// The set with one depot more.
pub fn with(set: u64, depot: u8) -> u64
    requires { depot < 64 }
    ensures { result ≡ set_of (has set ∪ only depot) 64 }
{
    set | (1 << depot)
}

pub fn union(a: u64, b: u64) -> u64
    ensures { result ≡ set_of (has a ∪ has b) 64 }
{
    a | b
}

// The depots of a that are not in b.
pub fn without(a: u64, b: u64) -> u64
    ensures { result ≡ set_of (has a ∖ has b) 64 }
{
    a & !b
}

pub fn is_empty(set: u64) -> bool
    ensures { result ≡ is_empty (has set) 64 }
{
    set == 0
}

// Have the two sets no depot in common?
pub fn are_disjoint(a: u64, b: u64) -> bool
    ensures { result ≡ is_empty (has a ∩ has b) 64 }
{
    a & b == 0
}

// How many depots are in the set: the number of ones.
pub fn size(set: u64) -> u64
    ensures { result ≡ cardinality (has set) 64 }
{
    u64::count_ones(set) as u64
}

// The lowest depot of the set, 64 if it is empty.
pub fn lowest(set: u64) -> u8
    ensures { result ≡ lowest (has set) 64 }
{
    u64::trailing_zeros(set) as u8
}

// The depots of a set from the lowest on, one at each step: `left` has those that are still to come.
#[derive(Clone, Copy)]
pub struct InOrder {
    left: u64,
}

impl Iterator for InOrder {
    type Item = u8;

    ghost next_gives = { λ s r t. TakesLowest s.left r t.left };

    ghost remaining = { λ s. at_most (cardinality (has s.left) 64) };

    fn next(&mut self) -> Option<u8> {
        let left = self.left;
        if is_empty(left) {
            return None;
        }
        let d = lowest(left);
        self.left = without(left, single(d));
        Some(d)
    }
}

// The depots of the set, from the lowest on.
pub fn depots(set: u64) -> InOrder
    ensures { result.left ≡ set }
{
    InOrder { left: set }
}

// The weights of the set's depots added up, from the lowest depot on.
fn add_weights(weights: &[u64], set: u64) -> u64
    requires { (length weights.now ≡ 64) × ((d : ℕ) → d < 64 → get_or weights.now d 0 ≤ 9) }
    ensures { result ≡ weigh (λ d. get_or weights.now d 0) (has set) 64 }
{
    let mut total: u64 = 0;
    for d in depots(set) {
        total += weights[d as usize];
    }
    total
}

// The weights of the set's depots added up. Where each depot has the weight 1, as `ones` says, that is how many there are.
pub fn weight(weights: &[u64], ones: bool, set: u64) -> u64
    requires weights_len { (length weights.now ≡ 64) × ((d : ℕ) → d < 64 → get_or weights.now d 0 ≤ 9) }
    requires d_value { ones ≡ true → (d : ℕ) → d < 64 → get_or weights.now d 0 ≡ 1 }
    ensures { result ≡ weigh (λ d. get_or weights.now d 0) (has set) 64 }
{
    if ones {
        return size(set);
    }
    add_weights(weights, set)
}
