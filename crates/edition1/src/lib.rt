// The desk by the widths of edition 1 of document 01.
#![tactic(auto)]

ghost use Rattle.std.specs.Prelude.{◌≡◌, ℕ, ◌<◌, ◌^◌, get_or};
ghost use Rattle.std.proofs.Math.Option.{none};
ghost use Rattle.records.specs.Values.{roll_array};
ghost use Rattle.store.specs.Widths.{Named};
ghost use Rattle.edition1.specs.Edition1.{store_of1, request_of1, fresh1, Typed1, Served1};

use held_state::Store;
use records::{Refusal, edition1, no_roll};
use serve::serve;
use store::{Answer, Request};
use table::values::narrow_first;
use table::{Site1, widen_all};

// Edition 1: the store by its widths, a share in 32 bits.
// Kept: a flag and a count side by side, as in `held_state::Store`.
#[derive(Clone, Copy)]
pub struct Store1 {
    pub count: usize,
    pub held: bool,
    pub grouped: usize,
    pub groups: [u64; 64],
    pub shares: [u32; 512],
}

// "Litres in a change or an added site are a 16-bit figure"; a threshold has 32 bits
#[derive(Clone, Copy)]
pub enum Request1 {
    Load,
    Change(usize, u16),
    Add(u8, u8, u16),
    Propose,
    Share(usize),
    Depot(u8),
    Difference(u8, u8),
    Written,
    AtLeast(u32),
    ListWritten,
}

#[derive(Clone, Copy)]
pub struct Decision1 {
    pub answer: Result<Answer, Refusal>,
    pub store: Store1,
    pub sites: [Site1; 512],
    pub n: usize,
}

// What a call of edition 1 gives back.
#[derive(Clone, Copy)]
pub struct Out1 {
    pub answer: Result<Answer, Refusal>,
    pub store: Store1,
}

// "A fresh desk has no sites, no plan, and 512 places for shares, all zero."
pub fn fresh1() -> Store1
    ensures { result ≡ fresh1 }
{
    Store1 {
        count: 0,
        held: false,
        grouped: 0,
        groups: [0; 64],
        shares: [0; 512],
    }
}

// The shares wide.
fn widen_shares(shares: [u32; 512]) -> [u64; 512]
    ensures { (result ≡ shares) × ((i : ℕ) → get_or result i 0 < 2 ^ 32) }
{
    let mut a = [0u64; 512];
    for (i, &share) in shares.iter().enumerate() {
        a[i] = u64::from(share);
    }
    a
}

// The store by the widths of the definition: its shares have 32 bits, and it has no roll.
impl From<Store1> for Store {
    ghost from_gives = { λ s r. (r ≡ store_of1 s) × ((i : ℕ) → get_or r.shares i 0 < 2 ^ 32) };

    fn from(s: Store1) -> Store {
        // Kept: an array goes into a struct by a variable.
        let groups = s.groups;
        let shares = widen_shares(s.shares);
        Store {
            count: s.count,
            held: s.held,
            grouped: s.grouped,
            groups,
            shares,
            roll: no_roll(),
        }
    }
}

// The shares narrow, if they fit: whether they do follows from the step, and not from their type.
fn narrow_shares(shares: [u64; 512]) -> [u32; 512]
    ensures { ((i : ℕ) → get_or shares i 0 < 2 ^ 32) → result ≡ shares }
{
    let mut a = [0u32; 512];
    for (i, &share) in shares.iter().enumerate() {
        a[i] = (share % 4294967296) as u32;
    }
    a
}

// The store by the widths of edition 1, if its shares fit and it has no roll.
// Kept: TryFrom would test at run time what the steps prove.
pub fn narrow_store(s: Store) -> Store1
    ensures { ((i : ℕ) → get_or s.shares i 0 < 2 ^ 32) → s.roll ≡ roll_array none → store_of1 result ≡ s }
{
    // Kept: an array goes into a struct by a variable.
    let groups = s.groups;
    let shares = narrow_shares(s.shares);
    Store1 {
        count: s.count,
        held: s.held,
        grouped: s.grouped,
        groups,
        shares,
    }
}

// The request; the litres that it names have 16 bits.
impl From<Request1> for Request {
    ghost from_gives = { λ q r. (r ≡ request_of1 q) × Named (2 ^ 16) r };

    fn from(q: Request1) -> Request {
        match q {
            Request1::Load => Request::Load,
            Request1::Change(i, w) => Request::Change(i, u32::from(w)),
            Request1::Add(f, s, w) => Request::Add(f, s, u32::from(w)),
            Request1::Propose => Request::Propose,
            Request1::Share(i) => Request::Share(i),
            Request1::Depot(d) => Request::Depot(d),
            Request1::Difference(a, b) => Request::Difference(a, b),
            Request1::Written => Request::Written,
            Request1::AtLeast(m) => Request::AtLeast(m),
            Request1::ListWritten => Request::ListWritten,
        }
    }
}

// What a call does, on values of edition 1's widths: widened, decided and narrowed.
pub fn serve1(
    store: Store1,
    sites: [Site1; 512],
    places: usize,
    request: Request1,
    input: &[u8],
    buffer: &mut [u8],
) -> Decision1
    ensures { Typed1 request input.now × Served1 store sites places request input.now buffer.old result buffer.new }
{
    let wide = Store::from(store);
    let all = widen_all(sites);
    let asked = Request::from(request);
    let d = serve(edition1(), wide, all, places, asked, input, buffer);
    let sites = narrow_first(d.sites, d.n);
    Decision1 {
        answer: d.answer,
        store: narrow_store(d.store),
        sites,
        n: d.n,
    }
}
