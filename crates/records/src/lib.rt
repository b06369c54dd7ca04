// Lists and plans as values, and as bytes.
#![tactic(auto)]

ghost use Rattle.std.specs.Prelude.{◌≡◌};
ghost use Rattle.std.proofs.Math.Option.{none};
ghost use Rattle.density.specs.Network.{no_site};
ghost use Rattle.records.specs.Format.{edition1, edition2};
ghost use Rattle.records.specs.Values.{roll_array};

use density::Site;
pub use refusal::Refusal;

pub mod number;
pub mod refusal;
pub mod roll;
pub mod scan;

// A roll as a value, or none: where it is there, the crews of each depot.
// Kept: no `Option`, since the bytes of a store hold 64 crews beside the flag, also where it is 0.
#[derive(Clone, Copy)]
pub struct RollArray {
    pub there: bool,
    pub crews: [u8; 64],
}

// A list as a value: its first `count` places are the sites.
// Kept: a count beside an array, here and in a plan, since memory is fixed and nothing is on the heap.
#[derive(Clone, Copy)]
pub struct ListArray {
    pub count: usize,
    pub sites: [Site; 512],
    pub roll: RollArray,
}

// A plan as a value: its first `count` places of `groups` are the sets, heaviest first; `shares` has one for each site of the list.
#[derive(Clone, Copy)]
pub struct PlanArray {
    pub count: usize,
    pub groups: [u64; 64],
    pub shares: [u64; 512],
}

// The marks of an edition's records, as numbers of two bytes.
#[derive(Clone, Copy)]
pub struct Marks {
    pub list: u64,
    pub site: u64,
    pub plan: u64,
    pub group: u64,
    pub share: u64,
    pub roll: u64,
}

// An edition of the two formats: its marks, the bytes of a site's litres and of a share, and whether a list may end in a roll.
// Kept: no invariant holds the widths, and `roll` is a flag: the definitions and the theorems speak of any edition.
#[derive(Clone, Copy)]
pub struct Edition {
    pub mark: Marks,
    pub litres: usize,
    pub share: usize,
    pub roll: bool,
}

// No roll.
pub fn no_roll() -> RollArray
    ensures { result ≡ roll_array none }
{
    RollArray {
        there: false,
        crews: [0u8; 64],
    }
}

// Edition 1.
pub fn edition1() -> Edition
    ensures { result ≡ edition1 }
{
    let mark = Marks {
        list: 0x534C,
        site: 0x5453,
        plan: 0x4C50,
        group: 0x5247,
        share: 0x4853,
        roll: 0x5244,
    };
    Edition {
        mark,
        litres: 2,
        share: 4,
        roll: false,
    }
}

// Edition 2.
pub fn edition2() -> Edition
    ensures { result ≡ edition2 }
{
    let mark = Marks {
        list: 0x324C,
        site: 0x3253,
        plan: 0x3250,
        group: 0x5247,
        share: 0x3353,
        roll: 0x5244,
    };
    Edition {
        mark,
        litres: 4,
        share: 8,
        roll: true,
    }
}

// The record found at a position: its mark, its body, and the position behind it.
#[derive(Clone, Copy)]
pub struct Found {
    pub mark: u64,
    pub body: u64,
    pub next: usize,
}

// What a place without a site holds. As a function's answer it is one number to the compiler, which then fills 512 places at once.
pub fn no_site() -> Site
    ensures { result ≡ no_site }
{
    Site {
        first: 0,
        second: 0,
        litres: 0,
    }
}

// The lengths of a list and of a plan that were written.
#[derive(Clone, Copy)]
pub struct Lengths {
    pub list: usize,
    pub plan: usize,
}

// What a roll's record says: whether its mark is wrong, and the roll; or there is none.
// Kept: `mark`, and the flags of `SitesRead`, are what tests found, beside a value that is always there.
#[derive(Clone, Copy)]
pub struct RollRead {
    pub mark: bool,
    pub roll: RollArray,
}

// What the records of a list say: the sites, and whether a mark is wrong, a depot is above 63, or litres are 0.
#[derive(Clone, Copy)]
pub struct SitesRead {
    pub sites: [Site; 512],
    pub marks: bool,
    pub depots: bool,
    pub litres: bool,
}
