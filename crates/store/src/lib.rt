// The desk of document 01 (here: store): what each call does, over a table of sites that the caller lends.
#![tactic(auto)]

use density::Site;
use held_state::Store;
use records::Refusal;

pub mod decide;

// What a call asks for. The number of `AtLeast` is a threshold in litres per crew (document 02: a mark). `Written` is the plan written out, `ListWritten` the list (document 02, b).
#[derive(Clone, Copy)]
pub enum Request {
    Load,
    Change(usize, u32),
    Add(u8, u8, u32),
    Propose,
    Share(usize),
    Depot(u8),
    Difference(u8, u8),
    Written,
    AtLeast(u32),
    ListWritten,
}

// What a call answers where no row refuses it.
#[derive(Clone, Copy, PartialEq, Eq)]
pub enum Answer {
    Done,
    Share(u64, u64),
    Depot(u64, u64),
    Difference(i64, u64),
    Length(usize),
    Reached(u64),
}

// What a call does: its answer, the store after it, and the sites of which the first n go to the table.
#[derive(Clone, Copy)]
pub struct Decision {
    pub answer: Result<Answer, Refusal>,
    pub store: Store,
    pub sites: [Site; 512],
    pub n: usize,
}
