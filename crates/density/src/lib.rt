// The definition of document 01 and its theorems stand in specs/ and proofs/. There is no function here; this is the site that they speak of.
#![tactic(auto)]

#[derive(Clone, Copy)]
pub struct Site {
    pub first: u8,
    pub second: u8,
    pub litres: u32,
}
