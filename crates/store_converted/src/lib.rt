// No code: what a store writes out after it has gone over to edition 2, and what the converter makes of what it wrote out before (specs/Converted), are the same.
#![tactic(auto)]
