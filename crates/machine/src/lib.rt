// The machine that steps run on: sixteen registers by value, slots, memories and an output word (document 01, module 6).
#![tactic(auto)]

pub mod registers;
pub mod steps;
