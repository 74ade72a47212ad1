// What one entry of a rule says at a position of a whole log, and the line of text that says it: document 02, paper 13.
#![tactic(auto)]

pub mod saying;
pub mod sentence;
