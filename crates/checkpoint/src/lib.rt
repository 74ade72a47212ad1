// The words of a checkpoint: their names, a fresh one, and what they must be.
#![tactic(auto)]

pub mod fresh;
pub mod header;
pub mod words;

pub use words::log_kind;
