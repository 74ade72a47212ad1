// Rules: `bytes` reads numbers, `entries` decodes, `decoding` is a rule that is decoded, `refusals` checks the header and single entries, and
// `measuring` takes the entries together.
#![tactic(auto)]

ghost use Rattle.std.specs.Prelude.{◌≡◌};
ghost use Rattle.rule.specs.Measure.{answer, measured};

mod bytes;
mod decoding;
mod entries;
mod kind;
mod measuring;
mod refusals;

pub use bytes::byte_at;
pub use decoding::Rule;
pub use entries::entries_of;
pub use kind::{Kind, UnknownKind};
pub use measuring::{Ends, own_words};
use refusal::Refusal;
pub use refusals::{decode, is_misplaced};

// "kind (8 bits), letter (8 bits), low (32 bits), high (32 bits)"
#[derive(Clone, Copy, Debug, PartialEq, Eq)]
pub struct Entry {
    pub kind: u8,
    pub letter: u8,
    pub low: u32,
    pub high: u32,
}

// The words that a checkpoint needs for a rule, and the rule's reach.
#[derive(Clone, Copy, Debug, PartialEq, Eq)]
pub struct Measured {
    pub words: usize,
    pub reach: u64,
}

// Weigh: refusals 1 to 8, or the words and the reach.
pub fn measure(rule: &[u8]) -> Result<Measured, Refusal>
    ensures { answer result ≡ measured rule.now }
{
    decode(rule)?.measure()
}
