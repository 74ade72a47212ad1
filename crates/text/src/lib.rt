// Rules typed as text (paper 1): a text becomes a version 1 rule, or one refusal.
#![tactic(auto)]

ghost use Rattle.text.specs.Parse.{Parses};

mod entries;
mod level;
mod token;

use entries::{Buffer, MOST};
use refusal::Refusal;

// the most bytes of a text
const LONGEST: usize = 1024;

// Writes the rule that the text says, and gives the number of its bytes.
pub fn parse(text: &[u8], rule: &mut [u8]) -> Result<usize, Refusal>
    ensures { Parses text.now rule.old result rule.new }
{
    if text.len() > LONGEST {
        return Err(Refusal::UnknownWord);
    }
    if token::any_unknown(text) {
        return Err(Refusal::UnknownWord);
    }
    let mut out = Buffer::new();
    let behind = level::ors(text, 0, false, &mut out).ok_or(Refusal::NotDerived)?;
    if token::token_at(text, behind).is_some() {
        return Err(Refusal::NotDerived);
    }
    if out.count > MOST {
        return Err(Refusal::RuleLength);
    }
    out.bytes[5] = out.count as u8;
    let size = 8 + out.count * 10;
    let bytes = &out.bytes[..size];
    let _ = rule::measure(bytes)?;
    if rule.len() < size {
        return Err(Refusal::ShortRule);
    }
    rule[..size].copy_from_slice(bytes);
    Ok(size)
}
