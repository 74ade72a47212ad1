// Refusals 1 to 6, of a rule's header and of one entry (document 01, "Where a call stops").
ghost use Rattle.std.specs.Prelude.{◌≡◌};
ghost use Rattle.rule.specs.Refusal.{misshapen, misplaced};
ghost use Rattle.rule.specs.Decoded.{DecodesRule};

use super::{Entry, Rule, bytes, entries};
use refusal::Refusal;

// the largest low and finite high, in seconds
const LONGEST: u32 = 3600;

// Refusals 1, 2 and 4, or the decoded rule. Refusal 3 no longer occurs.
pub fn decode(rule: &[u8]) -> Result<Rule, Refusal>
    ensures { DecodesRule rule.now result }
{
    let version = entries::version_of(rule);
    let count = entries::entry_count(rule);
    let is_unmarked = (rule.len() < 8) | bytes::lacks_mark(rule, b"KRL");
    let is_malformed = (count > 128)
        | (bytes::byte_at(rule, 6) != 0)
        | (bytes::byte_at(rule, 7) != 0)
        | (rule.len() != 8 + count * 10);
    let is_unknown = !((version == 1) | (version == 2));
    if is_unmarked {
        return Err(Refusal::RuleMark);
    }
    if is_unknown {
        return Err(Refusal::RuleVersion);
    }
    if is_malformed {
        return Err(Refusal::RuleLength);
    }
    let entries = entries::entries_of(rule, count);
    Ok(Rule {
        version,
        count,
        entries,
    })
}

// Refusal 5, of one entry.
pub fn is_misshapen(e: Entry) -> bool
    ensures { result ≡ misshapen e }
{
    (e.kind > 6)
        | (e.letter > 31)
        | ((e.kind > 0) & (e.letter > 0))
        | ((e.kind < 3) & ((e.low > 0) | (e.high > 0)))
}

// Refusal 6, of one entry.
pub fn is_misplaced(e: Entry) -> bool
    ensures { result ≡ misplaced e }
{
    let unbounded = e.high == entries::UNBOUNDED;
    (e.low > LONGEST)
        | (e.low > e.high)
        | ((e.high > LONGEST) & !unbounded)
        | (unbounded & (e.kind == 6))
}
