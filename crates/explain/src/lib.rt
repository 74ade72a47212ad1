// The reason for a verdict, as text: document 02, paper 13.
#![tactic(auto)]

ghost use Rattle.std.specs.Prelude.{◌≡◌, ◌+◌, ◌≤◌, ◌<◌, List, length};
ghost use Rattle.mtl.specs.Formula.{Formula};
ghost use Rattle.rule.specs.Accepted.{WellFormed};
ghost use Rattle.trace.specs.Format.{record_count};
ghost use Rattle.window.specs.View.{total};
ghost use Rattle.window.specs.Window.{Keeps};
ghost use Rattle.engine.specs.Tops.{Ended};
ghost use Rattle.refusal.specs.Number.{number};
ghost use Rattle.checks.specs.Refusal.{whole_log_refusal};
ghost use Rattle.explain.specs.Explain.{answer, Explains};
ghost use Rattle.explain.specs.Code.{Prepared, AllAnswered, Reasons, ReasonsOf, CopiesOf};

use decimal::Text;
use engine::table::{NO_ROW, Row};
use refusal::Refusal;
use rule::{Ends, Rule};
use window::KeptCopy;
use window::view::View;

// Refusals 12, 24 and 14 of the log, 14 from the first record on.
fn check_log(log: &[u8]) -> Result<(), Refusal>
    ensures { number result ≡ whole_log_refusal log.now }
{
    if trace::is_malformed(log) {
        return Err(Refusal::LogFormat);
    }
    if 0 < trace::dropped(log) {
        return Err(Refusal::RecordDropped);
    }
    if trace::is_disordered(trace::records(log), 0, 0) {
        return Err(Refusal::TimeFalls);
    }
    Ok(())
}

// Whether every formula has answered the position.
fn all_answered(
    table: &[Row; 128],
    records: &[u8],
    view: &View,
    copy: &mut KeptCopy,
    waiting: &mut KeptCopy,
    words: &mut [u64],
    ends: &Ends,
    position: u64,
) -> bool
    requires { Prepared table.now view.now records.now words.old ends.now.at ends.now.number × Keeps records.now copy.old × Keeps records.now waiting.old × (position < 18446744073709551615) }
    ensures all_answered { AllAnswered table.now view.now records.now ends.now.at ends.now.number position result }
    ensures keeps { Keeps records.now copy.new × Keeps records.now waiting.new }
{
    for k in 0..ends.number {
        let scan = search::search(
            table,
            records,
            view,
            copy,
            waiting,
            ends.at[k] - 1,
            true,
            0,
            position + 1,
            words,
        );
        if scan.done <= position {
            return false;
        }
    }
    true
}

// Writes the reason of one formula at a position, or of the empty rule, where the formula exists and every formula has answered the position.
fn write_reason(
    table: &[Row; 128],
    records: &[u8],
    view: &View,
    words: &mut [u64],
    ends: &Ends,
    formula: u64,
    position: u64,
    text: &mut [u8],
) -> Option<usize>
    requires { Prepared table.now view.now records.now words.old ends.now.at ends.now.number × (length text.old ≡ 24576) × (total view.now ≤ 1000000) }
    ensures { Reasons table.now view.now records.now ends.now.at ends.now.number formula position text.old result text.new }
{
    let mut copy = KeptCopy::new();
    let mut waiting = KeptCopy::new();
    if (emit::columns_of(ends.number) as u64 <= formula) | (view.total <= position) {
        return None;
    }
    let answered = all_answered(
        table,
        records,
        view,
        &mut copy,
        &mut waiting,
        words,
        ends,
        position,
    );
    if !answered {
        return None;
    }
    let mut text = Text::new(text);
    if ends.number == 0 {
        text.put(b"empty\n");
        return Some(text.len());
    }
    telling::tell(
        table,
        records,
        view,
        &mut copy,
        &mut waiting,
        words,
        ends.at[formula as usize] - 1,
        position,
        &mut text,
    );
    Some(text.len())
}

// The same of a decoded rule.
fn reason_of(
    rule: &Rule,
    ends: &Ends,
    records: &[u8],
    skips: bool,
    formula: u64,
    position: u64,
    text: &mut [u8],
) -> Option<usize>
    requires { WellFormed rule.now.entries rule.now.count × (record_count records.now ≤ 1000000) × (length text.old ≡ 24576) × ((fs : List Formula) × Ended rule.now.entries rule.now.count ends.now.at ends.now.number fs) }
    ensures { ReasonsOf rule.now.entries rule.now.count ends.now.at ends.now.number skips records.now formula position text.old result text.new }
{
    let mut table = [NO_ROW; 128];
    engine::layout::lay_out(rule, &mut table);
    let view = View::of(records, 0, 0, skips, false);
    let mut words = [0u64; 8192];
    write_reason(
        &table, records, &view, &mut words, ends, formula, position, text,
    )
}

// Writes the reason into a text of its own, and copies it where the lent text has room for it. There is room for every reason: a rule has
// at most 8,192 words, an entry 16 of them or more, and its line at most 34 bytes. Gives the length of the text.
fn copy_reason(
    rule: &Rule,
    ends: &Ends,
    records: &[u8],
    skips: bool,
    formula: u64,
    position: u64,
    text: &mut [u8],
) -> Result<usize, Refusal>
    requires { WellFormed rule.now.entries rule.now.count × (record_count records.now ≤ 1000000) × ((fs : List Formula) × Ended rule.now.entries rule.now.count ends.now.at ends.now.number fs) }
    ensures { CopiesOf rule.now.entries rule.now.count ends.now.at ends.now.number skips records.now formula position text.old result text.new }
{
    let mut lines = [0u8; 24576];
    let Some(length) = reason_of(rule, ends, records, skips, formula, position, &mut lines) else {
        return Err(Refusal::NoReason);
    };
    if text.len() < length {
        return Err(Refusal::NoReason);
    }
    text[..length].copy_from_slice(&lines[..length]);
    Ok(length)
}

// Writes the reason for a formula's yes or no at a position of the log, and gives the length of its text.
pub fn explain(
    rule: &[u8],
    log: &[u8],
    formula: u64,
    position: u64,
    text: &mut [u8],
) -> Result<usize, Refusal>
    ensures { Explains rule.now log.now formula position text.old result text.new }
{
    let rule = rule::decode(rule)?;
    rule.measure()?;
    check_log(log)?;
    let ends = rule.ends();
    copy_reason(
        &rule,
        &ends,
        trace::records(log),
        trace::skips(log),
        formula,
        position,
        text,
    )
}
