// The text that the program prints for a rule and a log (document 01, "A full run"), written into a lent buffer.
#![tactic(auto)]

ghost use Rattle.std.specs.Prelude.{◌≡◌, ◌*◌, ◌≤◌, ◌<◌, false, length};
ghost use Rattle.decimal.specs.Text.{verdict_word, Writes};
ghost use Rattle.decimal.specs.Written.{Room, Puts};
ghost use Rattle.refusal.specs.Number.{number_of};
ghost use Rattle.report.specs.Report.{refused_text, first_line, verdict_words, line, lines, too_long, report as Report·report};
ghost use Rattle.report.specs.Run.{Runs};

use decimal::Text;
use refusal::Refusal;

// "a file above 65,536 bytes prints `too long`"
fn is_too_long(rule: &[u8], log: &[u8]) -> bool
    ensures { result ≡ too_long rule.now log.now }
{
    (65536 < rule.len()) | (65536 < log.len())
}

// `refused` and the number.
#[tactic(auto, using(decimal::proofs::Decimals::ten_digits))]
fn put_refused(refusal: Refusal, text: &mut Text)
    requires { Room text.old 19 }
    ensures { Puts text.old (refused_text (number_of refusal)) text.new }
{
    text.put(b"refused ");
    text.put_number(refusal.number() as usize);
    text.put(b"\n");
}

// The first line: verdicts given and records, each of four digits at most.
#[tactic(auto, using(decimal::proofs::Decimals::four_digits))]
fn put_counts(given: usize, records: usize, text: &mut Text)
    requires { (given < 10000) × (records < 10000) × Room text.old 22 }
    ensures { Puts text.old (first_line given records) text.new }
{
    text.put(b"verdicts ");
    text.put_number(given);
    text.put(b" of ");
    text.put_number(records);
    text.put(b"\n");
}

// One space, and yes or no.
#[tactic(auto, unfolding(decimal::specs::Text::ascii))]
fn put_word(holds: bool, text: &mut Text)
    requires { Room text.old 4 }
    ensures { Puts text.old (verdict_word holds) text.new }
{
    if holds {
        text.put(b" yes");
    } else {
        text.put(b" no");
    }
}

// The word of each formula, in rule order.
#[tactic(auto, using(crate::proofs::Lines::short_words))]
fn put_words(verdict: u8, columns: usize, text: &mut Text)
    requires { (columns ≤ 8) × Room text.old (columns * 4) }
    ensures { Puts text.old (verdict_words verdict columns) text.new }
{
    for k in 0..columns {
        put_word(bits::test(u64::from(verdict), k as u64), text);
    }
}

// A position and its verdict.
#[tactic(auto, using(decimal::proofs::Decimals::four_digits, crate::proofs::Lines::short_words))]
fn put_line(position: usize, columns: usize, verdict: u8, text: &mut Text)
    requires { (position < 10000) × (columns ≤ 8) × Room text.old 37 }
    ensures { Puts text.old (line position columns verdict) text.new }
{
    text.put_number(position);
    put_words(verdict, columns, text);
    text.put(b"\n");
}

// A line for each verdict.
#[tactic(auto, using(crate::proofs::Lines::short_lines))]
fn put_lines(verdicts: &[u8], columns: usize, text: &mut Text)
    requires { (length verdicts.now < 10000) × (columns ≤ 8) × Room text.old (length verdicts.now * 37) }
    ensures { Puts text.old (lines columns verdicts.now (length verdicts.now)) text.new }
{
    for (i, verdict) in verdicts.iter().enumerate() {
        put_line(i, columns, *verdict, text);
    }
}

// What a run gave: how many verdicts stand on the sheet, and how many words a line has.
#[derive(Clone, Copy)]
struct Given {
    verdicts: usize,
    columns: usize,
}

// Opens a checkpoint and carries on once.
fn run(rule: &[u8], log: &[u8], sheet: &mut [u8; 8191]) -> Result<Given, Refusal>
    requires { too_long rule.now log.now ≡ false }
    ensures { Runs rule.now log.now result sheet.new }
{
    let mut point = [0u64; 8192];
    monitor::open(rule, &mut point)?;
    let emitted = monitor::resume(rule, log, &mut point, sheet)?;
    let columns = monitor::formulas(rule)?;
    Ok(Given {
        verdicts: emitted.count,
        columns: columns as usize,
    })
}

// The whole text. There is room for every text: the first line has at most 22 bytes, and each of 8,191 others at most 37.
fn put_report(rule: &[u8], log: &[u8], text: &mut Text)
    requires { Room text.old 303089 }
    ensures { Puts text.old (Report·report rule.now log.now) text.new }
{
    if is_too_long(rule, log) {
        text.put(b"too long\n");
        return;
    }
    let mut sheet = [0u8; 8191];
    match run(rule, log, &mut sheet) {
        Ok(given) => {
            put_counts(given.verdicts, trace::count(trace::records(log)), text);
            put_lines(&sheet[..given.verdicts], given.columns, text);
        }
        Err(refusal) => put_refused(refusal, text),
    }
}

// Opens a checkpoint, carries on once, and writes what comes of it; gives the text's length.
pub fn report(rule: &[u8], log: &[u8], text: &mut [u8; 303089]) -> usize
    ensures { Writes text.old 0 (Report·report rule.now log.now) result text.new }
{
    let mut text = Text::new(text);
    put_report(rule, log, &mut text);
    text.len()
}
