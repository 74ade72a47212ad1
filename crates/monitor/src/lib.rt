// Checkpoints over a growing log: open one for a rule, resume from it with the records at hand, close it when no record will follow,
// trim the log to the records that it still wants, and ask how far it has come.
#![tactic(auto)]

ghost use Rattle.std.specs.Prelude.{true, false, ◌≡◌, ◌++◌, ◌+◌, ◌≤◌, length, drop};
ghost use Rattle.checkpoint.specs.Checkpoint.{stored_noes};
ghost use Rattle.verdicts.specs.Counts.{latest_of};
ghost use Rattle.monitor.specs.Open.{Opens};
ghost use Rattle.monitor.specs.Open.{answer as opened_of};
ghost use Rattle.monitor.specs.Resume.{Resumes};
ghost use Rattle.monitor.specs.Resume.{answer as resumed_of};
ghost use Rattle.monitor.specs.Trim.{Trims};
ghost use Rattle.monitor.specs.Trim.{answer as trimmed_of};
ghost use Rattle.monitor.specs.Summary.{position, position_or, counts_of, latest_words, Summarizes};
ghost use Rattle.monitor.specs.Summary.{answer as summarized_of};
ghost use Rattle.monitor.specs.Formulas.{answer, formula_count};
ghost use Rattle.monitor.specs.Status.{known};
ghost use Rattle.monitor.specs.Status.{answer as standing_of};

use checkpoint::header;
use emit::Emitted;
use refusal::Refusal;

// The lent word of a latest position where there is none.
const NO_POSITION: u64 = u64::MAX;

// What `status` tells: the verdicts given, the records seen, the first record still wanted, and whether a closing was accepted.
#[derive(Clone, Copy, Debug, PartialEq, Eq)]
pub struct Standing {
    pub given: u64,
    pub seen: u64,
    pub wanted: u64,
    pub closed: bool,
}

// Writes a fresh checkpoint for the rule into the first words of those lent.
pub fn open(rule: &[u8], point: &mut [u64]) -> Result<(), Refusal>
    ensures { Opens rule.now point.old (opened_of result) point.new }
{
    let admitted = checks::admit(rule, point.len())?;
    checkpoint::fresh::write(&admitted.rule, &mut point[..admitted.words]);
    Ok(())
}

// Takes rule and log as far as the log goes, and writes the verdicts that are settled and not yet given: on a closed log all.
fn resume_or_close(
    rule: &[u8],
    log: &[u8],
    closing: bool,
    point: &mut [u64],
    sheet: &mut [u8],
) -> Result<Emitted, Refusal>
    ensures { Resumes closing rule.now log.now point.old sheet.old (resumed_of result) point.new sheet.new }
{
    let admitted = checks::admit(rule, point.len())?;
    checks::check_point(&admitted.rule, log, closing, point)?;
    let ends = admitted.rule.ends();
    Ok(emit::emit(
        &admitted.rule,
        &ends,
        admitted.rule.most_formulas(),
        admitted.rule.header_words(),
        admitted.rule.depth(),
        trace::records_from(log, point[header::WANTED]),
        trace::skips(log),
        closing,
        &mut point[..admitted.words],
        sheet,
    ))
}

// Carry on: writes the verdicts that are settled and not yet given. Gives how many they are, and whether more are settled.
pub fn resume(
    rule: &[u8],
    log: &[u8],
    point: &mut [u64],
    sheet: &mut [u8],
) -> Result<Emitted, Refusal>
    ensures { Resumes false rule.now log.now point.old sheet.old (resumed_of result) point.new sheet.new }
{
    resume_or_close(rule, log, false, point, sheet)
}

// Says that no record will follow: writes the verdicts that are not yet given, on the log as it ends.
pub fn close(
    rule: &[u8],
    log: &[u8],
    point: &mut [u64],
    sheet: &mut [u8],
) -> Result<Emitted, Refusal>
    ensures { Resumes true rule.now log.now point.old sheet.old (resumed_of result) point.new sheet.new }
{
    resume_or_close(rule, log, true, point, sheet)
}

// Writes the log trimmed to the records from the first still wanted on, as a version 3 log, and gives its length.
pub fn trim(rule: &[u8], log: &[u8], point: &[u64], out: &mut [u8]) -> Result<usize, Refusal>
    ensures { Trims rule.now log.now point.now out.old (trimmed_of result) out.new }
{
    let admitted = checks::admit(rule, point.len())?;
    checks::check_trimming(&admitted.rule, log, out.len(), point)?;
    let first = point[header::WANTED];
    let length = trace::write_trimmed(first, trace::records_from(log, first), out);
    Ok(length)
}

// The latest no, by one more than its position, and 0 for none.
fn latest_of(after: u64) -> Option<u64>
    ensures { position result ≡ latest_of after }
{
    after.checked_sub(1)
}

// Writes the counts of no and the latest positions of the first formulas, as the checkpoint has them.
fn write_noes(point: &[u64], most: usize, formulas: usize, no: &mut [u64], latest: &mut [u64])
    requires { (formulas ≤ most) × (8 + most + most ≤ length point.now) × (formulas ≤ length «no».old) × (formulas ≤ length latest.old) }
    ensures no_after { «no».new ≡ counts_of (stored_noes most point.now) formulas ++ drop formulas «no».old }
    ensures latest_after { latest.new ≡ latest_words (stored_noes most point.now) formulas ++ drop formulas latest.old }
{
    for k in 0..formulas {
        no[k] = point[header::NO_COUNT + k];
        latest[k] = latest_of(point[header::NO_COUNT + most + k]).unwrap_or(NO_POSITION);
    }
}

// For each formula the count of no among the verdicts given, and the latest of them, as the checkpoint has them. Gives how many formulas there
// are counts of.
pub fn summary(
    rule: &[u8],
    point: &[u64],
    no: &mut [u64; 8],
    latest: &mut [u64; 8],
) -> Result<u64, Refusal>
    ensures { Summarizes rule.now point.now «no».old latest.old (summarized_of result) «no».new latest.new }
{
    let admitted = checks::admit(rule, point.len())?;
    checks::check_words(&admitted.rule, point)?;
    let ends = admitted.rule.ends();
    let formulas = emit::columns_of(ends.number);
    write_noes(point, admitted.rule.most_formulas(), formulas, no, latest);
    Ok(formulas as u64)
}

// How far the checkpoint has come, as it has it.
pub fn status(rule: &[u8], point: &[u64]) -> Result<Standing, Refusal>
    ensures { standing_of result ≡ known rule.now point.now }
{
    let admitted = checks::admit(rule, point.len())?;
    checks::check_words(&admitted.rule, point)?;
    Ok(Standing {
        given: point[header::GIVEN],
        seen: point[header::SEEN],
        wanted: point[header::WANTED],
        closed: 0 < point[header::CLOSED_WITH],
    })
}

// How many answers a verdict of the rule has: one for each formula, and one where there is none.
pub fn formulas(rule: &[u8]) -> Result<u64, Refusal>
    ensures { answer result ≡ formula_count rule.now }
{
    let rule = rule::decode(rule)?;
    rule.measure()?;
    let ends = rule.ends();
    Ok(emit::columns_of(ends.number) as u64)
}
