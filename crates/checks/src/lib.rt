// Refusals 1 to 14 (3 no longer occurs) and 20 to 25 of a call on a checkpoint: the first that applies. Nothing is written.
#![tactic(auto)]

ghost use Rattle.std.specs.Prelude.{◌≡◌, ◌≤◌, length, ltb};
ghost use Rattle.refusal.specs.Number.{number};
ghost use Rattle.rule.specs.Words.{words as needed};
ghost use Rattle.checks.specs.Contract.{Admits};
ghost use Rattle.checks.specs.Refusal.{closes_more, other_version, version_refusal, records_refusal, log_refusal, trimming_refusal, words_refusal, point_refusal};
ghost use Rattle.trace.specs.Format.{total_records};
ghost use Rattle.trace.specs.Making.{trimmed};

use checkpoint::{header, words};
use refusal::Refusal;
use rule::Rule;

// A rule that is not refused, and the words that it needs: as many are lent.
#[derive(Clone, Copy)]
pub struct Admitted {
    pub rule: Rule,
    pub words: usize,
}

// Refusals 1 to 9.
pub fn admit(rule: &[u8], lent: usize) -> Result<Admitted, Refusal>
    ensures { Admits rule.now lent result }
{
    let rule = rule::decode(rule)?;
    let words = rule.measure()?.words;
    if lent < words {
        return Err(Refusal::ShortPoint);
    }
    Ok(Admitted { rule, words })
}

// Refusals 10 and 11.
pub fn check_words(rule: &Rule, point: &[u64]) -> Result<(), Refusal>
    requires { (rule.now.version ≤ 2) × (needed rule.now.version rule.now.entries rule.now.count ≤ length point.now) }
    ensures { number result ≡ words_refusal rule.now.version rule.now.entries rule.now.count point.now 0 }
{
    let faults = words::block_faults(rule, point);
    if words::is_foreign(rule, faults.copies, point) {
        return Err(Refusal::ForeignPoint);
    }
    if words::is_outside(rule, faults.ranges, point) {
        return Err(Refusal::PointRange);
    }
    Ok(())
}

// Refusal 22: a log of another version was noted.
fn is_other_version(log: &[u8], noted: u64) -> bool
    ensures { result ≡ other_version log.now noted }
{
    (0 < noted) & (noted != checkpoint::log_kind(trace::skips(log)))
}

// Refusals 12 and 22.
fn check_version(log: &[u8], point: &[u64]) -> Result<(), Refusal>
    requires { 16 ≤ length point.now }
    ensures { number result ≡ version_refusal log.now point.now 0 }
{
    if trace::is_malformed(log) {
        return Err(Refusal::LogFormat);
    }
    if is_other_version(log, point[header::LOG_KIND]) {
        return Err(Refusal::OtherVersion);
    }
    Ok(())
}

// Refusals 13, 21, 24 and 14.
fn check_records(log: &[u8], more: bool, point: &[u64]) -> Result<(), Refusal>
    requires { (16 ≤ length point.now) × (total_records log.now ≤ 1000000) }
    ensures { number result ≡ records_refusal more log.now point.now 0 }
{
    let seen = point[header::SEEN] as usize;
    let first = point[header::WANTED];
    if trace::total_records(log) < seen {
        return Err(Refusal::FewerRecords);
    }
    if more {
        return Err(Refusal::MoreRecords);
    }
    if first < trace::dropped(log) {
        return Err(Refusal::RecordDropped);
    }
    let wanted = trace::records_from(log, first);
    let behind = seen.saturating_sub(first as usize);
    if trace::is_disordered(wanted, behind, point[header::LAST]) {
        return Err(Refusal::TimeFalls);
    }
    Ok(())
}

// A closing is repeated with so many records, more than at the first.
fn closes_more(closing: bool, noted: u64, records: usize) -> bool
    ensures { result ≡ closes_more closing noted records }
{
    closing & ((0 < noted) & (noted <= records as u64))
}

// Refusal 20, and those of the log of a resume or a closing.
fn check_log(log: &[u8], closing: bool, point: &[u64]) -> Result<(), Refusal>
    requires { 16 ≤ length point.now }
    ensures { number result ≡ log_refusal closing log.now point.now }
{
    let noted = point[header::CLOSED_WITH];
    if !closing & (0 < noted) {
        return Err(Refusal::PointClosed);
    }
    check_version(log, point)?;
    let more = closes_more(closing, noted, trace::total_records(log));
    check_records(log, more, point)
}

// The log trimmed to the records from `first` on does not fit into so many bytes.
fn is_short(lent: usize, log: &[u8], first: u64) -> bool
    ensures { result ≡ ltb lent (length (trimmed log.now first)) }
{
    lent < 16 + trace::records_from(log, first).len()
}

// Refusals 23 and 25, and those of the log of a trimming into so many bytes.
fn check_trimmed(log: &[u8], lent: usize, point: &[u64]) -> Result<(), Refusal>
    requires { 16 ≤ length point.now }
    ensures { number result ≡ trimming_refusal lent log.now point.now }
{
    check_version(log, point)?;
    if !trace::skips(log) {
        return Err(Refusal::TrimVersion);
    }
    check_records(log, false, point)?;
    if is_short(lent, log, point[header::WANTED]) {
        return Err(Refusal::ShortLog);
    }
    Ok(())
}

// Refusals 10 to 14, 20 to 22 and 24.
pub fn check_point(rule: &Rule, log: &[u8], closing: bool, point: &[u64]) -> Result<(), Refusal>
    requires { (rule.now.version ≤ 2) × (needed rule.now.version rule.now.entries rule.now.count ≤ length point.now) }
    ensures { number result ≡ point_refusal closing rule.now.version rule.now.entries rule.now.count log.now point.now }
{
    check_words(rule, point)?;
    check_log(log, closing, point)
}

// Refusals 10 to 14 and 22 to 25, of a trimming into so many bytes.
pub fn check_trimming(rule: &Rule, log: &[u8], lent: usize, point: &[u64]) -> Result<(), Refusal>
    requires { (rule.now.version ≤ 2) × (needed rule.now.version rule.now.entries rule.now.count ≤ length point.now) }
    ensures { number result ≡ words_refusal rule.now.version rule.now.entries rule.now.count point.now (trimming_refusal lent log.now point.now) }
{
    check_words(rule, point)?;
    check_trimmed(log, lent, point)
}
