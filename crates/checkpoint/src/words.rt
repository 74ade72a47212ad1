// What the words of a checkpoint must be, refusals 10 and 11: a copy of the rule, and each word in its range. Nothing is written.
ghost use Rattle.std.specs.Prelude.{◌≡◌, ◌+◌, ◌-◌, ◌≤◌, ◌<◌, length, drop, eqb, ◌&&◌, ◌||◌, not as negate};
ghost use Rattle.mtl.specs.Satisfaction.{any};
ghost use Rattle.rule.specs.Words.{header_words, own};
ghost use Rattle.rule.specs.Words.{words as needed};
ghost use Rattle.checkpoint.specs.Checkpoint.{format, kind_of_log, copy_start, copy_head, copy_ends, copy_differs, room, block_in_range, waiting_in_range, block_outside, noes_outside, closed_in_range, kind_in_range, header_in_range};
ghost use Rattle.verdicts.specs.Counts.{noes_in_range};
ghost use Rattle.blocks.specs.Block.{word, cells_of};
ghost use Rattle.rule.specs.Postfix.{most_formulas};

use super::header;
use blocks::word;
use rule::{Entry, Rule};

// What one walk over the blocks finds.
#[derive(Clone, Copy)]
pub struct Faults {
    pub copies: bool,
    pub ranges: bool,
}

// The number in a checkpoint's first word: the bytes HAVD, and the format's number.
pub const FORMAT: u64 = 5206537494274768903;

// A rule's version and its number of entries, as a checkpoint keeps them.
pub fn copy_start(rule: &Rule) -> u64
    requires { rule.now.version ≤ 2 }
    ensures { result ≡ copy_start rule.now.version rule.now.count }
{
    rule.version as u64 * 256 + rule.count as u64
}

// An entry's kind and letter, as its block keeps them.
pub fn head_of(e: Entry) -> u64
    ensures { result ≡ copy_head e }
{
    u64::from(e.kind) * 256 + u64::from(e.letter)
}

// An entry's low and high, as its block keeps them.
pub fn ends_of(e: Entry) -> u64
    ensures { result ≡ copy_ends e }
{
    u64::from(e.low) * 4294967296 + u64::from(e.high)
}

// The block that begins at `at` has another copy than the entry's.
fn copy_differs(e: Entry, point: &[u64], at: usize) -> bool
    requires { at + 16 ≤ length point.now }
    ensures { result ≡ negate (eqb (word point.now (at + 14)) (copy_head e) && eqb (word point.now (at + 15)) (copy_ends e)) }
{
    !((point[at + word::COPY_HEAD] == head_of(e)) & (point[at + word::COPY_ENDS] == ends_of(e)))
}

// Refusal 10, where it is known whether some block has another copy than its entry's.
pub fn is_foreign(rule: &Rule, copies: bool, point: &[u64]) -> bool
    requires { (rule.now.version ≤ 2) × (16 ≤ length point.now) }
    ensures { result ≡ negate (eqb (word point.now 0) format) || (negate (eqb (word point.now 4) (copy_start rule.now.version rule.now.count)) || copies) }
{
    (point[header::FORMAT] != FORMAT) | ((point[header::COPY_START] != copy_start(rule)) | copies)
}

// count positions from `at` on lie within so many.
fn has_room(at: u64, count: u64, total: u64) -> bool
    ensures { result ≡ room at count total }
{
    (count <= total) && (at <= total - count)
}

// The ring's cells of an entry.
fn cells(e: Entry) -> u64
    ensures { result ≡ cells_of e.kind e.high }
{
    if e.kind == 5 {
        rule::own_words(e) - 16
    } else {
        0
    }
}

// The words of the block that begins at `at` lie in their ranges.
fn block_fits(given: u64, size: u64, cells: u64, point: &[u64], at: usize) -> bool
    requires { at + 16 ≤ length point.now }
    ensures { result ≡ block_in_range given size cells (drop at point.now) }
{
    (point[at] <= size)
        & (point[at + word::LEFT_COUNT] <= 64)
        & (point[at + word::RIGHT_COUNT] <= 64)
        & (point[at + word::ANSWERED] <= size)
        & (point[at + word::LAST_LEFT] <= 1)
        & (point[at + word::LAST_RIGHT] <= 1)
        & (point[at + word::LAST_TIME] < 4294967296)
        & (point[at + word::RING_START] <= cells)
        & (point[at + word::RING_COUNT] <= cells)
        & (point[at + word::HEAD] <= size)
        & (point[at + word::HELD_COUNT] <= 64)
        & has_room(given, point[at + word::HELD_COUNT], size)
}

// The second head of an until, in the block that begins at `at`, stands among so many records.
fn waiting_fits(e: Entry, size: u64, point: &[u64], at: usize) -> bool
    requires { at + own e ≤ length point.now }
    ensures { result ≡ waiting_in_range e.kind size (drop at point.now) }
{
    (e.kind != 6) || (point[at + word::WAITING_HEAD] <= size)
}

// What is wrong with some entry's block: it has another copy than the entry's, or a word outside its range.
pub fn block_faults(rule: &Rule, point: &[u64]) -> Faults
    requires { needed rule.now.version rule.now.entries rule.now.count ≤ length point.now }
    ensures copies { result.copies ≡ any rule.now.count (copy_differs (header_words rule.now.version) rule.now.entries point.now) }
    ensures ranges { result.ranges ≡ any rule.now.count (block_outside (header_words rule.now.version) rule.now.entries point.now) }
{
    let given = point[header::GIVEN];
    let size = point[header::SEEN];
    let mut at = rule.header_words();
    let mut copies = false;
    let mut ranges = false;
    for k in 0..rule.count {
        let e = rule.entries[k];
        copies = copies | copy_differs(e, point, at);
        ranges = ranges
            | !(block_fits(given, size, cells(e), point, at) & waiting_fits(e, size, point, at));
        at += rule::own_words(e) as usize;
    }
    Faults { copies, ranges }
}

// The count of no and the end of the latest are among so many verdicts, and both are 0 or neither is.
fn noes_fit(given: u64, count: u64, after: u64) -> bool
    ensures { result ≡ noes_in_range given count after }
{
    (count <= given) & (after <= given) & ((count == 0) == (after == 0))
}

// Of some formula, of the most that the rule may have, the count of no and the end of the latest are not so.
fn some_noes_outside(most: usize, point: &[u64]) -> bool
    requires { 8 + most + most ≤ length point.now }
    ensures { result ≡ any most (noes_outside most point.now) }
{
    let given = point[header::GIVEN];
    let mut outside = false;
    for k in 0..most {
        let at = header::NO_COUNT + k;
        outside = outside | !noes_fit(given, point[at], point[header::NO_COUNT + most + k]);
    }
    outside
}

// No closing was accepted, or one of as many records as were seen.
fn closed_fits(noted: u64, seen: u64) -> bool
    ensures { result ≡ closed_in_range noted seen }
{
    (noted == 0) || (noted - 1 == seen)
}

// A log's version is noted wherever a record was seen or a closing accepted.
fn kind_fits(kind: u64, seen: u64, noted: u64) -> bool
    ensures { result ≡ kind_in_range kind seen noted }
{
    (kind <= 2) & ((0 < kind) | ((seen == 0) & (noted == 0)))
}

// What a checkpoint notes of a log's version: 2 where it has service records, else 1.
pub fn log_kind(skips: bool) -> u64
    ensures { result ≡ kind_of_log skips }
{
    if skips { 2 } else { 1 }
}

// Refusal 11, where it is known whether some block has a word outside its range.
pub fn is_outside(rule: &Rule, ranges: bool, point: &[u64]) -> bool
    requires { (16 ≤ length point.now) × (header_words rule.now.version ≤ length point.now) }
    ensures { result ≡ negate (header_in_range (most_formulas rule.now.version) point.now) || ranges }
{
    let most = rule.most_formulas();
    let seen = point[header::SEEN];
    let fits = (seen <= 1000000)
        & (point[header::GIVEN] <= seen)
        & (point[header::LAST] < 4294967296)
        & closed_fits(point[header::CLOSED_WITH], seen)
        & kind_fits(point[header::LOG_KIND], seen, point[header::CLOSED_WITH])
        & (point[header::WANTED] <= seen)
        & !some_noes_outside(most, point);
    !fits | ranges
}
