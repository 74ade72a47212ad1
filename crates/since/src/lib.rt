// since: the times of the witnesses still alive, in a ring.
#![tactic(auto)]

ghost use Rattle.std.specs.Prelude.{◌≡◌, true, cond, ◌&&◌, ℕ, ◌+◌, ◌-◌, ◌*◌, ◌≤◌, ◌<◌, ◌^◌, ltb, List, length, unwrap_or, is_some};
ghost use Rattle.std.specs.Int.Bits.{bit_and, bit_or};
ghost use Rattle.mtl.specs.Formula.{Formula};
ghost use Rattle.mtl.specs.Formula.Formula.{since};
ghost use Rattle.trace.specs.Format.{record_count, time_at, times_from};
ghost use Rattle.window.specs.View.{Views};
ghost use Rattle.window.specs.Window.{window_of, Keeps};
ghost use Rattle.blocks.specs.Block.{left_bits, right_bits};
ghost use Rattle.blocks.specs.Step.{Steps, Ends};
ghost use Rattle.rule.specs.Words.{ring_words};
ghost use Rattle.blocks.specs.Ring.{Ring, Rings, Turns, newest_at, oldest_of, in_reach, word_turned, Rises, Takes};
ghost use Rattle.since.specs.Old.{old_enough, FirstOld};
ghost use Rattle.bits.specs.Packed.{bit, Packed, FilledUp};

use blocks::{Batch, Step, word};
use window::view::View;
use window::{KeptCopy, Window};

// Up to so many runs are gone through one by one.
const FEW_RUNS: u64 = 6;

// The turns of n positions of a window, where left and right are the operands' words of answers; gives the since's.
fn turn_all(
    low: u64,
    high: u64,
    window: &[u8],
    n: usize,
    left: u64,
    right: u64,
    block: &mut [u64],
) -> u64
    requires { (high < 2 ^ 32) × (16 + ring_words high ≤ length block.old) × (n ≤ record_count window.now) × (n ≤ 64) }
    ensures { Turns low high (time_at window.now) left right n block.old result block.new }
{
    let cells = ring::cells_for(high);
    let mut answers: u64 = 0;
    for i in 0..n {
        let now = trace::time(window, i);
        let left_holds = bits::test(left, i as u64);
        let right_holds = bits::test(right, i as u64);
        let holds = ring::turn(cells, low, high, left_holds, right_holds, now, block);
        answers = bits::push(answers, i as u64, holds);
    }
    answers
}

// The time of the last of n positions that is marked, or `first` where none is.
fn newest_marked(window: &[u8], n: usize, marks: u64, first: u64) -> u64
    requires { (n ≤ record_count window.now) × (n ≤ 64) }
    ensures { (result ≡ newest_at (time_at window.now) marks first n) × (first ≤ 4294967296 → result ≤ 4294967296) }
{
    let behind = bits::find_last_zero(!marks, n as u64);
    if behind == 0 {
        return first;
    }
    trace::time(window, behind as usize - 1)
}

// Which of up to eight positions from `from` on lie at least low after the last of them that is marked, or after `last` where none is.
fn find_group(low: u64, window: &[u8], from: usize, n: usize, marks: u64, last: u64) -> u64
    requires { (0 < low) × (low ≤ 4294967296) × (last ≤ 4294967296) × (from + n ≤ record_count window.now) × (n ≤ 8) }
    ensures { (result < 2 ^ n) × Packed (old_enough low (times_from window.now from) marks last) 0 n result }
{
    let mut due = last + low;
    let mut answers: u64 = 0;
    for i in 0..n {
        let now = trace::time(window, from + i);
        if bits::test(marks, i as u64) {
            due = now + low;
        }
        answers = bits::push(answers, i as u64, due <= now);
    }
    answers
}

// Which of n positions lie at least low after the last that is marked, or after `first` where none is. Eight at a time, since a group of known
// size is compiled without a loop.
fn find_by_groups(low: u64, window: &[u8], n: usize, marks: u64, first: u64) -> u64
    requires { (0 < low) × (low ≤ 4294967296) × (first ≤ 4294967296) × (n ≤ record_count window.now) × (n ≤ 64) }
    ensures { Packed (old_enough low (time_at window.now) marks first) 0 n result }
{
    let mut answers: u64 = 0;
    for group in 0..n / 8 {
        let from = group * 8;
        let last = newest_marked(window, from, marks, first);
        answers += find_group(low, window, from, 8, marks >> from as u64, last) << from as u64;
    }
    let rest = n % 8;
    if rest != 0 {
        let from = n - rest;
        let last = newest_marked(window, from, marks, first);
        answers += find_group(low, window, from, rest, marks >> from as u64, last) << from as u64;
    }
    answers
}

// The first of the positions from `from` to `end` that lies at least low after `last`; `end` where none does.
fn find_old(low: u64, window: &[u8], from: usize, end: usize, last: u64) -> usize
    requires { (from ≤ end) × (end ≤ record_count window.now) }
    ensures { FirstOld low last (time_at window.now) from end result }
{
    for i in from..end {
        if low <= trace::time(window, i).saturating_sub(last) {
            return i;
        }
    }
    end
}

// As find_by_groups, from one run of positions without a mark to the one before it. Times never fall, so that those of a run that are old
// enough are its last.
fn find_by_runs(low: u64, window: &[u8], n: usize, marks: u64, first: u64) -> u64
    requires { (0 < low) × (n ≤ record_count window.now) × (n ≤ 64) }
    ensures { Rises (time_at window.now) n first → Packed (old_enough low (time_at window.now) marks first) 0 n result }
{
    let mut answers: u64 = 0;
    let mut end = bits::find_last_zero(marks, n as u64);
    while 0 < end {
        let from = bits::find_last_zero(!marks, end);
        let last = newest_marked(window, end as usize, marks, first);
        let old = find_old(low, window, from as usize, end as usize, last);
        answers = answers | bits::ones_between(old as u64, end);
        end = bits::find_last_zero(marks, from);
    }
    answers
}

// As find_by_groups, by runs where there are few of them, or where low and a time might not add up.
fn find_late(low: u64, window: &[u8], n: usize, marks: u64, first: u64) -> u64
    requires { (0 < low) × (n ≤ record_count window.now) × (n ≤ 64) }
    ensures { Rises (time_at window.now) n first → Packed (old_enough low (time_at window.now) marks first) 0 n result }
{
    let runs = bits::count_zeros(marks | !(marks << 1), n as u64);
    if (FEW_RUNS < runs) & (low <= ring::NO_TIME) & (first <= ring::NO_TIME) {
        return find_by_groups(low, window, n, marks, first);
    }
    find_by_runs(low, window, n, marks, first)
}

// Those that `alive` has and that lie at most high after the last right; all that it has where the last lies at most high after `first`.
fn keep_reached(high: u64, window: &[u8], n: usize, right: u64, first: u64, alive: u64) -> u64
    requires { (high < 2 ^ 32) × (0 < n) × (n ≤ record_count window.now) × (n ≤ 64) }
    ensures { Rises (time_at window.now) n first → Packed (λ i. bit alive i && in_reach 0 high (time_at window.now) right first i) 0 n result }
{
    if trace::time(window, n - 1).saturating_sub(first) <= high {
        return alive;
    }
    alive & !find_late(high + 1, window, n, right, first)
}

// Behind which positions a witness is alive, where `begun` is 1 if one was before them.
fn find_alive(left: u64, right: u64, begun: u64) -> u64
    ensures { FilledUp left (bit_or right (bit_and left begun)) result }
{
    bits::fill_up(left, right | (left & begun))
}

// n positions by whole words, where low is 0: the newest witness alone is kept.
fn take_word(high: u64, window: &[u8], n: usize, left: u64, right: u64, block: &mut [u64]) -> u64
    requires { (high < 2 ^ 32) × (16 + ring_words high ≤ length block.old) × (0 < n) × (n ≤ record_count window.now) × (n ≤ 64) }
    ensures { Takes 0 high (time_at window.now) left right n block.old result block.new }
{
    let newest = ring::newest(ring::cells_for(high), block);
    let first = newest.unwrap_or(trace::time(window, 0));
    let begun = bits::flag(newest.is_some());
    let alive = find_alive(left, right, begun);
    let answers = keep_reached(high, window, n, right, first, alive);
    let last = bits::test(answers, n as u64 - 1);
    ring::put_one(last, newest_marked(window, n, right, first), block);
    answers
}

// The ring after n positions of which none drops a time.
fn turn_word(high: u64, window: &[u8], n: usize, left: u64, right: u64, block: &mut [u64])
    requires { (high < 2 ^ 32) × (16 + ring_words high ≤ length block.old) × (n ≤ record_count window.now) × (n ≤ 64) }
    ensures { Rings (ring_words high) (word_turned (ring_words high) (time_at window.now) left right n) block.old block.new }
{
    let after = bits::find_last_zero(left, n as u64);
    ring::keep_if(after == 0, block);
    let from = after.saturating_sub(1) as usize;
    ring::push_all(ring::cells_for(high), window, from, n, right, block);
}

// n positions by whole words, where low is above 0 and the last lies at most high after `first`, the oldest witness or the first of the
// positions: the oldest witness decides. It is another one wherever left fails or none was alive before.
fn take_inside(
    low: u64,
    high: u64,
    window: &[u8],
    n: usize,
    left: u64,
    right: u64,
    oldest: Option<u64>,
    block: &mut [u64],
) -> u64
    requires { (0 < low) × (high < 2 ^ 32) × (16 + ring_words high ≤ length block.old) × (0 < n) × (n ≤ record_count window.now) × (n ≤ 64) × (time_at window.now (n - 1) - unwrap_or oldest (time_at window.now 0) ≤ high) }
    ensures { ((qs : List ℕ) → Ring (ring_words high) block.old qs → (unwrap_or oldest (time_at window.now 0) ≡ oldest_of (time_at window.now 0) qs) × (is_some oldest ≡ ltb 0 (length qs))) → Takes low high (time_at window.now) left right n block.old result block.new }
{
    let first = oldest.unwrap_or(trace::time(window, 0));
    let begun = bits::flag(oldest.is_some());
    let alive = find_alive(left, right, begun);
    let marks = !(left & ((alive << 1) | begun));
    let old = find_late(low, window, n, marks, first);
    turn_word(high, window, n, left, right, block);
    alive & old
}

// n positions where low is above 0: by whole words where none drops a time, else by turns.
fn take_late(
    low: u64,
    high: u64,
    window: &[u8],
    n: usize,
    left: u64,
    right: u64,
    block: &mut [u64],
) -> u64
    requires { (0 < low) × (high < 2 ^ 32) × (16 + ring_words high ≤ length block.old) × (0 < n) × (n ≤ record_count window.now) × (n ≤ 64) }
    ensures { Takes low high (time_at window.now) left right n block.old result block.new }
{
    let oldest = ring::oldest(ring::cells_for(high), block);
    let first = oldest.unwrap_or(trace::time(window, 0));
    if trace::time(window, n - 1).saturating_sub(first) <= high {
        return take_inside(low, high, window, n, left, right, oldest, block);
    }
    turn_all(low, high, window, n, left, right, block)
}

// n positions, by whole words where that can be.
fn take_all(
    low: u64,
    high: u64,
    window: &[u8],
    n: usize,
    left: u64,
    right: u64,
    block: &mut [u64],
) -> u64
    requires { (high < 2 ^ 32) × (16 + ring_words high ≤ length block.old) × (0 < n) × (n ≤ record_count window.now) × (n ≤ 64) }
    ensures { Takes low high (time_at window.now) left right n block.old result block.new }
{
    if low == 0 {
        return take_word(high, window, n, left, right, block);
    }
    take_late(low, high, window, n, left, right, block)
}

// The n positions that both operands have answered.
fn take_window<'a>(
    low: u64,
    high: u64,
    window: Window,
    records: &'a [u8],
    copy: &'a KeptCopy,
    n: u64,
    block: &mut [u64],
) -> u64
    requires { (high < 2 ^ 32) × (16 + ring_words high ≤ length block.old) × (window.dense ≡ true → window.at * 8 ≤ length records.now) × (n ≤ record_count (window_of window records.now copy.now)) × (0 < n) × (n ≤ 64) }
    ensures { Takes low high (time_at (window_of window records.now copy.now)) (left_bits block.old) (right_bits block.old) n block.old result block.new }
{
    let left = block[word::LEFT_BITS];
    let right = block[word::RIGHT_BITS];
    let read = window::read(window, records, copy);
    take_all(low, high, read, n as usize, left, right, block)
}

// Takes as many positions as both operands have answered.
pub fn step_since(
    low: u64,
    high: u64,
    records: &[u8],
    view: &View,
    copy: &mut KeptCopy,
    block: &mut [u64],
) -> Step
    requires { (high < 2 ^ 32) × (16 + ring_words high ≤ length block.old) × Keeps records.now copy.old × Views view.now records.now }
    ensures ends { Ends true true view.now block.old result block.new }
    ensures steps { (φ ψ : Formula) → Steps (since low high φ ψ) view.now records.now block.old result block.new }
    ensures keeps { Keeps records.now copy.new }
{
    let at = block[word::TAKEN];
    if block[word::LEFT_COUNT] == 0 {
        return Step::Left;
    }
    if block[word::RIGHT_COUNT] == 0 {
        return Step::Right;
    }
    let both = block[word::LEFT_COUNT].min(block[word::RIGHT_COUNT]);
    let count = blocks::available(at, both, view.total);
    if count == 0 {
        return Step::Open;
    }
    let head = block[word::HEAD];
    let window = window::open(records, view, head, count, copy);
    let bits = take_window(low, high, window, records, copy, count, block);
    blocks::take_both(block, count);
    block[word::HEAD] = window::pass(head, window, records, view, count);
    Step::Batch(Batch { bits, count })
}
