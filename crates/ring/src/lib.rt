// A since's ring of times, oldest first, in the cells behind its block's 16 words. Words 9 and 10 say where the oldest
// stands and how many there are; whatever they hold, only the ring's own cells are read and written.
#![tactic(auto)]

ghost use Rattle.std.specs.Prelude.{◌≡◌, List, ℕ, ◌+◌, ◌-◌, ◌≤◌, ◌<◌, ◌^◌, not as negate, eqb, ltb, length, set, unwrap_or, is_some};
ghost use Rattle.bits.specs.Packed.{number};
ghost use Rattle.rule.specs.Words.{ring_words};
ghost use Rattle.trace.specs.Format.{record_count, time_at};
ghost use Rattle.blocks.specs.Ring.{Ring, Rings, wrap, unexpired, kept, pushed, reaches, turned, newest_of, oldest_of, one, pushes};

use blocks::word;

const FIRST_CELL: usize = 16;

// Later than all times.
pub const NO_TIME: u64 = 4294967296;

// The number of cells that a since with this high has.
pub fn cells_for(high: u64) -> u64
    requires { high < 2 ^ 32 }
    ensures { (result ≡ ring_words high) × (0 < result) × (result < 2 ^ 32) }
{
    if high == 4294967295 { 1 } else { high + 1 }
}

// The index in the block of the cell that is `at` cells behind the first.
fn cell(cells: u64, at: u64) -> usize
    requires { (0 < cells) × (cells < 2 ^ 32) }
    ensures { (16 ≤ result) × (result < 16 + cells) × (at < cells + cells → result ≡ 16 + wrap cells at) }
{
    if at < cells {
        return 16 + at as usize;
    }
    let over = at - cells;
    if over < cells { 16 + over as usize } else { 16 }
}

// Drops the times that lie more than high before `at`.
fn drop_old(cells: u64, high: u64, at: u64, block: &mut [u64])
    requires { (0 < cells) × (cells < 2 ^ 32) × (16 + cells ≤ length block.old) }
    ensures { Rings cells (unexpired high at) block.old block.new }
{
    let mut start = block[word::RING_START].min(cells - 1);
    let mut count = block[word::RING_COUNT].min(cells);
    while 0 < count && high < at.saturating_sub(block[cell(cells, start)]) {
        start = cell(cells, start + 1) as u64 - 16;
        count -= 1;
    }
    block[word::RING_START] = start;
    block[word::RING_COUNT] = count;
}

// Drops all of them, unless `left` holds.
pub fn keep_if(left: bool, block: &mut [u64])
    requires { 16 ≤ length block.old }
    ensures { (cells : ℕ) → Rings cells (kept left) block.old block.new }
{
    if !left {
        block[word::RING_COUNT] = 0;
    }
}

// Adds `at` as the newest where `right` holds, unless it is that already or the ring is full.
fn push_if(cells: u64, right: bool, at: u64, block: &mut [u64])
    requires { (0 < cells) × (cells < 2 ^ 32) × (16 + cells ≤ length block.old) }
    ensures { Rings cells (pushed cells right at) block.old block.new }
{
    let start = block[word::RING_START].min(cells - 1);
    let count = block[word::RING_COUNT].min(cells);
    if right & (count < cells) {
        if (count == 0) || (block[cell(cells, start + count - 1)] != at) {
            let end = cell(cells, start + count);
            block[end] = at;
            block[word::RING_COUNT] = count + 1;
        }
    }
}

// Whether the oldest lies at least low before `at`.
fn reaches_back(cells: u64, low: u64, at: u64, block: &[u64]) -> bool
    requires { (0 < cells) × (cells < 2 ^ 32) × (16 + cells ≤ length block.now) }
    ensures { (qs : List ℕ) → Ring cells block.now qs → result ≡ reaches low at qs }
{
    let start = block[word::RING_START].min(cells - 1);
    (0 < block[word::RING_COUNT]) & (low <= at.saturating_sub(block[cell(cells, start)]))
}

// One position's turn: the times more than high before it are dropped, all of them where left fails, and its own is
// added where right holds. True if the oldest left lies at least low before it.
pub fn turn(
    cells: u64,
    low: u64,
    high: u64,
    left: bool,
    right: bool,
    at: u64,
    block: &mut [u64],
) -> bool
    requires { (0 < cells) × (cells < 2 ^ 32) × (16 + cells ≤ length block.old) }
    ensures rings { Rings cells (turned cells high left right at) block.old block.new }
    ensures by_index { (qs : List ℕ) → Ring cells block.old qs → result ≡ reaches low at (turned cells high left right at qs) }
{
    drop_old(cells, high, at, block);
    keep_if(left, block);
    push_if(cells, right, at, block);
    reaches_back(cells, low, at, block)
}

// The newest of its times, where it has one.
pub fn newest(cells: u64, block: &[u64]) -> Option<u64>
    requires { (0 < cells) × (cells < 2 ^ 32) × (16 + cells ≤ length block.now) }
    ensures value { (none : ℕ) (qs : List ℕ) → Ring cells block.now qs → unwrap_or result none ≡ newest_of none qs }
    ensures some { (qs : List ℕ) → Ring cells block.now qs → is_some result ≡ ltb 0 (length qs) }
{
    let held = block[word::RING_COUNT].min(cells);
    if held == 0 {
        return None;
    }
    let start = block[word::RING_START].min(cells - 1);
    Some(block[cell(cells, start + held - 1)])
}

// The oldest of its times, where it has one.
pub fn oldest(cells: u64, block: &[u64]) -> Option<u64>
    requires { (0 < cells) × (cells < 2 ^ 32) × (16 + cells ≤ length block.now) }
    ensures value { (none : ℕ) (qs : List ℕ) → Ring cells block.now qs → unwrap_or result none ≡ oldest_of none qs }
    ensures some { (qs : List ℕ) → Ring cells block.now qs → is_some result ≡ ltb 0 (length qs) }
{
    if block[word::RING_COUNT] == 0 {
        return None;
    }
    let start = block[word::RING_START].min(cells - 1);
    Some(block[cell(cells, start)])
}

// Writes `at` behind the last of count times. Gives how many they are then: as many as before where `at` is the newest of them already.
fn add(cells: u64, start: u64, count: u64, newest: u64, at: u64, block: &mut [u64]) -> u64
    requires { (start < cells) × (count < cells) × (cells < 2 ^ 32) × (16 + cells ≤ length block.old) }
    ensures { (result ≡ count + number (negate (eqb at newest))) × (result ≤ cells) × (block.new ≡ set block.old (16 + wrap cells (start + count)) at) }
{
    block[cell(cells, start + count)] = at;
    count + bits::flag(at != newest)
}

// Adds the times of the positions from `from` to n at which right holds.
pub fn push_all(cells: u64, window: &[u8], from: usize, n: usize, right: u64, block: &mut [u64])
    requires { (0 < cells) × (cells < 2 ^ 32) × (16 + cells ≤ length block.old) × (from ≤ n) × (n ≤ 64) × (n ≤ record_count window.now) }
    ensures { Rings cells (pushes cells (time_at window.now) right from (n - from)) block.old block.new }
{
    let end = bits::find_last_zero(!right, n as u64) as usize;
    let start = block[word::RING_START].min(cells - 1);
    let mut count = block[word::RING_COUNT].min(cells);
    let mut newest = newest(cells, block).unwrap_or(NO_TIME);
    for i in from..end {
        if bits::test(right, i as u64) & (count < cells) {
            let now = trace::time(window, i);
            count = add(cells, start, count, newest, now, block);
            newest = now;
        }
    }
    block[word::RING_COUNT] = count;
}

// One time alone, or none.
pub fn put_one(some: bool, time: u64, block: &mut [u64])
    requires { 17 ≤ length block.old }
    ensures { (cells : ℕ) → Rings cells (λ qs. one some time) block.old block.new }
{
    block[word::RING_START] = 0;
    block[word::RING_COUNT] = bits::flag(some);
    block[FIRST_CELL] = time;
}
