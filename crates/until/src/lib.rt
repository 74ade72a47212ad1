// until: two reading heads and no history.
#![tactic(auto)]

ghost use Rattle.std.specs.Prelude.{◌≡◌, true, false, ◌⊎◌, ℕ, ◌+◌, ◌-◌, ◌≤◌, ◌<◌, ◌^◌, min, length, None};
ghost use Rattle.mtl.specs.Formula.{Formula};
ghost use Rattle.mtl.specs.Formula.Formula.{until};
ghost use Rattle.trace.specs.Format.{time_at};
ghost use Rattle.window.specs.View.{Views, total};
ghost use Rattle.window.specs.Window.{window_of, either_of, Keeps};
ghost use Rattle.blocks.specs.Block.{taken, left_count, left_bits, right_count, right_bits, answered};
ghost use Rattle.blocks.specs.Step.{Steps, Ends};
ghost use Rattle.walks.specs.Settle.{settle_spec, time_of_none, next_of, Walk, ByWords};
ghost use Rattle.walks.specs.declared.Last.{Last};
ghost use Rattle.until.specs.Code.{HasRecords, starts_of, ahead_of, last_taken, walked, Wants, Stuck, FitsRoom, OpensAhead, Strides};

use blocks::{Batch, Step, word};
use walks::{Last, Walked};
use window::view::View;
use window::{KeptCopy, Window};

// How far a step may go: how many positions it may take, how many it looks at ahead, which is one more where the log has it, and how many
// of those that wait it may answer.
#[derive(Clone, Copy)]
pub struct Room {
    take: u64,
    look: u64,
    answer: u64,
}

// A walk, and where the head of those that wait stands behind it.
#[derive(Clone, Copy)]
pub struct Stride {
    walked: Walked,
    head: u64,
}

// Writes a walk's end back, and the two reading heads.
fn put_back(block: &mut [u64], w: Walked, ahead: u64, waiting: u64)
    requires { (17 ≤ length block.old) × (w.took ≤ left_count block.old) × (w.took ≤ right_count block.old) × (taken block.old + w.took < 2 ^ 64) × (answered block.old + w.count < 2 ^ 64) }
    ensures { block.new ≡ walked w ahead waiting block.old }
{
    let answered = block[word::ANSWERED] + w.count;
    blocks::take_both(block, w.took);
    block[word::ANSWERED] = answered;
    block[word::LAST_LEFT] = bits::flag(w.last.left);
    block[word::LAST_RIGHT] = bits::flag(w.last.right);
    block[word::LAST_TIME] = w.last.time;
    block[word::HEAD] = ahead;
    block[word::WAITING_HEAD] = waiting;
}

// The operand whose buffer is empty; Open where neither is, which only forged words bring about.
fn wanted(block: &[u64]) -> Step
    requires { 16 ≤ length block.now }
    ensures { Wants block.now result }
{
    if block[word::LEFT_COUNT] == 0 {
        return Step::Left;
    }
    if block[word::RIGHT_COUNT] == 0 {
        return Step::Right;
    }
    Step::Open
}

// The last position taken, as the block keeps it.
fn last_of(block: &[u64]) -> Last
    requires { 16 ≤ length block.now }
    ensures { result ≡ last_taken block.now }
{
    Last {
        left: block[word::LAST_LEFT] == 1,
        right: block[word::LAST_RIGHT] == 1,
        time: block[word::LAST_TIME],
    }
}

// Walks over n positions of the window ahead, of which there are `end`.
fn walk_windows<'a>(
    low: u64,
    high: u64,
    records: &'a [u8],
    starts: Window,
    waiting: &'a KeptCopy,
    ahead: Window,
    copy: &'a KeptCopy,
    n: u64,
    end: u64,
    closed: bool,
    block: &[u64],
) -> Walked
    requires in_bounds { (16 ≤ length block.now) × (n ≤ 64) × (n ≤ end) × (taken block.now - answered block.now + n < 2 ^ 64) }
    requires has_records { HasRecords ahead records.now copy.now end × HasRecords starts records.now (either_of starts copy.now waiting.now) (min (taken block.now - answered block.now + n) 64) }
    ensures { Walk low high (starts_of starts records.now (either_of starts copy.now waiting.now)) (ahead_of ahead records.now copy.now n end closed) (taken block.now - answered block.now) n (left_bits block.now) (right_bits block.now) (last_taken block.now) result }
{
    let next = window::read(ahead, records, copy);
    let after = walks::next_time(next, n, end, walks::time_of_none(closed));
    walks::walk_words(
        low,
        high,
        window::read(starts, records, window::either(starts, copy, waiting)),
        next,
        block[word::TAKEN].saturating_sub(block[word::ANSWERED]),
        n,
        after,
        block[word::LEFT_BITS],
        block[word::RIGHT_BITS],
        last_of(block),
    )
}

// How far a step may go on a log of `total` positions: it takes those that both operands have answered.
fn room_of(block: &[u64], total: u64) -> Room
    requires { (16 ≤ length block.now) × (answered block.now ≤ taken block.now) × (taken block.now ≤ total) }
    ensures { FitsRoom block.now total result }
{
    let at = block[word::TAKEN];
    let both = block[word::LEFT_COUNT].min(block[word::RIGHT_COUNT]);
    let take = blocks::available(at, both, total);
    Room {
        take,
        look: (take + 1).min(total - at),
        answer: (at - block[word::ANSWERED] + take).min(64),
    }
}

// Whether the first that waits, which has this time, is not settled by what was taken, nor by the first of `end` positions ahead; there is one
// at most.
fn first_waits<'a>(
    low: u64,
    high: u64,
    start: u64,
    records: &'a [u8],
    ahead: Window,
    copy: &'a KeptCopy,
    end: u64,
    closed: bool,
    block: &[u64],
) -> bool
    requires { (16 ≤ length block.now) × HasRecords ahead records.now copy.now end }
    ensures { result ≡ true → settle_spec low high start (last_taken block.now) (next_of (time_at (window_of ahead records.now copy.now)) end (time_of_none closed) 0) ≡ None }
{
    let next = window::read(ahead, records, copy);
    let next_at = walks::next_time(next, 0, end, walks::time_of_none(closed));
    walks::settle(low, high, start, last_of(block), next_at).is_none()
}

// Whether nothing can be answered before an operand has answered more: nothing can be taken, and none waits or the first that does is not
// settled. So a step that only asks for an operand opens no more than a window of one record.
fn must_wait(
    low: u64,
    high: u64,
    records: &[u8],
    view: &View,
    copy: &mut KeptCopy,
    block: &[u64],
    room: Room,
) -> bool
    requires { (17 ≤ length block.now) × Keeps records.now copy.old × (answered block.now ≤ taken block.now) × FitsRoom block.now (total view.now) room × Views view.now records.now }
    ensures take_value { result ≡ true → (room.take ≡ 0) × Stuck low high view.now records.now block.now }
    ensures keeps { Keeps records.now copy.new }
{
    if room.take != 0 {
        return false;
    }
    if block[word::TAKEN] == block[word::ANSWERED] {
        return true;
    }
    let ahead = window::open(records, view, block[word::HEAD], room.look, copy);
    let start = window::first_time(records, view, block[word::WAITING_HEAD]);
    let closed = view.closed;
    first_waits(
        low, high, start, records, ahead, copy, room.look, closed, block,
    )
}

// Whether the first that waits, which has this time, tells enough to walk over n positions of the window ahead by whole words; low is 0.
fn tells<'a>(
    high: u64,
    start: u64,
    records: &'a [u8],
    ahead: Window,
    copy: &'a KeptCopy,
    n: u64,
    block: &[u64],
) -> bool
    requires { (16 ≤ length block.now) × HasRecords ahead records.now copy.now n }
    ensures { result ≡ true → (starts : ℕ → ℕ) → starts 0 ≡ start → ByWords 0 high starts (time_at (window_of ahead records.now copy.now)) (taken block.now - answered block.now) n (last_taken block.now) }
{
    walks::by_first(
        0,
        high,
        start,
        window::read(ahead, records, copy),
        block[word::TAKEN].saturating_sub(block[word::ANSWERED]),
        n,
        last_of(block),
    )
}

// That walk.
fn walk_ahead<'a>(
    records: &'a [u8],
    ahead: Window,
    copy: &'a KeptCopy,
    n: u64,
    block: &[u64],
) -> Walked
    requires { (16 ≤ length block.now) × (0 < n) × (n ≤ 64) × (taken block.now - answered block.now < 64) × HasRecords ahead records.now copy.now n }
    ensures by_index { (high after : ℕ) (start : ℕ → ℕ) (from : Last) → ByWords 0 high start (time_at (window_of ahead records.now copy.now)) (taken block.now - answered block.now) n from → Walk 0 high start (next_of (time_at (window_of ahead records.now copy.now)) n after) (taken block.now - answered block.now) n (left_bits block.now) (right_bits block.now) from result }
    ensures fact { (result.count ≡ 0) ⊎ (taken block.now - answered block.now < result.count) }
{
    walks::walk_inside(
        window::read(ahead, records, copy),
        block[word::TAKEN].saturating_sub(block[word::ANSWERED]),
        n,
        block[word::LEFT_BITS],
        block[word::RIGHT_BITS],
    )
}

// Walks over what both operands have answered. Those that wait are read only where neither their first nor the last position taken tells
// enough.
fn walk_on<'a>(
    low: u64,
    high: u64,
    records: &'a [u8],
    view: &View,
    ahead: Window,
    copy: &'a KeptCopy,
    waiting: &mut KeptCopy,
    room: Room,
    block: &[u64],
) -> Stride
    requires { OpensAhead view.now records.now block.now room ahead copy.now × Keeps records.now copy.now × Keeps records.now waiting.old × Views view.now records.now }
    ensures strides { Strides low high view.now records.now block.now room ahead copy.now result }
    ensures keeps { Keeps records.now waiting.new }
{
    let waiting_head = block[word::WAITING_HEAD];
    if low == 0 {
        let start = window::first_time(records, view, waiting_head);
        if tells(high, start, records, ahead, copy, room.take, block) {
            let walked = walk_ahead(records, ahead, copy, room.take, block);
            if walked.count == 0 {
                let head = waiting_head;
                return Stride { walked, head };
            }
            // All that wait are answered: their head stands among those ahead then.
            let some = walked.count - block[word::TAKEN].saturating_sub(block[word::ANSWERED]);
            let head = window::pass(block[word::HEAD], ahead, records, view, some);
            return Stride { walked, head };
        }
        let lead = block[word::TAKEN].saturating_sub(block[word::ANSWERED]);
        let last = last_of(block);
        if (lead <= 64) & walks::is_told(0, lead, last) {
            let walked = walks::answer_told(lead, last);
            let head = block[word::HEAD];
            return Stride { walked, head };
        }
    }
    // Where none waits, both heads stand at one record.
    let starts = window::share(records, view, waiting_head, room.answer, copy, waiting);
    let walked = walk_windows(
        low,
        high,
        records,
        starts,
        waiting,
        ahead,
        copy,
        room.take,
        room.look,
        view.closed,
        block,
    );
    let head = window::pass(waiting_head, starts, records, view, walked.count);
    Stride { walked, head }
}

// Walks over what both operands have answered, from the next position to answer and the next to take.
pub fn step_until(
    low: u64,
    high: u64,
    records: &[u8],
    view: &View,
    copy: &mut KeptCopy,
    waiting: &mut KeptCopy,
    block: &mut [u64],
) -> Step
    requires { (17 ≤ length block.old) × Keeps records.now copy.old × Keeps records.now waiting.old × Views view.now records.now }
    ensures ends { Ends true true view.now block.old result block.new }
    ensures steps { (φ ψ : Formula) → Steps (until low high φ ψ) view.now records.now block.old result block.new }
    ensures keeps { Keeps records.now copy.new × Keeps records.now waiting.new }
{
    let at = block[word::TAKEN];
    let total = view.total;
    if (total < at) | (at < block[word::ANSWERED]) {
        return Step::Open;
    }
    let room = room_of(block, total);
    let most = high.min(walks::LONGEST_GAP);
    if must_wait(low, most, records, view, copy, block, room) {
        return wanted(block);
    }
    let head = block[word::HEAD];
    let ahead = window::open(records, view, head, room.look, copy);
    let stride = walk_on(low, most, records, view, ahead, copy, waiting, room, block);
    let w = stride.walked;
    // Only forged words bring this about, now that the step need not wait.
    if w.count == 0 {
        if w.took == 0 {
            return wanted(block);
        }
    }
    put_back(
        block,
        w,
        window::pass(head, ahead, records, view, w.took),
        stride.head,
    );
    if w.count == 0 {
        return Step::Again;
    }
    Step::Batch(Batch {
        bits: w.bits,
        count: w.count,
    })
}
