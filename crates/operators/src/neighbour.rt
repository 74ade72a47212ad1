// previous and next: the operand's answers at the neighbouring positions, where the gap lies in the interval.
ghost use Rattle.std.specs.Prelude.{◌≡◌, true, false, ◌+◌, ◌*◌, ◌≤◌, ◌<◌, ◌^◌, length};
ghost use Rattle.mtl.specs.Formula.{Formula};
ghost use Rattle.mtl.specs.Formula.Formula.{previous, next};
ghost use Rattle.bits.specs.Packed.{Packed};
ghost use Rattle.trace.specs.Format.{record_count, time_at};
ghost use Rattle.window.specs.View.{Views};
ghost use Rattle.window.specs.Window.{window_of, Keeps};
ghost use Rattle.blocks.specs.Block.{taken, right_count};
ghost use Rattle.blocks.specs.Near.{near_after};
ghost use Rattle.blocks.specs.Step.{Steps, Ends};
ghost use Rattle.operators.specs.Neighbour.{TookNear};

use blocks::{Batch, Step, time, word};
use window::view::View;
use window::{KeptCopy, Window};

// Behind which of the window's first n positions the next one lies in the interval, as a word of answers.
fn read_near<'a>(
    low: u64,
    high: u64,
    window: Window,
    records: &'a [u8],
    copy: &'a KeptCopy,
    n: u64,
) -> u64
    requires { (n ≤ 64) × (n < record_count (window_of window records.now copy.now)) × (window.dense ≡ true → window.at * 8 ≤ length records.now) }
    ensures { Packed (near_after low high (time_at (window_of window records.now copy.now))) 0 n result }
{
    time::near(low, high, window::read(window, records, copy), n as usize)
}

// Takes the operand's next count answers, where the gap lies in the interval. The head stands one position before them.
fn take_near(
    low: u64,
    high: u64,
    records: &[u8],
    view: &View,
    copy: &mut KeptCopy,
    block: &mut [u64],
    count: u64,
) -> u64
    requires { (16 ≤ length block.old) × Keeps records.now copy.old × Views view.now records.now × (count ≤ 64) × (count ≤ right_count block.old) × (taken block.old + count < 2 ^ 64) }
    ensures took_near { TookNear low high view.now records.now block.old count result block.new }
    ensures keeps { Keeps records.now copy.new }
{
    let head = block[word::HEAD];
    let window = window::open(records, view, head, count + 1, copy);
    let near = read_near(low, high, window, records, copy, count);
    let bits = near & block[word::RIGHT_BITS];
    blocks::take_right(block, count);
    block[word::HEAD] = window::pass(head, window, records, view, count);
    bits
}

// Position 0 is no, without the operand; from then on the operand's answer at i - 1 answers i. Where more is taken than is
// answered, which only forged words bring about, nothing is said.
pub fn step_previous(
    low: u64,
    high: u64,
    records: &[u8],
    view: &View,
    copy: &mut KeptCopy,
    block: &mut [u64],
) -> Step
    requires { (16 ≤ length block.old) × Keeps records.now copy.old × Views view.now records.now }
    ensures ends { Ends false true view.now block.old result block.new }
    ensures steps { (φ : Formula) → Steps (previous low high φ) view.now records.now block.old result block.new }
    ensures keeps { Keeps records.now copy.new }
{
    let g = block[word::ANSWERED];
    let total = view.total;
    if (total <= g) | (g < block[word::TAKEN]) {
        return Step::Open;
    }
    if g == 0 {
        block[word::ANSWERED] = 1;
        return Step::Batch(Batch { bits: 0, count: 1 });
    }
    if block[word::RIGHT_COUNT] == 0 {
        return Step::Right;
    }
    let count = blocks::available(g, block[word::RIGHT_COUNT], total);
    let bits = take_near(low, high, records, view, copy, block, count);
    block[word::ANSWERED] = g + count;
    Step::Batch(Batch { bits, count })
}

// The operand's answer at position 0 is passed over; from then on its answer at i + 1 answers i. The last position of a closed log
// is no, without the operand. Where more is answered than is taken, which only forged words bring about, nothing is said.
pub fn step_next(
    low: u64,
    high: u64,
    records: &[u8],
    view: &View,
    copy: &mut KeptCopy,
    block: &mut [u64],
) -> Step
    requires { (16 ≤ length block.old) × Keeps records.now copy.old × Views view.now records.now }
    ensures ends { Ends false true view.now block.old result block.new }
    ensures steps { (φ : Formula) → Steps (next low high φ) view.now records.now block.old result block.new }
    ensures keeps { Keeps records.now copy.new }
{
    let g = block[word::ANSWERED];
    let at = block[word::TAKEN];
    let total = view.total;
    if (total <= g) | (at < g) {
        return Step::Open;
    }
    if view.closed & (at == total) {
        block[word::ANSWERED] = g + 1;
        return Step::Batch(Batch { bits: 0, count: 1 });
    }
    if block[word::RIGHT_COUNT] == 0 {
        return Step::Right;
    }
    let count = blocks::available(at, block[word::RIGHT_COUNT], total);
    if count == 0 {
        return Step::Open;
    }
    if at == 0 {
        blocks::take_right(block, 1);
        return Step::Again;
    }
    let bits = take_near(low, high, records, view, copy, block, count);
    block[word::ANSWERED] = g + count;
    Step::Batch(Batch { bits, count })
}
