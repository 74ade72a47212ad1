// An entry's block of words, and what one step on it finds. The buffers of operands in it are words of answers, taken out from the
// front.
#![tactic(auto)]

ghost use Rattle.std.specs.Prelude.{◌≡◌, ◌+◌, ◌-◌, ◌≤◌, ◌<◌, ◌^◌, min, length};
ghost use Rattle.blocks.specs.Block.{taken, left_count, right_count, took_right, took_both};

pub mod time;
pub mod word;

// A word of answers for count positions.
#[derive(Clone, Copy, PartialEq, Eq)]
pub struct Batch {
    pub bits: u64,
    pub count: u64,
}

// What one step finds.
#[derive(Clone, Copy)]
pub enum Step {
    // The answers from the next position on.
    Batch(Batch),
    // The left operand's buffer is empty and wanted.
    Left,
    // The right operand's, or only one's; the left operand's is not.
    Right,
    // Positions were taken and nothing is settled yet.
    Again,
    // Nothing more can be said.
    Open,
}

// How many of count positions from `at` on lie within a log of so many positions, and in one word.
pub fn available(at: u64, count: u64, total: u64) -> u64
    ensures { (result ≡ min (min count (total - at)) 64) × (at + result < 2 ^ 64) }
{
    count.min(total.saturating_sub(at)).min(64)
}

// Takes n positions out of the right or only operand's buffer.
pub fn take_right(block: &mut [u64], n: u64)
    requires { (16 ≤ length block.old) × (n ≤ right_count block.old) × (taken block.old + n < 2 ^ 64) }
    ensures { block.new ≡ took_right n block.old }
{
    let count = block[word::RIGHT_COUNT] - n;
    let bits = bits::rest(block[word::RIGHT_BITS], n);
    block[word::TAKEN] = block[word::TAKEN] + n;
    block[word::RIGHT_COUNT] = count;
    block[word::RIGHT_BITS] = bits;
}

// Takes n positions out of both operands' buffers.
pub fn take_both(block: &mut [u64], n: u64)
    requires { (16 ≤ length block.old) × (n ≤ left_count block.old) × (n ≤ right_count block.old) × (taken block.old + n < 2 ^ 64) }
    ensures { block.new ≡ took_both n block.old }
{
    let count = block[word::LEFT_COUNT] - n;
    let bits = bits::rest(block[word::LEFT_BITS], n);
    take_right(block, n);
    block[word::LEFT_COUNT] = count;
    block[word::LEFT_BITS] = bits;
}
