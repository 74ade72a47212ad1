// not and or, on whole words of answers.
ghost use Rattle.std.specs.Prelude.{true, false, List, ℕ, ◌≤◌, length};
ghost use Rattle.mtl.specs.Formula.{Formula};
ghost use Rattle.mtl.specs.Formula.Formula.{not as not_formula, or as or_formula};
ghost use Rattle.blocks.specs.Step.{Steps, Ends};

use blocks::{Batch, Step, word};
use window::view::View;

// Turns every answer of the operand.
pub fn step_not(view: &View, block: &mut [u64]) -> Step
    requires { 16 ≤ length block.old }
    ensures ends { Ends false true view.now block.old result block.new }
    ensures by_index { (s : List ℕ) (φ : Formula) → Steps (not_formula φ) view.now s block.old result block.new }
{
    if block[word::RIGHT_COUNT] == 0 {
        return Step::Right;
    }
    let count = blocks::available(block[word::TAKEN], block[word::RIGHT_COUNT], view.total);
    if count == 0 {
        return Step::Open;
    }
    let bits = !block[word::RIGHT_BITS];
    blocks::take_right(block, count);
    Step::Batch(Batch { bits, count })
}

// As many positions as both operands have answered.
pub fn step_or(view: &View, block: &mut [u64]) -> Step
    requires { 16 ≤ length block.old }
    ensures ends { Ends true true view.now block.old result block.new }
    ensures by_index { (s : List ℕ) (φ ψ : Formula) → Steps (or_formula φ ψ) view.now s block.old result block.new }
{
    if block[word::LEFT_COUNT] == 0 {
        return Step::Left;
    }
    if block[word::RIGHT_COUNT] == 0 {
        return Step::Right;
    }
    let both = block[word::LEFT_COUNT].min(block[word::RIGHT_COUNT]);
    let count = blocks::available(block[word::TAKEN], both, view.total);
    if count == 0 {
        return Step::Open;
    }
    let bits = block[word::LEFT_BITS] | block[word::RIGHT_BITS];
    blocks::take_both(block, count);
    Step::Batch(Batch { bits, count })
}
