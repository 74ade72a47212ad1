// One step of an entry on its own block, by kind: the six operators that have operands, whose answers come out of the block; and a
// letter's reading.
#![tactic(auto)]

ghost use Rattle.std.specs.Prelude.{ℕ, ◌≢◌, ◌≤◌, ◌<◌, ◌^◌, length};
ghost use Rattle.mtl.specs.Formula.{Formula};
ghost use Rattle.rule.specs.declared.kind.Kind.TheVariants.{Letter};
ghost use Rattle.rule.specs.Kinds.{number_of_kind};
ghost use Rattle.rule.specs.Words.{own_words};
ghost use Rattle.window.specs.View.{Views};
ghost use Rattle.window.specs.Window.{Keeps};
ghost use Rattle.blocks.specs.Step.{Steps, Ends};
ghost use Rattle.blocks.specs.Kinds.{Fields, takes_left, takes_right};

mod connective;
pub mod letter;
mod neighbour;

use blocks::Step;
use rule::Kind;
use window::KeptCopy;
use window::view::View;

pub fn advance(
    kind: Kind,
    low: u64,
    high: u64,
    records: &[u8],
    view: &View,
    copy: &mut KeptCopy,
    waiting: &mut KeptCopy,
    block: &mut [u64],
) -> Step
    requires { (kind ≢ Letter) × (high < 2 ^ 32) × (own_words (number_of_kind kind) high ≤ length block.old) × Keeps records.now copy.old × Keeps records.now waiting.old × Views view.now records.now }
    ensures ends { Ends (takes_left (number_of_kind kind)) (takes_right (number_of_kind kind)) view.now block.old result block.new }
    ensures steps { (φ : Formula) (letter : ℕ) → Fields φ (number_of_kind kind) letter low high → Steps φ view.now records.now block.old result block.new }
    ensures keeps { Keeps records.now copy.new × Keeps records.now waiting.new }
{
    match kind {
        Kind::Letter => unreachable!(),
        Kind::Not => connective::step_not(view, block),
        Kind::Or => connective::step_or(view, block),
        // A previous begins where its operand's batches do, a next where its own answers do.
        Kind::Previous => neighbour::step_previous(low, high, records, view, waiting, block),
        Kind::Next => neighbour::step_next(low, high, records, view, copy, block),
        Kind::Since => since::step_since(low, high, records, view, copy, block),
        Kind::Until => until::step_until(low, high, records, view, copy, waiting, block),
    }
}
