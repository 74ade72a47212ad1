// A letter: a reading head.
ghost use Rattle.std.specs.Prelude.{false, ◌≤◌, ◌<◌, length, IfSome};
ghost use Rattle.mtl.specs.Formula.Formula.{letter as letter_formula};
ghost use Rattle.window.specs.View.{Views};
ghost use Rattle.window.specs.Window.{Keeps};
ghost use Rattle.blocks.specs.Step.{Steps, Ends};
ghost use Rattle.operators.specs.Letter.{step_of};

use blocks::{Batch, word};
use window::KeptCopy;
use window::view::View;

// How many positions there are from `at` on up to the next whose number makes a multiple of 64 with `shift`.
fn room_for(at: u64, shift: u64) -> u64
    ensures { (0 < result) × (result ≤ 64) }
{
    64 - (at % 64 + shift % 64) % 64
}

// The answers at the next positions from the head on, where the log has more. `shift` has all letters of a rule end together, those
// under a previous or next one position apart: what is given by them has as many positions then as a word can hold.
pub fn read_letter(
    letter: u64,
    shift: u64,
    records: &[u8],
    view: &View,
    copy: &mut KeptCopy,
    block: &mut [u64],
) -> Option<Batch>
    requires { (letter < 32) × (16 ≤ length block.old) × Views view.now records.now × Keeps records.now copy.old }
    ensures some { IfSome result (λ a. 0 < a.count) }
    ensures ends { Ends false false view.now block.old (step_of result) block.new }
    ensures steps { Steps (letter_formula letter) view.now records.now block.old (step_of result) block.new }
    ensures keeps { Keeps records.now copy.new }
{
    let at = block[word::TAKEN];
    let count = blocks::available(at, room_for(at, shift), view.total);
    if count == 0 {
        return None;
    }
    let read = window::read_letters(records, view, block[word::HEAD], count, letter, copy);
    let bits = read.bits;
    block[word::TAKEN] = at + count;
    block[word::HEAD] = view.first + read.end as u64;
    Some(Batch { bits, count })
}
