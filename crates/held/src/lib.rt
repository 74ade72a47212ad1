// The answers that a rule's formulas hold: each formula's last entry is asked for them, and they stand in its block until a verdict is given.
// A rule with no formula is not asked, and every position is a yes.
#![tactic(auto)]

ghost use Rattle.std.specs.Prelude.{◌≡◌, ℕ, ◌+◌, ◌-◌, ◌≤◌, ◌<◌, ◌^◌, min, length};
ghost use Rattle.blocks.specs.Block.{word};
ghost use Rattle.window.specs.View.{Views};
ghost use Rattle.window.specs.Window.{Keeps};
ghost use Rattle.engine.specs.Tops.{held_at};
ghost use Rattle.verdicts.specs.Counts.{later_end};
ghost use Rattle.checkpoint.specs.Checkpoint.{given};
ghost use Rattle.held.specs.Code.{plan, Fitting, HoldsOne, HoldsAll, Answered, taken_answers, taken_verdicts, CanTake};

use checkpoint::header;
use engine::table::Row;
use engine::tops::Top;
use window::KeptCopy;
use window::view::View;

// How many positions of a log of so many have no verdict yet, as far as one word goes.
fn not_given(given: u64, size: u64) -> u64
    ensures { result ≡ min (size - given) 64 }
{
    size.saturating_sub(given).min(64)
}

// Asks formula k where it holds nothing, and gives how many answers it holds then.
fn hold_one(
    table: &[Row; 128],
    tops: &[Top],
    k: usize,
    records: &[u8],
    view: &View,
    copy: &mut KeptCopy,
    waiting: &mut KeptCopy,
    shift: u64,
    words: &mut [u64],
) -> u64
    requires { (k < length tops.now) × Fitting (plan table.now tops.now) (length words.old) × Keeps records.now copy.old × Keeps records.now waiting.old × Views view.now records.now }
    ensures holds_one { HoldsOne (plan table.now tops.now) view.now records.now k words.old result words.new }
    ensures keeps { Keeps records.now copy.new × Keeps records.now waiting.new }
{
    let top = tops[k];
    engine::ask(
        table, records, view, copy, waiting, top.entry, shift, top.from, top.to, top.held, words,
    );
    words[top.held]
}

// Asks every formula that holds nothing, unless all positions have verdicts. Gives how many answers each of them holds at least: 0 where
// nothing more is settled.
pub fn hold(
    table: &[Row; 128],
    tops: &[Top],
    records: &[u8],
    view: &View,
    copy: &mut KeptCopy,
    waiting: &mut KeptCopy,
    shift: u64,
    words: &mut [u64],
) -> u64
    requires { Fitting (plan table.now tops.now) (length words.old) × Keeps records.now copy.old × Keeps records.now waiting.old × Views view.now records.now }
    ensures holds_all { HoldsAll (plan table.now tops.now) view.now records.now words.old result words.new }
    ensures keeps { Keeps records.now copy.new × Keeps records.now waiting.new }
{
    let mut least = not_given(words[header::GIVEN], view.total);
    if least == 0 {
        return 0;
    }
    for k in 0..tops.len() {
        let count = hold_one(table, tops, k, records, view, copy, waiting, shift, words);
        least = least.min(count);
    }
    least
}

// Copies the words of answers that the formulas hold; where there is no formula, one word of yes.
pub fn copy_answers(tops: &[Top], words: &[u64], answers: &mut [u64; 8])
    requires { (length tops.now ≤ 8) × (length answers.old ≡ 8) × ((k : ℕ) → k < length tops.now → held_at tops.now k + 1 < length words.now) }
    ensures { Answered tops.now words.now answers.new }
{
    answers[0] = u64::MAX;
    for k in 0..tops.len() {
        answers[k] = words[tops[k].held + 1];
    }
}

// One more than the position of the latest no, where `last` is one more than the place of the latest among the verdicts from `given`
// on, and 0 for none.
fn later_end(old: u64, given: u64, last: u64) -> u64
    requires { given + last < 2 ^ 64 }
    ensures { result ≡ later_end old given last }
{
    if last == 0 { old } else { given + last }
}

// Takes n of the answers at `held`, and counts the no among them at `at` and `late`.
fn take_answers(words: &mut [u64], held: usize, at: usize, late: usize, given: u64, n: u64)
    requires { (n ≤ 64) × (at < length words.old) × (late < length words.old) × (held + 1 < length words.old) × (n ≤ word words.old held) × (word words.old at + n < 2 ^ 64) × (given + n < 2 ^ 64) }
    ensures { words.new ≡ taken_answers held at late given n words.old }
{
    let count = words[held];
    let bits = words[held + 1];
    let noes = words[at] + bits::count_zeros(bits, n);
    let last = bits::find_last_zero(bits, n);
    let after = later_end(words[late], given, last);
    words[at] = noes;
    words[late] = after;
    words[held] = count - n;
    words[held + 1] = bits::rest(bits, n);
}

// Takes n verdicts out of the answers of all formulas.
pub fn take_verdicts(tops: &[Top], most: usize, words: &mut [u64], n: u64)
    requires { CanTake tops.now most n words.old }
    ensures { words.new ≡ taken_verdicts tops.now most n words.old }
{
    let given = words[header::GIVEN];
    for k in 0..tops.len() {
        take_answers(
            words,
            tops[k].held,
            header::NO_COUNT + k,
            header::NO_COUNT + most + k,
            given,
            n,
        );
    }
    words[header::GIVEN] = given + n;
}
