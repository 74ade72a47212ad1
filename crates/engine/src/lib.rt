// Answers a formula's positions one batch after the other, from a log's records and the lent words of a checkpoint.
#![tactic(auto)]

ghost use Rattle.std.specs.Prelude.{◌≡◌, true, false, ◌+◌, ◌≤◌, ◌<◌, length, IfSome};
ghost use Rattle.window.specs.View.{Views};
ghost use Rattle.window.specs.Window.{Keeps};
ghost use Rattle.engine.specs.Answer.{Answers};
ghost use Rattle.engine.specs.Ask.{Advances, Refills, Fills, stored};
ghost use Rattle.engine.specs.Table.{RowsOk, row_at, kind_at};

pub mod layout;
pub mod table;
pub mod tops;

use blocks::{Batch, Step, word};
use rule::Kind;
use table::Row;
use window::KeptCopy;
use window::view::View;

// Puts a batch into the buffer at slot.
fn store(words: &mut [u64], slot: usize, batch: Batch)
    requires { slot + 1 < length words.old }
    ensures { words.new ≡ stored words.old slot batch.bits batch.count }
{
    words[slot] = batch.count;
    words[slot + 1] = batch.bits;
}

// One step of entry k, an operator with operands, on its own block, which begins at `own`.
fn advance(
    table: &[Row; 128],
    records: &[u8],
    view: &View,
    copy: &mut KeptCopy,
    waiting: &mut KeptCopy,
    k: usize,
    own: usize,
    words: &mut [u64],
) -> Step
    requires { (k < 128) × RowsOk table.now k × (0 < kind_at table.now k) × (own ≡ (row_at table.now k).left_words + (row_at table.now k).right_words) × (length words.old ≡ (row_at table.now k).words) × Keeps records.now copy.old × Keeps records.now waiting.old × Views view.now records.now }
    ensures advances { Advances table.now view.now records.now k own words.old result words.new }
    ensures keeps { Keeps records.now copy.new × Keeps records.now waiting.new }
{
    let row = table[k];
    let end = words.len();
    operators::advance(
        row.kind,
        u64::from(row.low),
        u64::from(row.high),
        records,
        view,
        copy,
        waiting,
        &mut words[own..end],
    )
}

// A letter's next batch of answers. Its words are its own block.
fn answer_letter(
    table: &[Row; 128],
    records: &[u8],
    view: &View,
    copy: &mut KeptCopy,
    k: usize,
    shift: u64,
    words: &mut [u64],
) -> Option<Batch>
    requires { (k < 128) × RowsOk table.now k × (kind_at table.now k ≡ 0) × (length words.old ≡ (row_at table.now k).words) × Keeps records.now copy.old × Views view.now records.now }
    ensures some { IfSome result (λ a. 0 < a.count) }
    ensures answers { Answers table.now view.now records.now k words.old result words.new }
    ensures keeps { Keeps records.now copy.new }
{
    let letter = u64::from(table[k].letter);
    operators::letter::read_letter(letter, shift, records, view, copy, words)
}

// Asks entry k for its next batch of answers, on the log that the view tells of. Its words are its operands' words, left then right, and
// its own block. `shift` says where the batches of letters end; no answer depends on it.
#[cycle(answer_ask_fill)]
pub fn answer(
    table: &[Row; 128],
    records: &[u8],
    view: &View,
    copy: &mut KeptCopy,
    waiting: &mut KeptCopy,
    k: usize,
    shift: u64,
    words: &mut [u64],
) -> Option<Batch>
    requires { (k < 128) × RowsOk table.now k × (length words.old ≡ (row_at table.now k).words) × Keeps records.now copy.old × Keeps records.now waiting.old × Views view.now records.now }
    ensures some { IfSome result (λ a. 0 < a.count) }
    ensures answers { Answers table.now view.now records.now k words.old result words.new }
    ensures keeps { Keeps records.now copy.new × Keeps records.now waiting.new }
{
    let row = table[k];
    if !table::takes_right(row.kind) {
        return answer_letter(table, records, view, copy, k, shift, words);
    }
    let left_words = usize::from(row.left_words);
    let own = row.own_at();
    loop {
        let filled = fill(
            table, records, view, copy, waiting, k, shift, left_words, own, words,
        );
        // Two calls of `advance` keep it out of the recursive function, whose frame stands on the stack once for each level.
        let mut step = advance(table, records, view, copy, waiting, k, own, words);
        if filled {
            if let Step::Again = step {
                step = advance(table, records, view, copy, waiting, k, own, words);
            }
        }
        match step {
            Step::Batch(Batch { bits, count }) => {
                // One of no position, which only forged words bring about, is none. With the test the two numbers are copied one by one;
                // a copy of both at once would wait for them.
                if count == 0 {
                    return None;
                }
                return Some(Batch { bits, count });
            }
            Step::Open => {
                return None;
            }
            Step::Again => {}
            Step::Left => {
                if !filled {
                    return None;
                }
            }
            Step::Right => {
                if !filled {
                    return None;
                }
            }
        }
    }
}

// Where the batches of an operand's letters end: previous and next answer one position apart from their operand.
fn shifted(kind: Kind, shift: u64) -> u64 {
    match kind {
        Kind::Previous => shift % 64 + 1,
        Kind::Next => shift % 64 + 63,
        _ => shift,
    }
}

// Whether the operand is read one position apart, so that its batches begin at other records: with the two copies exchanged, each keeps its own.
fn is_apart(kind: Kind) -> bool {
    matches!(kind, Kind::Previous | Kind::Next)
}

// Fills the empty buffers of entry k's operands, left's first, whose words end at `split`; false where one has no more answers. Where that is
// left, right is not asked.
#[cycle(answer_ask_fill)]
fn fill(
    table: &[Row; 128],
    records: &[u8],
    view: &View,
    copy: &mut KeptCopy,
    waiting: &mut KeptCopy,
    k: usize,
    shift: u64,
    split: usize,
    own: usize,
    words: &mut [u64],
) -> bool
    requires { (k < 128) × RowsOk table.now k × (0 < kind_at table.now k) × (split ≡ (row_at table.now k).left_words) × (own ≡ (row_at table.now k).left_words + (row_at table.now k).right_words) × (length words.old ≡ (row_at table.now k).words) × Keeps records.now copy.old × Keeps records.now waiting.old × Views view.now records.now }
    ensures refills { Refills table.now view.now records.now k own words.old result words.new }
    ensures keeps { Keeps records.now copy.new × Keeps records.now waiting.new }
{
    let row = table[k];
    let below = shifted(row.kind, shift);
    if table::takes_left(row.kind) {
        let filled = ask(
            table,
            records,
            view,
            copy,
            waiting,
            usize::from(row.left),
            below,
            0,
            split,
            own + word::LEFT_COUNT,
            words,
        );
        if !filled {
            return false;
        }
    }
    if is_apart(row.kind) {
        return ask(
            table,
            records,
            view,
            waiting,
            copy,
            k - 1,
            below,
            split,
            own,
            own + word::RIGHT_COUNT,
            words,
        );
    }
    ask(
        table,
        records,
        view,
        copy,
        waiting,
        k - 1,
        below,
        split,
        own,
        own + word::RIGHT_COUNT,
        words,
    )
}

// Fills an operand's buffer at `slot` by asking it, where it is empty; false where the operand is open.
#[cycle(answer_ask_fill)]
pub fn ask(
    table: &[Row; 128],
    records: &[u8],
    view: &View,
    copy: &mut KeptCopy,
    waiting: &mut KeptCopy,
    operand: usize,
    shift: u64,
    from: usize,
    to: usize,
    slot: usize,
    words: &mut [u64],
) -> bool
    requires { (operand < 128) × RowsOk table.now operand × (from + (row_at table.now operand).words ≡ to) × (to ≤ length words.old) × (slot + 1 < length words.old) × Keeps records.now copy.old × Keeps records.now waiting.old × Views view.now records.now }
    ensures fills { Fills table.now view.now records.now operand from to slot words.old result words.new }
    ensures keeps { Keeps records.now copy.new × Keeps records.now waiting.new }
{
    if words[slot] != 0 {
        return true;
    }
    let reply = answer(
        table,
        records,
        view,
        copy,
        waiting,
        operand,
        shift,
        &mut words[from..to],
    );
    let Some(batch) = reply else {
        return false;
    };
    store(words, slot, batch);
    true
}
