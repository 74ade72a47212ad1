// Searches over a whole log: over the answers of one entry, asked from its first position on, and over the times of positions.
#![tactic(auto)]

ghost use Rattle.std.specs.Prelude.{◌≡◌, Bool, ◌&&◌, not as negate, ℕ, ◌+◌, ◌≤◌, ◌<◌, ◌^◌, length, get_or, leb};
ghost use Rattle.bits.specs.Packed.{bit, Packed};
ghost use Rattle.window.specs.View.{Views};
ghost use Rattle.window.specs.Window.{Keeps};
ghost use Rattle.engine.specs.Table.{RowsOk, row_at};
ghost use Rattle.reasons.specs.Search.{first_where, after_last};
ghost use Rattle.search.specs.Scan.{is, sought, sought_bit, Scans, Bounded};

pub mod times;

use engine::table::Row;
use window::KeptCopy;
use window::view::View;

// What the answers of an entry at the positions up to an end came to: how many of them there are, where the first that was looked for
// stands, or their number where none does, and one more than the position of the last no, 0 where there is none.
#[derive(Clone, Copy)]
pub struct Scan {
    pub done: u64,
    pub first: u64,
    pub after: u64,
}

// Whether bit i, the answer at position `at`, is `want`, and the position at or behind `from`.
fn hits(bits: u64, i: u64, want: bool, at: u64, from: u64) -> bool
    requires { i < 64 }
    ensures { result ≡ leb from at && is want (bit bits i) }
{
    if at < from {
        return false;
    }
    let x = bits::test(bits, i);
    if want { x } else { !x }
}

// Where among n answers, at the positions from `done` on, the first that is looked for stands; the position behind them where none does.
fn find_in(bits: u64, n: u64, done: u64, want: bool, from: u64) -> u64
    requires { (n ≤ 64) × (done + n < 2 ^ 64) }
    ensures { (result ≡ done + first_where n (sought_bit bits done want from)) × (result ≤ done + n) }
{
    for i in 0..n {
        if hits(bits, i, want, done + i, from) {
            return done + i;
        }
    }
    done + n
}

// The first found so far, where one was found below `done`; else the first among n further answers.
fn first_of(first: u64, bits: u64, n: u64, done: u64, want: bool, from: u64) -> u64
    requires { (n ≤ 64) × (done + n < 2 ^ 64) × (first ≤ done) }
    ensures { (result ≤ done + n) × ((f : ℕ → Bool) → Packed f done n bits → first ≡ first_where done (sought want from f) → result ≡ first_where (done + n) (sought want from f)) }
{
    if first < done {
        first
    } else {
        find_in(bits, n, done, want, from)
    }
}

// One more than the position of the last no, where `after` is that of the positions before `done`, and n answers follow.
fn after_no(after: u64, bits: u64, n: u64, done: u64) -> u64
    requires { (n ≤ 64) × (done + n < 2 ^ 64) × (after ≤ done) }
    ensures { (result ≤ done + n) × ((f : ℕ → Bool) → Packed f done n bits → after ≡ after_last done (λ (q : ℕ). negate (f q)) → result ≡ after_last (done + n) (λ (q : ℕ). negate (f q))) }
{
    let last = bits::find_last_zero(bits, n);
    if last == 0 { after } else { done + last }
}

// Asks entry k, on cleared words, for its answers at the positions up to `to`, and looks for the first at or behind `from` that is `want`.
fn ask_all(
    table: &[Row; 128],
    records: &[u8],
    view: &View,
    copy: &mut KeptCopy,
    waiting: &mut KeptCopy,
    k: usize,
    want: bool,
    from: u64,
    to: u64,
    words: &mut [u64],
) -> Scan
    requires { (k < 128) × RowsOk table.now k × (length words.old ≡ (row_at table.now k).words) × Keeps records.now copy.old × Keeps records.now waiting.old × Views view.now records.now }
    ensures bounded { Bounded to result × Scans table.now view.now records.now k want from to result }
    ensures keeps { Keeps records.now copy.new × Keeps records.now waiting.new }
{
    words.fill(0);
    let mut done: u64 = 0;
    let mut first: u64 = 0;
    let mut after: u64 = 0;
    while done < to {
        let reply = engine::answer(table, records, view, copy, waiting, k, 0, words);
        let Some(batch) = reply else {
            return Scan { done, first, after };
        };
        let n = blocks::available(done, batch.count, to);
        if n == 0 {
            return Scan { done, first, after };
        }
        first = first_of(first, batch.bits, n, done, want, from);
        after = after_no(after, batch.bits, n, done);
        done += n;
    }
    Scan { done, first, after }
}

// The same on as many of the lent words as the entry needs.
pub fn search(
    table: &[Row; 128],
    records: &[u8],
    view: &View,
    copy: &mut KeptCopy,
    waiting: &mut KeptCopy,
    k: usize,
    want: bool,
    from: u64,
    to: u64,
    words: &mut [u64],
) -> Scan
    requires { (k < 128) × RowsOk table.now k × (8192 ≤ length words.old) × Keeps records.now copy.old × Keeps records.now waiting.old × Views view.now records.now }
    ensures bounded { Bounded to result × Scans table.now view.now records.now k want from to result }
    ensures keeps { Keeps records.now copy.new × Keeps records.now waiting.new }
{
    let end = usize::from(table[k].words);
    ask_all(
        table,
        records,
        view,
        copy,
        waiting,
        k,
        want,
        from,
        to,
        &mut words[0..end],
    )
}
