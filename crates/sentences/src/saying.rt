// What one entry says at a position.
ghost use Rattle.std.specs.Prelude.{◌≡◌, ℕ, ◌+◌, ◌-◌, ◌≤◌, ◌<◌};
ghost use Rattle.mtl.specs.Formula.{Formula};
ghost use Rattle.mtl.specs.Log.{Log};
ghost use Rattle.window.specs.Window.{Keeps};
ghost use Rattle.engine.specs.Table.{kind_at};
ghost use Rattle.search.specs.Times.{WholeLog};
ghost use Rattle.sentences.specs.Said.{saying_of, joining, gap_saying, found_saying, Lent, Answering, Shape, Saids};

use super::sentence::{Sentence, Tail};
use engine::table::Row;
use rule::Kind;
use search::times;
use window::KeptCopy;
use window::view::View;

// What follows an entry's sentence.
#[derive(Clone, Copy, Debug, PartialEq, Eq)]
pub enum Follows {
    // Nothing. Whether the entry holds.
    Nothing(bool),
    // Its only operand's sentences at a position. Whether the operand's answer is turned.
    One(u64, bool),
    // Those of an or's operands, at the same position.
    Either,
}

// What an entry says at a position.
#[derive(Clone, Copy, Debug, PartialEq, Eq)]
pub struct Saying {
    pub says: Sentence,
    pub follows: Follows,
}

// A letter: yes or no.
fn say_letter(records: &[u8], view: &View, letter: u64, i: u64) -> Saying
    requires { letter < 32 }
    ensures { Shape 0 i result × ((L : Log) → WholeLog view.now records.now L → i < L.size → result ≡ saying_of (Formula.letter letter) L i) }
{
    let holds = times::has_letter(records, view, i, letter);
    Saying {
        says: Sentence {
            kind: Kind::Letter,
            number: Some(letter),
            tail: Some(if holds { Tail::Yes } else { Tail::No }),
        },
        follows: Follows::Nothing(holds),
    }
}

// not and or: the word alone, and their operands' sentences behind it.
fn say_connective(kind: Kind, follows: Follows) -> Saying
    ensures { result ≡ joining kind follows }
{
    Saying {
        says: Sentence {
            kind,
            number: None,
            tail: None,
        },
        follows,
    }
}

// previous and next: the gap, and behind it the operand's sentences at the position beside, if the gap is within.
fn say_gap(kind: Kind, low: u64, high: u64, earlier: u64, later: u64, beside: u64) -> Saying
    requires { later < 4294967296 }
    ensures { result ≡ gap_saying kind low high earlier later beside }
{
    Saying {
        says: Sentence {
            kind,
            number: Some(later.saturating_sub(earlier)),
            tail: None,
        },
        follows: if blocks::time::within(low, high, earlier, later) {
            Follows::One(beside, false)
        } else {
            Follows::Nothing(false)
        },
    }
}

fn say_previous(records: &[u8], view: &View, low: u64, high: u64, i: u64) -> Saying
    ensures { Shape 3 i result × ((φ : Formula) (L : Log) → WholeLog view.now records.now L → i < L.size → result ≡ saying_of (Formula.previous low high φ) L i) }
{
    if i == 0 {
        return Saying {
            says: Sentence {
                kind: Kind::Previous,
                number: None,
                tail: Some(Tail::NoneBefore),
            },
            follows: Follows::Nothing(false),
        };
    }
    let before = i - 1;
    let earlier = times::time_of(records, view, before);
    let later = times::time_of(records, view, i);
    say_gap(Kind::Previous, low, high, earlier, later, before)
}

fn say_next(records: &[u8], view: &View, low: u64, high: u64, i: u64) -> Saying
    requires { i ≤ 2000000 }
    ensures { Shape 4 i result × ((φ : Formula) (L : Log) → WholeLog view.now records.now L → i + 1 < L.size → result ≡ saying_of (Formula.next low high φ) L i) }
{
    let after = i + 1;
    let earlier = times::time_of(records, view, i);
    let later = times::time_of(records, view, after);
    say_gap(Kind::Next, low, high, earlier, later, after)
}

// since and until: yes by position j, or no by position p.
fn say_search(kind: Kind, holds: bool, j: u64, p: u64, by_left: bool) -> Saying
    ensures { result ≡ found_saying kind holds j p by_left }
{
    let cause = if by_left { Tail::Left } else { Tail::Time };
    Saying {
        says: Sentence {
            kind,
            number: Some(if holds { j } else { p }),
            tail: if holds { None } else { Some(cause) },
        },
        follows: Follows::Nothing(holds),
    }
}

// "the latest where left fails, or the first at most high before if none does from there on"; the earliest fitting j lies not before it,
// and at least low before i.
fn say_since(
    table: &[Row; 128],
    records: &[u8],
    view: &View,
    copy: &mut KeptCopy,
    waiting: &mut KeptCopy,
    words: &mut [u64],
    k: usize,
    i: u64,
) -> Saying
    requires { Lent table.now view.now records.now words.old copy.old waiting.old k × (i ≤ 2000000) × ((kind_at table.now k) ≡ 5) }
    ensures shape { Shape 5 i result × ((low high : ℕ) (φ ψ : Formula) (L : Log) → Answering (Formula.since low high φ ψ) table.now view.now records.now k L i → result ≡ saying_of (Formula.since low high φ ψ) L i) }
    ensures keeps { Keeps records.now copy.new × Keeps records.now waiting.new }
{
    let row = table[k];
    let low = u64::from(row.low);
    let high = u64::from(row.high);
    let operand = usize::from(row.left);
    let now = times::time_of(records, view, i);
    let near = times::first_at(records, view, now.saturating_sub(high));
    let late = times::first_at(records, view, (now + 1).saturating_sub(low));
    let left = search::search(
        table,
        records,
        view,
        copy,
        waiting,
        operand,
        false,
        0,
        i + 1,
        words,
    );
    let by_left = near < left.after;
    let from = if by_left { left.after - 1 } else { near };
    let right = search::search(
        table,
        records,
        view,
        copy,
        waiting,
        k - 1,
        true,
        from,
        late.min(i + 1),
        words,
    );
    say_search(
        Kind::Since,
        right.first < right.done,
        right.first,
        from,
        by_left,
    )
}

// The interval's lower end. It has 32 bits, so that behind a time it fits.
fn low_of(row: Row) -> u64
    ensures { (result ≡ row.low) × (result < 4294967296) }
{
    u64::from(row.low)
}

// "the first position where left is answered no or which lies more than high later, left's if both"; the earliest fitting j lies not behind
// it, at least low after i and at most high after i.
fn say_until(
    table: &[Row; 128],
    records: &[u8],
    view: &View,
    copy: &mut KeptCopy,
    waiting: &mut KeptCopy,
    words: &mut [u64],
    k: usize,
    i: u64,
) -> Saying
    requires { Lent table.now view.now records.now words.old copy.old waiting.old k × (i ≤ 2000000) × ((kind_at table.now k) ≡ 6) }
    ensures shape { Shape 6 i result × ((low high : ℕ) (φ ψ : Formula) (L : Log) → Answering (Formula.until low high φ ψ) table.now view.now records.now k L i → result ≡ saying_of (Formula.until low high φ ψ) L i) }
    ensures keeps { Keeps records.now copy.new × Keeps records.now waiting.new }
{
    let row = table[k];
    let low = low_of(row);
    let high = u64::from(row.high);
    let operand = usize::from(row.left);
    let now = times::time_of(records, view, i);
    let over = times::first_at(records, view, now + high + 1);
    let soon = times::first_at(records, view, now + low);
    let left = search::search(
        table,
        records,
        view,
        copy,
        waiting,
        operand,
        false,
        i,
        over + 1,
        words,
    );
    let by_left = left.first < left.done;
    let stop = if by_left { left.first } else { over };
    let from = i.max(soon);
    let right = search::search(
        table,
        records,
        view,
        copy,
        waiting,
        k - 1,
        true,
        from,
        over.min(stop + 1),
        words,
    );
    say_search(
        Kind::Until,
        right.first < right.done,
        right.first,
        stop,
        by_left,
    )
}

// What entry k says at position i.
pub fn say(
    table: &[Row; 128],
    records: &[u8],
    view: &View,
    copy: &mut KeptCopy,
    waiting: &mut KeptCopy,
    words: &mut [u64],
    k: usize,
    i: u64,
) -> Saying
    requires { Lent table.now view.now records.now words.old copy.old waiting.old k × (i ≤ 2000000) }
    ensures saids { Saids table.now view.now records.now k i result }
    ensures keeps { Keeps records.now copy.new × Keeps records.now waiting.new }
{
    let row = table[k];
    let letter = u64::from(row.letter);
    let low = u64::from(row.low);
    let high = u64::from(row.high);
    match row.kind {
        Kind::Letter => say_letter(records, view, letter, i),
        Kind::Not => say_connective(Kind::Not, Follows::One(i, true)),
        Kind::Or => say_connective(Kind::Or, Follows::Either),
        Kind::Previous => say_previous(records, view, low, high, i),
        Kind::Next => say_next(records, view, low, high, i),
        Kind::Since => say_since(table, records, view, copy, waiting, words, k, i),
        Kind::Until => say_until(table, records, view, copy, waiting, words, k, i),
    }
}
