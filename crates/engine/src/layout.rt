// The decoded rule laid out for the engine: a row for each entry, once for a call.
ghost use Rattle.std.specs.Prelude.{◌≡◌, true, cond, ℕ, ◌+◌, ◌-◌, ◌≤◌, ◌<◌, length, get_or, take, List};
ghost use Rattle.rule.specs.Accepted.{WellFormed};
ghost use Rattle.rule.specs.Words.{own};
ghost use Rattle.rule.specs.Kinds.{number_of_kind};
ghost use Rattle.blocks.specs.Kinds.{takes_left};
ghost use Rattle.engine.specs.Table.{no_row, row_at};
ghost use Rattle.mtl.specs.Formula.{Formula};
ghost use Rattle.engine.specs.Layout.{first_from, left_from, RowOfEntry, Laid};
ghost use Rattle.engine.specs.Tops.{Tops, LaidAs};
ghost use Rattle.rule.specs.declared.Entry.{Entry};

use super::table::{Row, takes_left, takes_right};
use super::tops::{NO_TOP, Top};
use blocks::word;
use rule::{Ends, Entry, Kind, Rule};

// The entry before; entry 0 has none, and takes no operand.
fn one_less(k: usize) -> usize
    ensures { result ≡ k - 1 }
{
    if k == 0 { 0 } else { k - 1 }
}

// The entry before the first of the right operand's entries.
fn left_entry(takes: bool, k: usize, firsts: &[usize; 128]) -> usize
    requires { k ≤ 128 }
    ensures { result ≡ left_from takes k firsts.now }
{
    if takes {
        one_less(firsts[one_less(k)])
    } else {
        0
    }
}

// The first entry of the subformula that ends at entry k: the left operand's, or the right or only one's, or its own.
fn first_entry(kind: Kind, k: usize, firsts: &[usize; 128]) -> usize
    requires { (k ≤ 128) × (takes_left (number_of_kind kind) ≡ true → get_or firsts.now (k - 1) 0 ≤ 128) }
    ensures { result ≡ first_from (number_of_kind kind) k firsts.now }
{
    if takes_left(kind) {
        return firsts[left_entry(true, k, firsts)];
    }
    if takes_right(kind) {
        firsts[one_less(k)]
    } else {
        k
    }
}

// The words of an operand, from its row.
fn words_of(takes: bool, operand: usize, table: &[Row; 128]) -> u16
    requires { operand < 128 }
    ensures { result ≡ cond takes (row_at table.now operand).words 0 }
{
    if takes { table[operand].words } else { 0 }
}

// The kind of an accepted rule's entry.
fn kind_of(e: Entry) -> Kind
    requires { e.kind ≤ 6 }
    ensures { number_of_kind result ≡ e.kind }
{
    Kind::try_from(e.kind).unwrap()
}

// An entry's row, with a words for the left operand and c for the right one.
fn row_of(e: Entry, kind: Kind, left: usize, a: u16, c: u16) -> Row
    requires { (number_of_kind kind ≡ e.kind) × (left < 128) × (a + c + own e ≤ 8192) }
    ensures { RowOfEntry e left a c result }
{
    Row {
        kind,
        letter: e.letter,
        left: left as u8,
        low: e.low,
        high: e.high,
        left_words: a,
        right_words: c,
        words: a + c + rule::own_words(e) as u16,
    }
}

// Writes the rows of an accepted rule's entries into an empty table, each from those of its operands, which stand before it.
pub fn lay_out(rule: &Rule, table: &mut [Row; 128])
    requires { WellFormed rule.now.entries rule.now.count × (length table.old ≡ 128) × ((k : ℕ) → row_at table.old k ≡ no_row) }
    ensures { Laid rule.now.entries rule.now.count table.new }
{
    let mut firsts = [0usize; 128];
    for k in 0..rule.count {
        let e = rule.entries[k];
        let kind = kind_of(e);
        let takes = takes_left(kind);
        let left = left_entry(takes, k, &firsts);
        let left_words = words_of(takes, left, table);
        let right_words = words_of(takes_right(kind), one_less(k), table);
        table[k] = row_of(e, kind, left, left_words, right_words);
        firsts[k] = first_entry(kind, k, &firsts);
    }
}

// Where the formulas of a rule that is laid out stand. Their words begin at `base` and stand one after the other; `ends` has for each the
// number of entries up to and with its last.
pub fn lay_tops(ends: &Ends, table: &[Row; 128], base: usize) -> [Top; 8]
    requires { (base ≤ 24) × ((t : List Entry) × (n : ℕ) × (fs : List Formula) × LaidAs t n table.now ends.now.at ends.now.number fs) }
    ensures { (t : List Entry) (n : ℕ) (fs : List Formula) → LaidAs t n table.now ends.now.at ends.now.number fs → Tops table.now (take ends.now.number result) base fs }
{
    let mut tops = [NO_TOP; 8];
    let mut from = base;
    for k in 0..ends.number {
        let entry = one_less(ends.at[k]);
        let row = table[entry];
        let to = from + usize::from(row.words);
        tops[k] = Top {
            entry,
            from,
            to,
            held: from + row.own_at() + word::HELD_COUNT,
        };
        from = to;
    }
    tops
}
