// The words, the reach and the depth of a rule's entries ("Points and sheets", "Which positions are settled", document 02's paper 2), and
// refusals 5 to 8.
ghost use Rattle.std.specs.Prelude.{◌≡◌, ◌+◌, ◌≤◌, ◌<◌, min, max};
ghost use Rattle.mtl.specs.Satisfaction.{any};
ghost use Rattle.mtl.specs.Wanted.{deepest};
ghost use Rattle.rule.specs.Words.{own, header_words};
ghost use Rattle.rule.specs.Postfix.{fewest_formulas, most_formulas, formulas, formulas_or};
ghost use Rattle.rule.specs.Measure.{answer};
ghost use Rattle.rule.specs.Contract.{measured_entries, EndsOf};
ghost use Rattle.rule.specs.Code.{added_by, joined_by, is_previous, totals, with_entry, greatest, reading};
ghost use Rattle.rule.specs.Operands.{operands};

use super::{Entry, Measured, Rule, entries, refusals};
use refusal::Refusal;

// What is read of a formula: its reach, or its depth, the most previous entries on a path from its last entry to a letter.
#[derive(Clone, Copy, Debug, PartialEq, Eq)]
enum Quantity {
    Reach,
    Depth,
}

// Where each formula ends: how many there are, and for each the number of entries up to and with its last. There are at most 8 of them,
// and position 8 stands for all places of the stack behind those.
#[derive(Clone, Copy)]
pub struct Ends {
    pub number: usize,
    pub at: [usize; 9],
}

// What one pass over the entries adds up.
#[derive(Clone, Copy)]
struct Totals {
    misshapen: bool,
    misplaced: bool,
    next: bool,
    words: u64,
}

// the most words that a checkpoint may need
const LIMIT: u64 = 8192;

// the operands of the kinds 0 to 6
const OPERANDS: [usize; 7] = [0, 1, 2, 1, 1, 2, 2];

// The words of one entry.
pub fn own_words(e: Entry) -> u64
    ensures { (result ≡ own e) × (result ≤ 8589934610) }
{
    let high = u64::from(e.high);
    if e.kind == 5 {
        if e.high == entries::UNBOUNDED {
            16 + 1
        } else {
            16 + (high + 1)
        }
    } else if e.kind == 6 {
        16 + 2 * (high + 1)
    } else {
        16
    }
}

impl Totals {
    fn with(self, e: Entry) -> Totals
        requires { self.words < 1125899906842624 }
        ensures { (result ≡ with_entry self e) × (result.words ≤ self.words + 8589934610) }
    {
        Totals {
            misshapen: self.misshapen | refusals::is_misshapen(e),
            misplaced: self.misplaced | refusals::is_misplaced(e),
            next: self.next | (e.kind == 4),
            words: self.words + own_words(e),
        }
    }
}

fn operands_of(kind: u8) -> usize
    ensures { result ≡ operands kind }
{
    let k = usize::from(kind);
    if k < 7 { OPERANDS[k] } else { 200 }
}

// What an entry adds to the larger of its operands' quantities.
fn added(of: Quantity, e: Entry) -> u64
    ensures { (result ≡ added_by of e) × (result ≤ 4294967295) }
{
    let high = u64::from(e.high);
    match of {
        Quantity::Reach => { if e.kind == 6 { high } else { 0 } }
        Quantity::Depth => { if e.kind == 3 { 1 } else { 0 } }
    }
}

// The quantity of an entry's formula from those of its operands.
fn joined(of: Quantity, e: Entry, left: u64, right: u64) -> u64
    requires { (left < 1125899906842624) × (right < 1125899906842624) }
    ensures { (result ≡ joined_by of e left right) × (result ≤ max left right + 4294967295) }
{
    if e.kind == 0 {
        0
    } else {
        added(of, e) + left.max(right)
    }
}

// The largest of the quantities from position 1 to the top, and 0 where there is none.
fn highest(stack: &[u64; 129], top: usize) -> u64
    requires { top < 129 }
    ensures { result ≡ greatest stack.now top }
{
    let mut most: u64 = 0;
    for at in 0..top {
        most = most.max(stack[at + 1]);
    }
    most
}

impl Rule {
    // Refusals 5 and 6 over all entries, whether there is a next, and the words.
    fn add_up(&self) -> Totals
        ensures { (result ≡ totals self.now.entries self.now.count) × (result.words ≤ 1099511630080) }
    {
        let mut sums = Totals {
            misshapen: false,
            misplaced: false,
            next: false,
            words: 0,
        };
        for k in 0..self.count {
            sums = sums.with(self.entries[k]);
        }
        sums
    }

    // The fewest and the most formulas of a rule of this version.
    fn fewest_formulas(&self) -> usize
        ensures { result ≡ fewest_formulas self.now.version }
    {
        if self.version == 1 { 0 } else { 1 }
    }

    pub fn most_formulas(&self) -> usize
        ensures { result ≡ most_formulas self.now.version }
    {
        if self.version == 1 { 1 } else { 8 }
    }

    // The words of a checkpoint before those of its entries.
    pub fn header_words(&self) -> usize
        ensures { result ≡ header_words self.now.version }
    {
        if self.version == 1 { 16 } else { 24 }
    }

    // The largest quantity of the formulas, 0 where there is no entry; none where the entries are no formulas. They are read in postfix order
    // with a stack, which holds the quantity of each formula: position 1 is its bottom, and 0 stands below it.
    fn read(&self, of: Quantity) -> Option<u64>
        ensures { result ≡ reading of (formulas self.now.version self.now.entries self.now.count) }
    {
        let mut stack = [0u64; 129];
        let mut depth: usize = 0;
        for k in 0..self.count {
            let e = self.entries[k];
            let taken = operands_of(e.kind);
            if depth < taken {
                return None;
            }
            let at = depth + 1 - taken;
            stack[at] = joined(of, e, stack[at], stack[depth]);
            depth = at;
        }
        if (self.fewest_formulas() <= depth) & (depth <= self.most_formulas()) {
            Some(highest(&stack, depth))
        } else {
            None
        }
    }

    // Where each formula ends: the same stack, which holds for each formula the number of entries up to and with its last.
    pub fn ends(&self) -> Ends
        ensures { EndsOf self.now.entries self.now.count result }
    {
        let mut at = [0usize; 9];
        let mut depth: usize = 0;
        for k in 0..self.count {
            let taken = operands_of(self.entries[k].kind);
            if depth < taken {
                return Ends { number: 0, at };
            }
            let top = depth - taken;
            at[top.min(8)] = k + 1;
            depth = top + 1;
        }
        Ends { number: depth, at }
    }

    // Whether some entry is a previous.
    fn has_previous(&self) -> bool
        ensures { result ≡ any self.now.count (is_previous self.now.entries) }
    {
        let mut found = false;
        for k in 0..self.count {
            found = found | (self.entries[k].kind == 3);
        }
        found
    }

    // The depth of the entries' formulas; 0 where they are none. Few rules have a previous, and without one no stack is needed.
    pub fn depth(&self) -> u64
        ensures { result ≡ deepest (formulas_or (formulas self.now.version self.now.entries self.now.count)) }
    {
        if !self.has_previous() {
            return 0;
        }
        self.read(Quantity::Depth).unwrap_or(0)
    }

    // Refusals 5 to 8, or the words and the reach.
    pub fn measure(&self) -> Result<Measured, Refusal>
        ensures { answer result ≡ measured_entries self.now.version self.now.entries self.now.count }
    {
        let sums = self.add_up();
        if sums.misshapen {
            return Err(Refusal::EntryField);
        }
        if sums.misplaced {
            return Err(Refusal::Interval);
        }
        let reach = self.read(Quantity::Reach).ok_or(Refusal::Shape)?;
        let words = self.header_words() as u64 + sums.words;
        if words > LIMIT {
            return Err(Refusal::TooManyWords);
        }
        let reach = if sums.next {
            u64::from(entries::UNBOUNDED)
        } else {
            reach
        };
        Ok(Measured {
            words: words as usize,
            reach,
        })
    }
}
