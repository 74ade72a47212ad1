// The decoded rule: a row for each entry.
ghost use Rattle.std.specs.Prelude.{◌≡◌, ◌+◌};
ghost use Rattle.rule.specs.Kinds.{number_of_kind};
ghost use Rattle.blocks.specs.Kinds.{takes_left, takes_right};

use rule::Kind;

// An entry's fields, the left operand's entry, the words of both operands, and all words of its part. Each is as small as may be, since a
// call clears the whole table.
#[derive(Clone, Copy)]
pub struct Row {
    pub kind: Kind,
    pub letter: u8,
    pub left: u8,
    pub low: u32,
    pub high: u32,
    pub left_words: u16,
    pub right_words: u16,
    pub words: u16,
}

// The row that stands where none is laid out.
pub const NO_ROW: Row = Row {
    kind: Kind::Letter,
    letter: 0,
    left: 0,
    low: 0,
    high: 0,
    left_words: 0,
    right_words: 0,
    words: 0,
};

impl Row {
    // Where the entry's own block begins in its part: behind its operands' words.
    pub(crate) fn own_at(self) -> usize
        ensures { result ≡ self.left_words + self.right_words }
    {
        usize::from(self.left_words) + usize::from(self.right_words)
    }
}

// or, since, until.
pub fn takes_left(kind: Kind) -> bool
    ensures { result ≡ takes_left (number_of_kind kind) }
{
    matches!(kind, Kind::Or | Kind::Since | Kind::Until)
}

// Every kind but letter.
pub fn takes_right(kind: Kind) -> bool
    ensures { result ≡ takes_right (number_of_kind kind) }
{
    !matches!(kind, Kind::Letter)
}
