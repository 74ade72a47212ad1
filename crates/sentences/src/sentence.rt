// A sentence as a line of text.
ghost use Rattle.std.specs.Prelude.{◌≡◌, ◌+◌, ◌≤◌, ◌<◌, IfSome};
ghost use Rattle.decimal.specs.Written.{Room, Puts};
ghost use Rattle.sentences.specs.Line.{kind_text, value_text, tail_text, line_text};

use decimal::Text;
use rule::Kind;

// The word at the end of a line: a letter's answer, that no position stands before, or why a since or an until is no.
#[derive(Clone, Copy, Debug, PartialEq, Eq)]
pub enum Tail {
    Yes,
    No,
    NoneBefore,
    Left,
    Time,
}

// What stands in a line behind the entry's number and the position: the word of the entry's kind, a number, and a word at the end.
#[derive(Clone, Copy, Debug, PartialEq, Eq)]
pub struct Sentence {
    pub kind: Kind,
    pub number: Option<u64>,
    pub tail: Option<Tail>,
}

// One space, the kind's word, and one more space where a number or a word follows. A letter's number follows its e.
#[tactic(auto, unfolding(decimal::specs::Text::ascii))]
fn word_of(kind: Kind) -> &'static [u8]
    ensures { result.now ≡ kind_text kind }
{
    match kind {
        Kind::Letter => b" e",
        Kind::Not => b" not",
        Kind::Or => b" or",
        Kind::Previous => b" prev ",
        Kind::Next => b" next ",
        Kind::Since => b" since ",
        Kind::Until => b" until ",
    }
}

// The number, where there is one.
#[tactic(auto, using(decimal::proofs::Decimals::ten_digits, decimal::proofs::Texts::puts_none))]
fn put_value(number: Option<u64>, text: &mut Text)
    requires { IfSome number (λ n. n < 4294967296) × Room text.old 10 }
    ensures { Puts text.old (value_text number) text.new }
{
    if let Some(n) = number {
        text.put_number(n as usize);
    }
}

// The word at the end, if there is one, and byte 10.
#[tactic(auto, unfolding(decimal::specs::Text::ascii))]
fn end_of(tail: Option<Tail>) -> &'static [u8]
    ensures { result.now ≡ tail_text tail }
{
    match tail {
        None => b"\n",
        Some(Tail::Yes) => b" yes\n",
        Some(Tail::No) => b" no\n",
        Some(Tail::NoneBefore) => b"none\n",
        Some(Tail::Left) => b" left\n",
        Some(Tail::Time) => b" time\n",
    }
}

// The line of entry k at position i, of 34 bytes at most.
#[tactic(auto, using(crate::proofs::Lines::short_entry, crate::proofs::Lines::short_position, crate::proofs::Lines::short_kind, crate::proofs::Lines::short_value, crate::proofs::Lines::short_tail))]
pub fn put_line(k: usize, i: u64, says: Sentence, text: &mut Text)
    requires { (k < 128) × (i < 10000000) × IfSome says.number (λ n. n < 4294967296) × Room text.old 34 }
    ensures { Puts text.old (line_text k i says) text.new × (text.new.at ≤ text.old.at + 34) }
{
    text.put_number(k);
    text.put(b" ");
    text.put_number(i as usize);
    text.put(word_of(says.kind));
    put_value(says.number, text);
    text.put(end_of(says.tail));
}
