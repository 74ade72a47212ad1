// The levels of precedence, which call one another; the brackets lead back to the lowest. Each reads a phrase from a place of
// the text on, puts the entries of its formula behind those that the buffer has, and answers the place behind the phrase.
ghost use Rattle.std.specs.Prelude.{◌≡◌, None};
ghost use Rattle.text.specs.Grammar.Level.{timed as timed_level, prefixed as prefixed_level, atom as atom_level};
ghost use Rattle.text.specs.Reader.{prefix_kind, infix_kind, Signed, Numbered, Ended, Timed, Joins, ReadsLevel, AnswersAfter};

use super::entries::Buffer;
use super::token::{self, Token};
use rule::{Entry, Kind};

// "no upper end"
const UNBOUNDED: u32 = 4294967295;

// An interval, and the place behind it.
#[derive(Clone, Copy)]
pub struct Interval {
    pub low: u32,
    pub high: u32,
    pub next: usize,
}

// An end of an interval, and the place behind it.
#[derive(Clone, Copy)]
pub struct Limit {
    pub value: u32,
    pub next: usize,
}

// The kind of the entry of a word that stands before its operand.
fn prefix_kind(word: Token) -> Option<Kind>
    ensures { result ≡ prefix_kind word }
{
    match word {
        Token::Not => Some(Kind::Not),
        Token::Prev => Some(Kind::Previous),
        Token::Next => Some(Kind::Next),
        _ => None,
    }
}

// The kind of the entry of a word that stands between its operands.
fn infix_kind(word: Token) -> Option<Kind>
    ensures { result ≡ infix_kind word }
{
    match word {
        Token::Since => Some(Kind::Since),
        Token::Until => Some(Kind::Until),
        _ => None,
    }
}

// The place behind a sign, where it stands.
fn behind(text: &[u8], at: usize, sign: Token) -> Option<usize>
    ensures { Signed sign text.now at result }
{
    let lexeme = token::token_at(text, at)?;
    if lexeme.token == sign {
        Some(lexeme.next)
    } else {
        None
    }
}

fn low(text: &[u8], at: usize) -> Option<Limit>
    ensures { Numbered text.now at result }
{
    let lexeme = token::token_at(text, at)?;
    match lexeme.token {
        Token::Number(value) => Some(Limit {
            value,
            next: lexeme.next,
        }),
        _ => None,
    }
}

fn high(text: &[u8], at: usize) -> Option<Limit>
    ensures { Ended text.now at result }
{
    let lexeme = token::token_at(text, at)?;
    match lexeme.token {
        Token::Number(value) => Some(Limit {
            value,
            next: lexeme.next,
        }),
        Token::Inf => Some(Limit {
            value: UNBOUNDED,
            next: lexeme.next,
        }),
        _ => None,
    }
}

// The interval that a timed word carries; not carries none.
fn carried(text: &[u8], at: usize, word: Token) -> Option<Interval>
    ensures { Timed word text.now at result }
{
    if word == Token::Not {
        return Some(Interval {
            low: 0,
            high: 0,
            next: at,
        });
    }
    let from = behind(text, at, Token::From)?;
    let low = low(text, from)?;
    let comma = behind(text, low.next, Token::Comma)?;
    let high = high(text, comma)?;
    let to = behind(text, high.next, Token::To)?;
    Some(Interval {
        low: low.value,
        high: high.value,
        next: to,
    })
}

// A letter, or a phrase in brackets.
#[cycle(atom_ors_prefixed_timed)]
fn atom(text: &[u8], at: usize, out: &mut Buffer) -> Option<usize>
    ensures { ReadsLevel atom_level None text.now at out.old result out.new }
{
    let lexeme = token::token_at(text, at)?;
    match lexeme.token {
        Token::Letter(letter) => {
            out.put(Entry {
                kind: Kind::Letter.number(),
                letter,
                low: 0,
                high: 0,
            });
            Some(lexeme.next)
        }
        Token::Opening => {
            let inside = ors(text, lexeme.next, false, out)?;
            behind(text, inside, Token::Closing)
        }
        _ => None,
    }
}

// not, prev and next, each before such a phrase.
#[cycle(atom_ors_prefixed_timed)]
fn prefixed(text: &[u8], at: usize, out: &mut Buffer) -> Option<usize>
    ensures { ReadsLevel prefixed_level None text.now at out.old result out.new }
{
    let lexeme = token::token_at(text, at)?;
    let Some(kind) = prefix_kind(lexeme.token) else {
        return atom(text, at, out);
    };
    let timing = carried(text, lexeme.next, lexeme.token)?;
    let operand = prefixed(text, timing.next, out)?;
    out.put(Entry {
        kind: kind.number(),
        letter: 0,
        low: timing.low,
        high: timing.high,
    });
    Some(operand)
}

// since and until, which group to the right.
#[cycle(atom_ors_prefixed_timed)]
fn timed(text: &[u8], at: usize, out: &mut Buffer) -> Option<usize>
    ensures { ReadsLevel timed_level None text.now at out.old result out.new }
{
    let left = prefixed(text, at, out)?;
    let Some(lexeme) = token::token_at(text, left) else {
        return Some(left);
    };
    let Some(kind) = infix_kind(lexeme.token) else {
        return Some(left);
    };
    let timing = carried(text, lexeme.next, lexeme.token)?;
    let right = timed(text, timing.next, out)?;
    out.put(Entry {
        kind: kind.number(),
        letter: 0,
        low: timing.low,
        high: timing.high,
    });
    Some(right)
}

// or, which groups to the left: `later` says that a term stands before this one.
#[cycle(atom_ors_prefixed_timed)]
pub fn ors(text: &[u8], at: usize, later: bool, out: &mut Buffer) -> Option<usize>
    ensures { AnswersAfter later text.now at out.old result out.new }
{
    let term = timed(text, at, out)?;
    join(later, out);
    match behind(text, term, Token::Or) {
        Some(next) => ors(text, next, true, out),
        None => Some(term),
    }
}

// The entry of the or between a term and those before it.
fn join(later: bool, out: &mut Buffer)
    ensures { Joins later out.old out.new }
{
    if later {
        out.put(Entry {
            kind: Kind::Or.number(),
            letter: 0,
            low: 0,
            high: 0,
        });
    }
}
