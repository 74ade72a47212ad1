// The tokens of a text, one at a time.
ghost use Rattle.std.specs.Prelude.{◌≡◌, ◌<◌, IfSome};
ghost use Rattle.text.specs.Tokens.{runs, digit, extended, numeral, lettered, letter_or_number, token_of, tokens, some_unknown};
ghost use Rattle.text.specs.Tokens.{sign as sign_of};
ghost use Rattle.text.specs.Reader.{Skips, RunsTo, Lexed};

// The words and numbers, the signs ( ) [ ] and the comma; `Unknown` is any other run or sign.
#[derive(Clone, Copy, PartialEq, Eq)]
pub enum Token {
    Letter(u8),
    Number(u32),
    Not,
    Or,
    Prev,
    Next,
    Since,
    Until,
    Inf,
    Opening,
    Closing,
    From,
    To,
    Comma,
    Unknown,
}

// A token, and the place behind it.
#[derive(Clone, Copy)]
pub struct Lexeme {
    pub token: Token,
    pub next: usize,
}

fn is_run(b: u8) -> bool
    ensures { result ≡ runs b }
{
    matches!(b, b'a'..=b'z' | b'0'..=b'9')
}

fn digit(b: u8) -> Option<u32>
    ensures { (result ≡ digit b) × IfSome result (λ v. v < 10) }
{
    match b {
        b'0'..=b'9' => Some(u32::from(b - b'0')),
        _ => None,
    }
}

// A number with one digit more: at most four digits, and nothing stands behind a leading zero.
fn extend(front: u32, b: u8) -> Option<u32>
    ensures { (result ≡ extended (Some front) b) × IfSome result (λ v. v < 10000) }
{
    let last = digit(b)?;
    if (front == 0) | (front >= 1000) {
        None
    } else {
        Some(front * 10 + last)
    }
}

#[tactic(auto, using(crate::proofs::Lexing::none_from), unfolding(crate::specs::Tokens::numeral_from))]
fn number(run: &[u8]) -> Option<u32>
    ensures { result ≡ numeral run.now }
{
    let (first, rest) = run.split_first()?;
    let mut value = digit(*first)?;
    for b in rest {
        value = extend(value, *b)?;
    }
    Some(value)
}

fn letter(value: Option<u32>) -> Token
    ensures { result ≡ lettered value }
{
    match value {
        Some(k) if k < 32 => Token::Letter(k as u8),
        _ => Token::Unknown,
    }
}

fn letter_or_number(run: &[u8]) -> Token
    ensures { result ≡ letter_or_number run.now }
{
    match run {
        [b'e', digits @ ..] => letter(number(digits)),
        _ => match number(run) {
            Some(value) => Token::Number(value),
            None => Token::Unknown,
        },
    }
}

// The word that a run is, or a letter or a number.
#[tactic(auto, unfolding(crate::specs::Tokens::token_of, crate::specs::Ascii::ascii))]
fn word(run: &[u8]) -> Token
    ensures { result ≡ token_of run.now }
{
    if run == b"not".as_slice() {
        Token::Not
    } else if run == b"or".as_slice() {
        Token::Or
    } else if run == b"prev".as_slice() {
        Token::Prev
    } else if run == b"next".as_slice() {
        Token::Next
    } else if run == b"since".as_slice() {
        Token::Since
    } else if run == b"until".as_slice() {
        Token::Until
    } else if run == b"inf".as_slice() {
        Token::Inf
    } else {
        letter_or_number(run)
    }
}

#[tactic(auto, unfolding(crate::specs::Tokens::sign))]
fn sign(b: u8) -> Token
    ensures { result ≡ sign_of b }
{
    match b {
        b'(' => Token::Opening,
        b')' => Token::Closing,
        b'[' => Token::From,
        b']' => Token::To,
        b',' => Token::Comma,
        _ => Token::Unknown,
    }
}

// The place of the next byte that is no space.
#[tactic(auto, using(crate::proofs::Lexing::space, crate::proofs::Lexing::space_inside))]
fn skip(text: &[u8], at: usize) -> usize
    ensures { Skips text.now at result }
{
    let mut i = at;
    while rule::byte_at(text, i) == b' ' {
        i += 1;
    }
    i
}

// The place behind the run of small letters and digits at a place.
#[tactic(auto, using(crate::proofs::Lexing::run_inside, crate::proofs::Lexing::run_more))]
fn run_end(text: &[u8], at: usize) -> usize
    ensures { RunsTo text.now at result }
{
    let mut i = at;
    while is_run(rule::byte_at(text, i)) {
        i += 1;
    }
    i
}

// The next token from a place of the text on; none behind the last.
#[tactic(auto, using(crate::proofs::Lexing::lexed_run, crate::proofs::Lexing::lexed_end))]
pub fn token_at(text: &[u8], at: usize) -> Option<Lexeme>
    ensures { Lexed text.now at result }
{
    let from = skip(text, at);
    if from >= text.len() {
        return None;
    }
    let b = text[from];
    if is_run(b) {
        let next = run_end(text, from);
        Some(Lexeme {
            token: word(&text[from..next]),
            next,
        })
    } else {
        Some(Lexeme {
            token: sign(b),
            next: from + 1,
        })
    }
}

// Whether some token of the text is unknown.
#[tactic(auto, using(crate::proofs::Lexing::unknown_here, crate::proofs::Lexing::unknown_later, crate::proofs::Lexing::none_unknown))]
pub fn any_unknown(text: &[u8]) -> bool
    ensures { result ≡ some_unknown (tokens text.now) }
{
    let mut at: usize = 0;
    while let Some(lexeme) = token_at(text, at) {
        if lexeme.token == Token::Unknown {
            return true;
        }
        at = lexeme.next;
    }
    false
}
