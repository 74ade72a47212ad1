// Words of answers: bit i of a word, the one worth 2 to the i, answers the i-th of up to 64 positions.
#![tactic(auto)]

ghost use Rattle.std.specs.Prelude.{◌≡◌, ℕ, ◌+◌, ◌-◌, ◌/◌, ◌%◌, ◌≤◌, ◌<◌, ◌^◌};
ghost use Rattle.bits.specs.Packed.{bit, number, with_bit, zeros, last_zero, FirstZero, FilledDown, FilledUp, Prolonged, OnesBetween};

pub mod bytes;

const ALL_ONES: u64 = 18446744073709551615;

// 1 for true.
pub fn flag(x: bool) -> u64
    ensures { result ≡ number x }
{
    if x { 1 } else { 0 }
}

// Bit i.
pub fn test(word: u64, i: u64) -> bool
    requires { i < 64 }
    ensures { result ≡ bit word i }
{
    (word >> i) % 2 == 1
}

// The bits behind the first n.
pub fn rest(word: u64, n: u64) -> u64
    ensures { result ≡ word / 2 ^ n }
{
    if n < 64 { word >> n } else { 0 }
}

// A word of n bits with one more behind them.
pub fn push(word: u64, n: u64, x: bool) -> u64
    requires { (n < 64) × (word < 2 ^ n) }
    ensures { (result ≡ with_bit word n x) × (result < 2 ^ (n + 1)) }
{
    word + (flag(x) << n)
}

// The first n bits turned, without those behind them.
fn turned(word: u64, n: u64) -> u64
    requires { n ≤ 64 }
    ensures { result ≡ (2 ^ 64 - 1 - word) % 2 ^ n }
{
    if n < 64 { !word % (1 << n) } else { !word }
}

// How many of the first n bits are 0.
pub fn count_zeros(word: u64, n: u64) -> u64
    requires { n ≤ 64 }
    ensures { (result ≡ zeros n word) × (result ≤ n) }
{
    u64::count_ones(turned(word, n)) as u64
}

// One more than the place of the last of the first n bits that is 0; 0 where none is.
pub fn find_last_zero(word: u64, n: u64) -> u64
    requires { n ≤ 64 }
    ensures { (result ≡ last_zero n word) × (result ≤ n) }
{
    64 - u64::leading_zeros(turned(word, n)) as u64
}

// The place of the first of the first n bits that is 0; n where none is.
pub fn find_first_zero(word: u64, n: u64) -> u64
    requires { n ≤ 64 }
    ensures { FirstZero word n result }
{
    let at = u64::trailing_zeros(!word) as u64;
    if at < n { at } else { n }
}

// Bit i where right holds at some j ≥ i, and left from i up to j - 1. With each turn what is found lies up to twice as far.
pub fn fill_down(left: u64, right: u64) -> u64
    ensures { FilledDown left right result }
{
    let mut found = right;
    let mut held = left;
    let mut far: u64 = 1;
    while far < 64 {
        found = found | (held & (found >> far));
        held = held & (held >> far);
        far += far;
    }
    found
}

// Bit i where right holds at some j ≤ i, and left from j + 1 up to i.
pub fn fill_up(left: u64, right: u64) -> u64
    ensures { FilledUp left right result }
{
    let mut found = right;
    let mut held = left;
    let mut far: u64 = 1;
    while far < 64 {
        found = found | (held & (found << far));
        held = held & (held << far);
        far += far;
    }
    found
}

// n bits, each of them x.
pub fn repeat(x: bool, n: u64) -> u64
    requires { n < 64 }
    ensures { (result < 2 ^ n) × ((i : ℕ) → i < n → bit result i ≡ x) }
{
    if x { (1 << n) - 1 } else { 0 }
}

// The word with the n bits of another in front of its own.
pub fn prolong(word: u64, front: u64, n: u64) -> u64
    requires { (n < 64) × (front < 2 ^ n) }
    ensures { Prolonged word front n result }
{
    front | (word << n)
}

// The word whose bits from `from` to `end` are 1.
pub fn ones_between(from: u64, end: u64) -> u64
    requires { (from ≤ 64) × (end ≤ 64) }
    ensures { OnesBetween from end result }
{
    !rest(ALL_ONES, 64 - from) & rest(ALL_ONES, 64 - end)
}
