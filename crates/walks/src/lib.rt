// The walks of an until: from words of its operands' answers to a word of its own, by whole words where that can be.
#![tactic(auto)]

ghost use Rattle.std.specs.Prelude.{◌≡◌, ◌⊎◌, true, false, ℕ, ◌+◌, ◌-◌, ◌%◌, ◌≤◌, ◌<◌, ◌^◌, min};
ghost use Rattle.trace.specs.Format.{record_count, time_at};
ghost use Rattle.bits.specs.Packed.{bit, Packed};
ghost use Rattle.walks.specs.Settle.{settle_spec, time_of_none, next_of, look_spec, take_spec, Rising, latest_right, is_late, Words, LastMet, first_right, is_soon, Met, Far, Walk, ByWords, Outreaches, is_told, Calm};

// Up to so many stretches are gone through one by one.
const FEW_STRETCHES: u64 = 4;

// The last position taken: the operands' answers there, and its time.
#[derive(Clone, Copy)]
pub struct Last {
    pub left: bool,
    pub right: bool,
    pub time: u64,
}

// A stretch of answers: their word and number, how many positions were taken for them, and the last one taken, now or before.
#[derive(Clone, Copy)]
pub struct Walked {
    pub bits: u64,
    pub count: u64,
    pub took: u64,
    pub last: Last,
}

// What the words of those to take tell where low is above 0: bit i where right holds at some j at least low after i, and left from i up to
// j - 1; and the time of the latest right that left leads to from the first on, 0 where there is none.
#[derive(Clone, Copy)]
pub struct Late {
    bits: u64,
    right: u64,
}

// What right's word of those to take tells where high is shorter than they reach: bit i where the first right from i on lies at most high
// after i; and the time of the first right of all, later than any where there is none.
#[derive(Clone, Copy)]
pub struct Soon {
    bits: u64,
    right: u64,
}

// No two times lie further apart than this: a high above it is as good as this one.
pub const LONGEST_GAP: u64 = 4294967295;

// The time that stands for a right's where there is none: no time and high come to it.
const TIME_OF_NO_RIGHT: u64 = 8589934592;

// A word of yes.
const ALL_YES: u64 = u64::MAX;

// The answer at the position whose time is `start`, if the last position taken or the time of the next settles it.
pub fn settle(low: u64, high: u64, start: u64, last: Last, next: u64) -> Option<bool>
    ensures { result ≡ settle_spec low high start last next }
{
    let met = last.right & (low <= last.time.saturating_sub(start));
    let over = !last.left | (high < next.saturating_sub(start));
    if met | over { Some(met) } else { None }
}

// The time that stands for the next position's where there is none: later than all where the log is closed, else not later than any.
pub fn time_of_none(closed: bool) -> u64
    ensures { result ≡ time_of_none closed }
{
    if closed { 8589934592 } else { 0 }
}

// The time of position i of so many in a window, and `none` for the one behind them.
pub fn next_time(ahead: &[u8], i: u64, end: u64, none: u64) -> u64
    requires { end ≤ record_count ahead.now }
    ensures { result ≡ next_of (time_at ahead.now) end none i }
{
    if i < end {
        trace::time(ahead, i as usize)
    } else {
        none
    }
}

// Position i of the window out of the operands' words of answers.
fn take(ahead: &[u8], i: u64, left: u64, right: u64) -> Last
    requires { (i < record_count ahead.now) × (i < 64) }
    ensures { (result ≡ take_spec (time_at ahead.now) i left right) × (result.time < 2 ^ 32) }
{
    Last {
        left: bits::test(left, i),
        right: bits::test(right, i),
        time: trace::time(ahead, i as usize),
    }
}

// The answer at record `waiting` of `starts`, if it is known where the one at record `at` of `ahead` is the next to take; `ahead` begins
// `lead` positions behind, and behind its first n comes the time `after`.
fn look(
    low: u64,
    high: u64,
    starts: &[u8],
    waiting: u64,
    ahead: &[u8],
    at: u64,
    lead: u64,
    n: u64,
    after: u64,
    last: Last,
) -> Option<bool>
    requires { (n ≤ record_count ahead.now) × (lead + at < 2 ^ 64) × (waiting < lead + at → waiting < record_count starts.now) }
    ensures { result ≡ look_spec low high (time_at starts.now) (next_of (time_at ahead.now) n after) lead waiting at last }
{
    if lead + at <= waiting {
        return None;
    }
    let start = trace::time(starts, waiting as usize);
    settle(low, high, start, last, next_time(ahead, at, n, after))
}

// Answers the positions of `starts` and takes the first n of `ahead`, which begins `lead` positions behind, until 64 are answered or one waits
// and all n are taken. Behind them comes the time `after`.
fn walk(
    low: u64,
    high: u64,
    starts: &[u8],
    ahead: &[u8],
    lead: u64,
    n: u64,
    after: u64,
    left: u64,
    right: u64,
    from: Last,
) -> Walked
    requires { (n ≤ 64) × (n ≤ record_count ahead.now) × (lead + n < 2 ^ 64) × (min (lead + n) 64 ≤ record_count starts.now) }
    ensures { Walk low high (time_at starts.now) (next_of (time_at ahead.now) n after) lead n left right from result }
{
    let mut last = from;
    let mut bits: u64 = 0;
    let mut count: u64 = 0;
    let mut took: u64 = 0;
    while count < 64 {
        match look(low, high, starts, count, ahead, took, lead, n, after, last) {
            Some(holds) => {
                bits = bits::push(bits, count, holds);
                count += 1;
            }
            None => {
                if took == n {
                    break;
                }
                last = take(ahead, took, left, right);
                took += 1;
            }
        }
    }
    Walked {
        bits,
        count,
        took,
        last,
    }
}

// How many of n positions are taken where the first `known` are answered behind `lead` others: all, unless that were more than 64 answers.
fn taken_for(lead: u64, known: u64, n: u64) -> u64
    requires { (lead < 64) × (known ≤ 64) }
    ensures { (lead + known ≤ 64 → result ≡ n) × (64 < lead + known → result ≡ 64 - lead) }
{
    if lead + known <= 64 { n } else { 64 - lead }
}

// A walk by whole words: low is 0, no position to take lies more than high after the first that waits, and nothing that was taken settles
// one that waits. So each is settled by the first behind it at which right holds or left fails.
pub fn walk_inside(ahead: &[u8], lead: u64, n: u64, left: u64, right: u64) -> Walked
    requires { (0 < n) × (n ≤ 64) × (n ≤ record_count ahead.now) × (lead < 64) }
    ensures by_index { (high after : ℕ) (start : ℕ → ℕ) (from : Last) → ByWords 0 high start (time_at ahead.now) lead n from → Walk 0 high start (next_of (time_at ahead.now) n after) lead n left right from result }
    ensures fact { (result.count ≡ 0) ⊎ (lead < result.count) }
{
    let known = bits::find_last_zero(left & !right, n);
    if known == 0 {
        return Walked {
            bits: 0,
            count: 0,
            took: n,
            last: take(ahead, n - 1, left, right),
        };
    }
    let took = taken_for(lead, known, n);
    let own = bits::fill_down(left, right);
    let front = bits::repeat(bits::test(own, 0), lead);
    Walked {
        bits: bits::prolong(own, front, lead),
        count: (lead + known).min(64),
        took,
        last: take(ahead, took - 1, left, right),
    }
}

// The first n bits.
fn first_bits(word: u64, n: u64) -> u64
    requires { n ≤ 64 }
    ensures { result ≡ word % 2 ^ n }
{
    if n < 64 { word % (1 << n) } else { word }
}

// Up to which of the positions from `from` to `end` they lie at least low before the time `to`.
fn find_met(low: u64, ahead: &[u8], from: u64, end: u64, to: u64) -> u64
    requires { (low ≤ 2 ^ 32) × (from ≤ end) × (end ≤ record_count ahead.now) }
    ensures { LastMet low to (time_at ahead.now) from end result }
{
    for i in (from..end).rev() {
        if trace::time(ahead, i as usize) + low <= to {
            return i + 1;
        }
    }
    from
}

// As `find_late`, from one stretch of positions that lead on to the one before it. They have the right of the one behind them, and times never
// fall, so that those that lie low before it are the stretch's first.
fn find_by_stretches(low: u64, ahead: &[u8], n: u64, leads: u64, own: u64) -> Late
    requires { (0 < low) × (low < 2 ^ 32) × (0 < n) × (n ≤ 64) × (n ≤ record_count ahead.now) × (bit leads (n - 1) ≡ false) }
    ensures { (left right : ℕ) → Words left right n own leads → Rising (time_at ahead.now) n → Packed (is_late low (time_at ahead.now) left right n) 0 n result.bits × (result.right ≡ latest_right (time_at ahead.now) left right n 0) }
{
    let mut latest = trace::time(ahead, 0);
    let mut bits: u64 = 0;
    let mut end = bits::find_last_zero(!leads, n);
    while 0 < end {
        let from = bits::find_last_zero(leads, end);
        let to = trace::time(ahead, end as usize);
        let met = find_met(low, ahead, from, end, to);
        bits = bits | bits::ones_between(from, met);
        if from == 0 {
            latest = to;
        }
        end = bits::find_last_zero(!leads, from);
    }
    Late {
        bits,
        right: if bits::test(own, 0) { latest } else { 0 },
    }
}

// Which of n positions lie at least low before the latest right that left leads to from there on. Times never fall, so one from which left
// leads on to a right behind it has the same latest right as the next; any other has none but its own, and is not late. From the last one
// that leads on down, without a branch: whether an operand holds is hard to predict. Where they are few, by stretches.
fn find_late(low: u64, ahead: &[u8], n: u64, left: u64, right: u64) -> Late
    requires { (0 < low) × (low < 2 ^ 32) × (0 < n) × (n ≤ 64) × (n ≤ record_count ahead.now) }
    ensures { Rising (time_at ahead.now) n → Packed (is_late low (time_at ahead.now) left right n) 0 n result.bits × (result.right ≡ latest_right (time_at ahead.now) left right n 0) }
{
    let own = bits::fill_down(left, first_bits(right, n));
    let leads = left & (own >> 1);
    if bits::count_zeros(!leads | (leads << 1), n) <= FEW_STRETCHES {
        return find_by_stretches(low, ahead, n, leads, own);
    }
    let end = bits::find_last_zero(!leads, n);
    let mut latest = trace::time(ahead, end as usize);
    let mut bits: u64 = 0;
    for i in (0..end).rev() {
        let now = trace::time(ahead, i as usize);
        if !bits::test(leads, i) {
            latest = now;
        }
        bits = bits * 2 + bits::flag(now + low <= latest);
    }
    Late {
        bits,
        right: if bits::test(own, 0) { latest } else { 0 },
    }
}

// How many of n positions, from the first on, lie at least low before the time `to`.
fn count_met(low: u64, starts: &[u8], n: u64, to: u64) -> u64
    requires { (low ≤ 2 ^ 32) × (n ≤ record_count starts.now) }
    ensures { Met low (time_at starts.now) to n result }
{
    for i in 0..n {
        if to < trace::time(starts, i as usize) + low {
            return i;
        }
    }
    n
}

// As `walk_inside`, where low is above 0: a position is yes where the latest right that left leads to lies at least low after it.
fn walk_late(
    low: u64,
    starts: &[u8],
    ahead: &[u8],
    lead: u64,
    n: u64,
    left: u64,
    right: u64,
) -> Walked
    requires { (0 < low) × (low < 2 ^ 32) × (0 < n) × (n ≤ 64) × (n ≤ record_count ahead.now) × (lead < 64) × (lead ≤ record_count starts.now) }
    ensures { (high after : ℕ) (from : Last) → ByWords low high (time_at starts.now) (time_at ahead.now) lead n from → Walk low high (time_at starts.now) (next_of (time_at ahead.now) n after) lead n left right from result }
{
    let late = find_late(low, ahead, n, left, right);
    let met = count_met(low, starts, lead, late.right);
    let front = bits::repeat(true, met);
    let known = bits::find_last_zero(left & !late.bits, n);
    if known == 0 {
        return Walked {
            bits: front,
            count: met,
            took: n,
            last: take(ahead, n - 1, left, right),
        };
    }
    let took = taken_for(lead, known, n);
    Walked {
        bits: bits::prolong(late.bits, front, lead),
        count: (lead + known).min(64),
        took,
        last: take(ahead, took - 1, left, right),
    }
}

// Behind which of n positions the first right lies at most high after them, from the last one down.
fn find_soon(high: u64, ahead: &[u8], n: u64, right: u64) -> Soon
    requires { (high < 2 ^ 32) × (n ≤ 64) × (n ≤ record_count ahead.now) }
    ensures { Packed (is_soon high (time_at ahead.now) right n) 0 n result.bits × (result.right ≡ first_right (time_at ahead.now) right n 0) }
{
    let mut next = TIME_OF_NO_RIGHT;
    let mut bits: u64 = 0;
    for i in (0..n).rev() {
        let now = trace::time(ahead, i as usize);
        if bits::test(right, i) {
            next = now;
        }
        bits = bits * 2 + bits::flag(next <= now + high);
    }
    Soon { bits, right: next }
}

// How many of n positions, from the first on, lie more than high before the last one.
fn count_far(high: u64, ahead: &[u8], n: u64) -> u64
    requires { (high < 2 ^ 32) × (0 < n) × (n ≤ record_count ahead.now) }
    ensures { Far high (time_at ahead.now) n result }
{
    let last = trace::time(ahead, n as usize - 1);
    for i in (0..n - 1).rev() {
        if trace::time(ahead, i as usize) + high < last {
            return i + 1;
        }
    }
    0
}

// As `walk_inside`, where those to take reach further than high: a position is yes where its first right lies at most high after it, and
// no one waits that lies more than high before the last of them.
fn walk_far(
    high: u64,
    starts: &[u8],
    ahead: &[u8],
    lead: u64,
    n: u64,
    left: u64,
    right: u64,
) -> Walked
    requires { (high + 1 < 2 ^ 32) × (0 < n) × (n ≤ 64) × (n ≤ record_count ahead.now) × (lead < 64) × (lead ≤ record_count starts.now) }
    ensures { (after : ℕ) (from : Last) → Outreaches high (time_at ahead.now) lead n from → Walk 0 high (time_at starts.now) (next_of (time_at ahead.now) n after) lead n left right from result }
{
    let soon = find_soon(high, ahead, n, right);
    let own = bits::fill_down(left, right);
    let over = count_met(high + 1, starts, lead, soon.right);
    let front = bits::repeat(bits::test(own, 0), lead) & !bits::repeat(true, over);
    let event = bits::find_last_zero(left & !right, n);
    let far = count_far(high, ahead, n);
    let known = event.max(far);
    let took = taken_for(lead, known, n);
    Walked {
        bits: bits::prolong(own & soon.bits, front, lead),
        count: (lead + known).min(64),
        took,
        last: take(ahead, took - 1, left, right),
    }
}

// Whether those to take reach further than high, and nothing that was taken settles one that waits.
fn outreaches(high: u64, ahead: &[u8], lead: u64, n: u64, from: Last) -> bool
    requires { n ≤ record_count ahead.now }
    ensures { result ≡ true → Outreaches high (time_at ahead.now) lead n from }
{
    if (n == 0) | (64 <= lead) {
        return false;
    }
    let quiet = (lead == 0) | (from.left & !from.right);
    let first = trace::time(ahead, 0);
    let last = trace::time(ahead, n as usize - 1);
    quiet & (high < last.saturating_sub(first))
}

// Whether a walk can go by whole words, where the first that waits has this time: of the others none need be read for it. No rule has a low
// above the longest gap: a time and low can be added.
pub fn by_first(
    low: u64,
    high: u64,
    start: u64,
    ahead: &[u8],
    lead: u64,
    n: u64,
    from: Last,
) -> bool
    requires { n ≤ record_count ahead.now }
    ensures { result ≡ true → (starts : ℕ → ℕ) → starts 0 ≡ start → ByWords low high starts (time_at ahead.now) lead n from }
{
    if (n == 0) | (64 <= lead) | (LONGEST_GAP < low) {
        return false;
    }
    let met = from.right & (low <= from.time.saturating_sub(start));
    let quiet = (lead == 0) | (from.left & !met);
    let last = trace::time(ahead, n as usize - 1);
    quiet & (last.saturating_sub(start) <= high)
}

// Whether a walk can go by whole words.
fn by_words(low: u64, high: u64, starts: &[u8], ahead: &[u8], lead: u64, n: u64, from: Last) -> bool
    requires { (n ≤ record_count ahead.now) × (lead + n < 2 ^ 64) × (min (lead + n) 64 ≤ record_count starts.now) }
    ensures { result ≡ true → ByWords low high (time_at starts.now) (time_at ahead.now) lead n from }
{
    if n == 0 {
        return false;
    }
    by_first(low, high, trace::time(starts, 0), ahead, lead, n, from)
}

// n yes.
fn yes_for(n: u64) -> u64
    requires { n ≤ 64 }
    ensures { result ≡ 2 ^ n - 1 }
{
    if n < 64 { (1 << n) - 1 } else { ALL_YES }
}

// Whether the last position taken settles all that wait: left fails there, or right holds and low is 0. As in `by_first`, a time and low can
// be added.
pub fn is_told(low: u64, lead: u64, last: Last) -> bool
    ensures { result ≡ is_told low lead last }
{
    (0 < lead) & (low <= LONGEST_GAP) & (!last.left | (last.right & (low == 0)))
}

// Answers those that wait, where the last position taken settles them: yes up to the first that lies less than low before its right.
fn walk_told(low: u64, starts: &[u8], lead: u64, from: Last) -> Walked
    requires { (is_told low lead from ≡ true) × (min lead 64 ≤ record_count starts.now) }
    ensures { (high n left right : ℕ) (next : ℕ → ℕ) → Walk low high (time_at starts.now) next lead n left right from result }
{
    let count = lead.min(64);
    let most = if from.right { count } else { 0 };
    let met = if low == 0 {
        most
    } else {
        count_met(low, starts, most, from.time)
    };
    Walked {
        bits: yes_for(met),
        count,
        took: 0,
        last: from,
    }
}

// The same for all that wait, where low is 0: none of their times is read.
pub fn answer_told(lead: u64, from: Last) -> Walked
    requires { (is_told 0 lead from ≡ true) × (lead ≤ 64) }
    ensures walk { (high n left right : ℕ) (start next : ℕ → ℕ) → Walk 0 high start next lead n left right from result }
    ensures count_value { result.count ≡ lead }
{
    let met = if from.right { lead } else { 0 };
    Walked {
        bits: yes_for(met),
        count: lead,
        took: 0,
        last: from,
    }
}

// Whether none of n positions settles one that waits, where a word of these and more do: left holds and right fails at all n and at the last
// position taken, and the last of the n lies at most high after the first that waits.
fn is_calm(
    high: u64,
    starts: &[u8],
    ahead: &[u8],
    lead: u64,
    n: u64,
    left: u64,
    right: u64,
    from: Last,
) -> bool
    requires { (n ≤ 64) × (n ≤ record_count ahead.now) × (min lead 64 ≤ record_count starts.now) }
    ensures { result ≡ true → Calm high (time_at starts.now) (time_at ahead.now) lead n left right from }
{
    if (lead < 64) | (n == 0) {
        return false;
    }
    let start = trace::time(starts, 0);
    let last = trace::time(ahead, n as usize - 1);
    let quiet = from.left & !from.right & (bits::find_first_zero(left & !right, n) == n);
    quiet & (last.saturating_sub(start) <= high)
}

// Takes n positions that settle none of those that wait.
fn walk_calm(ahead: &[u8], n: u64, left: u64, right: u64) -> Walked
    requires { (0 < n) × (n ≤ 64) × (n ≤ record_count ahead.now) }
    ensures { (low high lead after : ℕ) (start : ℕ → ℕ) (from : Last) → Calm high start (time_at ahead.now) lead n left right from → Walk low high start (next_of (time_at ahead.now) n after) lead n left right from result }
{
    Walked {
        bits: 0,
        count: 0,
        took: n,
        last: take(ahead, n - 1, left, right),
    }
}

// Where low is 0 and the last position taken settles none of those that wait: takes up to the first position at which right holds or left
// fails, but none more than high behind the last of those that may be answered; and says no to those that lie more than high before the
// last one taken, or all where the next one lies that far.
fn walk_over(
    high: u64,
    starts: &[u8],
    ahead: &[u8],
    lead: u64,
    n: u64,
    left: u64,
    right: u64,
    from: Last,
) -> Walked
    requires { (high < 2 ^ 32) × (0 < lead) × (0 < n) × (n ≤ 64) × (n ≤ record_count ahead.now) × (min lead 64 ≤ record_count starts.now) × (from.left ≡ true) × (from.right ≡ false) }
    ensures { (after : ℕ) → Walk 0 high (time_at starts.now) (next_of (time_at ahead.now) n after) lead n left right from result }
{
    let most = lead.min(64);
    let event = bits::find_first_zero(left & !right, n);
    let reach = trace::time(starts, most as usize - 1) + high;
    let took = count_met(0, ahead, (event + 1).min(n), reach);
    if took == 0 {
        return Walked {
            bits: 0,
            count: most,
            took,
            last: from,
        };
    }
    let last = take(ahead, took - 1, left, right);
    if (took <= event) & (took < n) {
        return Walked {
            bits: 0,
            count: most,
            took,
            last,
        };
    }
    Walked {
        bits: 0,
        count: count_met(high + 1, starts, most, last.time),
        took,
        last,
    }
}

// As `walk`, by whole words where that can be. Where low is 0 and the first that waits tells enough, `walk_inside` is for it.
pub fn walk_words(
    low: u64,
    high: u64,
    starts: &[u8],
    ahead: &[u8],
    lead: u64,
    n: u64,
    after: u64,
    left: u64,
    right: u64,
    from: Last,
) -> Walked
    requires { (n ≤ 64) × (n ≤ record_count ahead.now) × (lead + n < 2 ^ 64) × (min (lead + n) 64 ≤ record_count starts.now) }
    ensures { Walk low high (time_at starts.now) (next_of (time_at ahead.now) n after) lead n left right from result }
{
    // Two calls of `walk` keep it a function of its own: what goes by words does not take registers from its loop.
    if low != 0 {
        if by_words(low, high, starts, ahead, lead, n, from) {
            return walk_late(low, starts, ahead, lead, n, left, right);
        }
        if is_told(low, lead, from) {
            return walk_told(low, starts, lead, from);
        }
        if is_calm(high, starts, ahead, lead, n, left, right, from) {
            return walk_calm(ahead, n, left, right);
        }
        return walk(low, high, starts, ahead, lead, n, after, left, right, from);
    }
    if outreaches(high, ahead, lead, n, from) {
        return walk_far(high, starts, ahead, lead, n, left, right);
    }
    if is_told(low, lead, from) {
        return walk_told(low, starts, lead, from);
    }
    if (0 < lead) & (0 < n) & (high <= LONGEST_GAP) {
        return walk_over(high, starts, ahead, lead, n, left, right, from);
    }
    walk(low, high, starts, ahead, lead, n, after, left, right, from)
}
