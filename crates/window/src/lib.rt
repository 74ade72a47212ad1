// Positions and windows. A service record, one with letter 31, is no position. A window has the records of the next positions from a
// reading head on and no others: it is the log's own part where no service record lies among them, else a copy of them. A copy is kept, and
// read by all heads that stand at the record from which on it was made.
#![tactic(auto)]

ghost use Rattle.std.specs.Prelude.{◌≡◌, true, false, ◌&&◌, not as negate, ◌⊎◌, ◌+◌, ◌*◌, ◌≤◌, ◌<◌, ◌^◌, max, leb, length, ℕ, List};
ghost use Rattle.std.specs.Int.{w64, to_le_bytes};
ghost use Rattle.bits.specs.Packed.{number};
ghost use Rattle.trace.specs.Format.{record_count};
ghost use Rattle.trace.specs.Positions.{is_service, before};
ghost use Rattle.trace.specs.Making.{put};
ghost use Rattle.window.specs.View.{slice_first, skips, in_slice, Views};
ghost use Rattle.window.specs.Window.{some_service, dense, window_of, own_part, copied, either_of, record_of, is_kept, Counted, Transcribed, Copied, Picks, Lettered, Gathered, Keeps, Held, Mixed, Opened, Behind, BehindBut, BehindSome, Windowed, Passed, Found, FirstTime};

pub mod view;

use view::View;

// Where a window begins in the slice of records, a record behind its last, how many positions it has, whether their records stand there one
// after the other, and whether they are in a copy that was made for another window.
#[derive(Clone, Copy)]
pub struct Window {
    pub at: usize,
    pub end: usize,
    pub count: usize,
    pub dense: bool,
    pub shared: bool,
}

// What a copy keeps: how many positions, and the record behind them.
#[derive(Clone, Copy)]
pub struct Kept {
    pub end: usize,
    pub count: usize,
}

// A copy of the records of up to 65 positions, one behind the other: their bytes, the record from which on they were taken, and what is kept.
#[derive(Clone, Copy)]
pub struct KeptCopy {
    pub bytes: [u8; 520],
    pub from: usize,
    pub kept: Kept,
}

impl KeptCopy {
    // A copy that keeps none.
    pub fn new() -> KeptCopy
        ensures { (s : List ℕ) → Keeps s result }
    {
        KeptCopy {
            bytes: [0; 520],
            from: 0,
            kept: Kept { end: 0, count: 0 },
        }
    }

    // Whether it keeps n positions from record `at` on.
    fn has(&self, at: usize, n: usize) -> bool
        ensures { result ≡ is_kept self.now at n }
    {
        (0 < self.kept.count) & ((self.from == at) & (n <= self.kept.count))
    }
}

// A letter at some positions, as a word of answers, and the record behind the last of them.
#[derive(Clone, Copy)]
pub struct Letters {
    pub bits: u64,
    pub end: usize,
}

// A letter at those of a few records that are positions, as a word of answers, and how many they are.
#[derive(Clone, Copy)]
struct Picked {
    bits: u64,
    count: usize,
}

// 1 where record i is a service record, else 0.
fn service(records: &[u8], i: usize) -> usize
    requires { i < record_count records.now }
    ensures { (result ≡ number (is_service records.now i)) × (result ≤ 1) }
{
    records[i * 8 + 4] as usize / 128
}

// How many of n records from `from` on are positions, one by one.
fn count_mixed(records: &[u8], from: usize, n: usize) -> usize
    requires { from + n ≤ record_count records.now }
    ensures { Counted records.now from n result }
{
    let mut found: usize = 0;
    for i in 0..n {
        found += 1 - service(records, from + i);
    }
    found
}

// Whether one of a few records from `from` on is a service record, without a branch: letter 31 is the highest bit of its byte.
fn group_has_service(records: &[u8], from: usize, n: usize) -> bool
    requires { from + n ≤ record_count records.now }
    ensures { result ≡ some_service records.now from n }
{
    let mut joined: u8 = 0;
    for i in 0..n {
        joined |= records[(from + i) * 8 + 4];
    }
    128 <= joined
}

// The same of a group: where it has no service record, all are.
fn count_group(records: &[u8], from: usize, n: usize) -> usize
    requires { from + n ≤ record_count records.now }
    ensures { Counted records.now from n result }
{
    if group_has_service(records, from, n) {
        count_mixed(records, from, n)
    } else {
        n
    }
}

// The same of any number of records. Eight at a time, since a group of known size is compiled without a loop.
pub fn count_many(records: &[u8], from: usize, n: usize) -> usize
    requires { from + n ≤ record_count records.now }
    ensures { Counted records.now from n result }
{
    let mut found: usize = 0;
    for group in 0..n / 8 {
        found += count_group(records, from + group * 8, 8);
    }
    found + count_mixed(records, from + n / 8 * 8, n % 8)
}

// Where a head at this record stands in a slice that begins with record `first`.
fn in_slice(first: u64, head: u64) -> usize
    ensures { result ≡ in_slice first head }
{
    if head <= first {
        0
    } else {
        (head - first) as usize
    }
}

// Writes record k of a copy, given as one number: it is compiled as one word.
fn put_record(copy: &mut [u8; 520], k: usize, word: u64)
    requires { (k < 65) × (length copy.old ≡ 520) }
    ensures { copy.new ≡ put copy.old (k * 8) (to_le_bytes w64 word) }
{
    copy[k * 8..k * 8 + 8].copy_from_slice(&word.to_le_bytes());
}

// Copies record i, as number k of the copy.
fn copy_record(records: &[u8], i: usize, copy: &mut [u8; 520], k: usize)
    requires { (i < record_count records.now) × (k < 65) × (length copy.old ≡ 520) }
    ensures { copy.new ≡ put copy.old (k * 8) (record_of records.now i) }
{
    put_record(copy, k, trace::whole(records, i));
}

// Copies records i and i + 1, as numbers k and k + 1. Both are read before the first is written: it is compiled as one move of sixteen.
fn copy_pair(records: &[u8], i: usize, copy: &mut [u8; 520], k: usize)
    requires { (i + 2 ≤ record_count records.now) × (k + 2 ≤ 65) × (length copy.old ≡ 520) }
    ensures { Transcribed records.now i 2 copy.old k copy.new }
{
    let first = trace::whole(records, i);
    let second = trace::whole(records, i + 1);
    put_record(copy, k, first);
    put_record(copy, k + 1, second);
}

// Copies eight records from `from` on as they are, as those from number k on.
fn copy_eight(records: &[u8], from: usize, copy: &mut [u8; 520], k: usize)
    requires { (from + 8 ≤ record_count records.now) × (k + 8 ≤ 65) × (length copy.old ≡ 520) }
    ensures { Transcribed records.now from 8 copy.old k copy.new }
{
    copy_pair(records, from, copy, k);
    copy_pair(records, from + 2, copy, k + 2);
    copy_pair(records, from + 4, copy, k + 4);
    copy_pair(records, from + 6, copy, k + 6);
}

// Copies the positions among n records from `from` on: a service record is written over by the next record. Gives how many they are.
fn copy_mixed(records: &[u8], from: usize, n: usize, copy: &mut [u8; 520], k: usize) -> usize
    requires { (from + n ≤ record_count records.now) × (k + n ≤ 65) × (length copy.old ≡ 520) }
    ensures { Copied records.now from n copy.old k copy.new result }
{
    let mut copied: usize = 0;
    for i in 0..n {
        copy_record(records, from + i, copy, k + copied);
        copied += 1 - service(records, from + i);
    }
    copied
}

// The same of eight records. They are copied before the look at them, since behind a look they are not moved in pairs; where a service record
// is found, they are copied again one by one.
fn copy_group(records: &[u8], from: usize, copy: &mut [u8; 520], k: usize) -> usize
    requires { (from + 8 ≤ record_count records.now) × (k + 8 ≤ 65) × (length copy.old ≡ 520) }
    ensures { Copied records.now from 8 copy.old k copy.new result }
{
    copy_eight(records, from, copy, k);
    if group_has_service(records, from, 8) {
        copy_mixed(records, from, 8, copy, k)
    } else {
        8
    }
}

// Whether m more records are wanted, of `left`, and are there.
fn can_take(m: usize, left: usize, at: usize, end: usize) -> bool
    ensures { (result ≡ true → (m ≤ left) × (at + m ≤ end)) × (result ≡ false → (left < m) ⊎ (end < at + m)) }
{
    if end < m {
        false
    } else {
        (m <= left) & (at <= end - m)
    }
}

// Copies the records of 65 positions from `from` on, as many as there are, eight records at a time.
fn gather(records: &[u8], from: usize, copy: &mut [u8; 520]) -> Kept
    requires { length copy.old ≡ 520 }
    ensures { Gathered records.now from copy.new result }
{
    let end = trace::count(records);
    let mut at = from;
    let mut k: usize = 0;
    while can_take(8, 65 - k, at, end) {
        k += copy_group(records, at, copy, k);
        at += 8;
    }
    while can_take(1, 65 - k, at, end) {
        k += copy_mixed(records, at, 1, copy, k);
        at += 1;
    }
    Kept { end: at, count: k }
}

// n positions from record `at` on, in a copy that keeps them; where it keeps others, all that it has room for are copied anew.
fn hold(records: &[u8], at: usize, n: usize, copy: &mut KeptCopy) -> Kept
    requires { (n ≤ 65) × Keeps records.now copy.old }
    ensures held { Held records.now at n copy.new.bytes result }
    ensures keeps { Keeps records.now copy.new }
{
    if copy.has(at, n) {
        return copy.kept;
    }
    let kept = gather(records, at, &mut copy.bytes);
    copy.from = at;
    copy.kept = kept;
    Kept {
        count: n.max(kept.count),
        ..kept
    }
}

// The letter at record i, as a word of one answer, or of none where it is a service record.
fn pick_one(records: &[u8], i: usize, letter: u64) -> Picked
    requires { (i < record_count records.now) × (letter < 32) }
    ensures { Picks records.now letter i 1 result }
{
    let count = 1 - service(records, i);
    let bits = trace::letter_group(records, i, 1, letter) * count as u64;
    Picked { bits, count }
}

// The same at each of up to eight records, one by one.
fn pick_mixed(records: &[u8], from: usize, n: usize, letter: u64) -> Picked
    requires { (from + n ≤ record_count records.now) × (n ≤ 8) × (letter < 32) }
    ensures { Picks records.now letter from n result }
{
    let mut bits: u64 = 0;
    let mut count: usize = 0;
    for i in 0..n {
        let one = pick_one(records, from + i, letter);
        bits += one.bits << count as u64;
        count += one.count;
    }
    Picked { bits, count }
}

// The same of a group, by what is in it.
fn pick_group(records: &[u8], from: usize, n: usize, letter: u64) -> Picked
    requires { (from + n ≤ record_count records.now) × (n ≤ 8) × (letter < 32) }
    ensures { Picks records.now letter from n result }
{
    if group_has_service(records, from, n) {
        return pick_mixed(records, from, n, letter);
    }
    let bits = trace::letter_group(records, from, n, letter);
    Picked { bits, count: n }
}

// The letter at each of n positions from `from` on, as many as there are, eight records at a time.
fn pick_letters(records: &[u8], from: usize, n: usize, letter: u64) -> Letters
    requires { (n ≤ 64) × (letter < 32) }
    ensures { Lettered true records.now letter from n result }
{
    let end = trace::count(records);
    let mut at = from;
    let mut k: usize = 0;
    let mut bits: u64 = 0;
    while can_take(8, n - k, at, end) {
        let group = pick_group(records, at, 8, letter);
        bits += group.bits << k as u64;
        k += group.count;
        at += 8;
    }
    while can_take(1, n - k, at, end) {
        let one = pick_one(records, at, letter);
        bits += one.bits << k as u64;
        k += one.count;
        at += 1;
    }
    Letters { bits, end: at }
}

// Whether the n records from `from` on are all there.
fn has_room(records: &[u8], from: usize, n: usize) -> bool
    ensures { result ≡ leb (from + n) (record_count records.now) }
{
    let end = trace::count(records);
    if end < n { false } else { from <= end - n }
}

// Whether they are there and the slice has no service record at all: no other look at them is needed.
fn is_plain(records: &[u8], view: &View, from: usize, n: usize) -> bool
    ensures { result ≡ negate (skips view.now) && leb (from + n) (record_count records.now) }
{
    !view.skips & has_room(records, from, n)
}

// Whether so few records are there and lie in blocks, two at most, of which none is marked: no record is looked at.
fn is_clear(records: &[u8], view: &View, from: usize, n: usize) -> bool
    requires { (n ≤ 65) × Views view.now records.now }
    ensures { (result ≡ true → dense (skips view.now) records.now from n ≡ true) × (result ≡ false → Mixed (skips view.now) records.now from n) }
{
    if has_room(records, from, n) {
        let marked = view.is_marked(from / 256) | view.is_marked((from + n) / 256);
        return !view.skips | !marked;
    }
    false
}

// The letter at each of n positions from `at` on, read from a copy of their records.
fn read_kept(records: &[u8], at: usize, n: usize, letter: u64, copy: &mut KeptCopy) -> Letters
    requires { (0 < n) × (n ≤ 64) × (letter < 32) × Keeps records.now copy.old }
    ensures lettered { Lettered true records.now letter at n result }
    ensures keeps { Keeps records.now copy.new }
{
    let held = hold(records, at, n, copy);
    let bits = trace::letter_bits(&copy.bytes, 0, n, letter);
    let end = behind_some(records, at, held.end, n, held.count - n);
    Letters { bits, end }
}

// The letter at each of n positions from `at` on, where service records may lie among them: from a copy where an operator has one made, since
// it will read the same positions. Where it keeps them already, no mark is looked at.
fn read_mixed(
    records: &[u8],
    view: &View,
    at: usize,
    n: usize,
    letter: u64,
    copy: &mut KeptCopy,
) -> Letters
    requires { (0 < n) × (n ≤ 64) × (letter < 32) × Views view.now records.now × Keeps records.now copy.old }
    ensures lettered { Lettered (skips view.now) records.now letter at n result }
    ensures keeps { Keeps records.now copy.new }
{
    if view.skips & copy.has(at, n) {
        return read_kept(records, at, n, letter, copy);
    }
    if is_clear(records, view, at, n) {
        let bits = trace::letter_bits(records, at, n, letter);
        let end = at + n;
        return Letters { bits, end };
    }
    if copy.kept.count == 0 {
        return pick_letters(records, at, n, letter);
    }
    read_kept(records, at, n, letter, copy)
}

// The letter at each of n positions from a head on.
pub fn read_letters(
    records: &[u8],
    view: &View,
    head: u64,
    n: u64,
    letter: u64,
    copy: &mut KeptCopy,
) -> Letters
    requires { (0 < n) × (n ≤ 64) × (letter < 32) × Views view.now records.now × Keeps records.now copy.old }
    ensures lettered { Lettered (skips view.now) records.now letter (in_slice (slice_first view.now) head) n result }
    ensures keeps { Keeps records.now copy.new }
{
    let at = in_slice(view.first, head);
    if is_plain(records, view, at, n as usize) {
        let bits = trace::letter_bits(records, at, n as usize, letter);
        let end = at + n as usize;
        return Letters { bits, end };
    }
    read_mixed(records, view, at, n as usize, letter, copy)
}

// The window of n positions whose records stand one after the other from `at` on.
fn own_part(at: usize, n: usize) -> Window
    requires { at + n < 2 ^ 64 }
    ensures { result ≡ own_part at n }
{
    Window {
        at,
        end: at + n,
        count: n,
        dense: true,
        shared: false,
    }
}

// The window of positions that a copy has from `at` on.
fn copied(at: usize, held: Kept, shared: bool) -> Window
    ensures { result ≡ copied at held shared }
{
    Window {
        at,
        end: held.end,
        count: held.count,
        dense: false,
        shared,
    }
}

// The window of n positions from `at` on, where service records may lie among them.
fn open_mixed(records: &[u8], view: &View, at: usize, n: usize, copy: &mut KeptCopy) -> Window
    requires { (n ≤ 65) × Keeps records.now copy.old × Views view.now records.now }
    ensures { Opened (skips view.now) records.now at n result copy.new }
{
    if is_clear(records, view, at, n) {
        return own_part(at, n);
    }
    copied(at, hold(records, at, n, copy), false)
}

// The window of n positions from a head on; the copy is written where it is needed.
pub fn open(records: &[u8], view: &View, head: u64, n: u64, copy: &mut KeptCopy) -> Window
    requires { (n ≤ 65) × Keeps records.now copy.old × Views view.now records.now }
    ensures { Opened (skips view.now) records.now (in_slice (slice_first view.now) head) n result copy.new }
{
    let at = in_slice(view.first, head);
    if is_plain(records, view, at, n as usize) {
        return own_part(at, n as usize);
    }
    open_mixed(records, view, at, n as usize, copy)
}

// As `open_mixed`, but read from the other copy where that keeps the positions.
fn share_mixed(
    records: &[u8],
    view: &View,
    at: usize,
    n: usize,
    other: &KeptCopy,
    copy: &mut KeptCopy,
) -> Window
    requires { (n ≤ 65) × Keeps records.now other.now × Keeps records.now copy.old × Views view.now records.now }
    ensures opened { Opened (skips view.now) records.now at n result (either_of result other.now copy.new) }
    ensures keeps { Keeps records.now copy.new }
{
    if is_clear(records, view, at, n) {
        return own_part(at, n);
    }
    if other.has(at, n) {
        return copied(at, other.kept, true);
    }
    copied(at, hold(records, at, n, copy), false)
}

// As `open`, but read from the other copy where that keeps the positions.
pub fn share(
    records: &[u8],
    view: &View,
    head: u64,
    n: u64,
    other: &KeptCopy,
    copy: &mut KeptCopy,
) -> Window
    requires { (n ≤ 65) × Keeps records.now other.now × Keeps records.now copy.old × Views view.now records.now }
    ensures opened { Opened (skips view.now) records.now (in_slice (slice_first view.now) head) n result (either_of result other.now copy.new) }
    ensures keeps { Keeps records.now copy.new }
{
    let at = in_slice(view.first, head);
    if is_plain(records, view, at, n as usize) {
        return own_part(at, n as usize);
    }
    share_mixed(records, view, at, n as usize, other, copy)
}

// The copy in which a window stands.
pub fn either<'a>(window: Window, other: &'a KeptCopy, copy: &'a KeptCopy) -> &'a KeptCopy
    ensures { result.now ≡ either_of window other.now copy.now }
{
    if window.shared { other } else { copy }
}

// The window's records.
pub fn read<'a>(window: Window, records: &'a [u8], copy: &'a KeptCopy) -> &'a [u8]
    requires { window.dense ≡ true → window.at * 8 ≤ length records.now }
    ensures { result.now ≡ window_of window records.now copy.now }
{
    if window.dense {
        &records[window.at * 8..]
    } else {
        &copy.bytes
    }
}

// The record behind n positions from `from` on, or the end of the records.
fn behind(records: &[u8], from: usize, n: usize) -> usize
    ensures { Behind records.now from n result }
{
    let end = trace::count(records);
    let mut at = from;
    let mut left = n;
    while can_take(8, left, at, end) {
        left -= count_group(records, at, 8);
        at += 8;
    }
    while can_take(1, left, at, end) {
        left -= count_mixed(records, at, 1);
        at += 1;
    }
    at
}

// The record behind all but the last n of the positions from `from` on that `end` stands behind: from there down, over these n and over the
// service records before them.
fn behind_but(records: &[u8], from: usize, end: usize, n: usize) -> usize
    requires { (from ≤ end) × (end ≤ max from (record_count records.now)) }
    ensures { BehindBut records.now from end n result }
{
    let mut at = end;
    let mut left = n;
    while from < at {
        let here = 1 - service(records, at - 1);
        if left < here {
            break;
        }
        at -= 1;
        left -= here;
    }
    at
}

// The record behind n positions from `from` on, counted from `end` where that is near: it stands behind so many more.
fn behind_some(records: &[u8], from: usize, end: usize, n: usize, more: usize) -> usize
    requires { (from ≤ end) × (end ≤ max from (record_count records.now)) }
    ensures { BehindSome records.now from end n more result }
{
    if more < 8 {
        return behind_but(records, from, end, more);
    }
    behind(records, from, n)
}

// Where a head stands after n positions of its window; where it stood if there are none.
pub fn pass(head: u64, window: Window, records: &[u8], view: &View, n: u64) -> u64
    requires { Views view.now records.now × Windowed view.now records.now head n window }
    ensures { Passed view.now records.now head n window result }
{
    if n == 0 {
        return head;
    }
    if window.dense {
        return view.first + window.at as u64 + n;
    }
    let more = window.count - n as usize;
    view.first + behind_some(records, window.at, window.end, n as usize, more) as u64
}

// Whether record `at` is there and a position.
fn is_position(records: &[u8], view: &View, at: usize) -> bool
    ensures { result ≡ dense (skips view.now) records.now at 1 }
{
    if has_room(records, at, 1) {
        return !view.skips | (service(records, at) == 0);
    }
    false
}

// The time of the first position from a head on, where there is one: mostly that of the record at the head.
pub fn first_time(records: &[u8], view: &View, head: u64) -> u64
    requires { Views view.now records.now }
    ensures { FirstTime view.now records.now head result }
{
    let at = in_slice(view.first, head);
    if is_position(records, view, at) {
        return trace::time(records, at);
    }
    let end = behind(records, at, 1);
    if (0 < end) & (end <= trace::count(records)) {
        return trace::time(records, end - 1);
    }
    0
}

// How many of the records are positions.
pub fn positions(records: &[u8], skips: bool) -> u64
    ensures { result ≡ before skips records.now (record_count records.now) }
{
    if skips {
        count_many(records, 0, trace::count(records)) as u64
    } else {
        trace::count(records) as u64
    }
}

// The record of the last position but n - 1, or the end of the records where n is 0: from there on stand n positions.
fn step_back(records: &[u8], n: usize) -> usize
    ensures { Found true records.now n result }
{
    let mut at = trace::count(records);
    let mut left = n;
    while (0 < left) & (0 < at) {
        at -= 1;
        left -= 1 - service(records, at);
    }
    at
}

// The record of the position from which on there are n, or the end of the records where n is 0.
pub fn find(records: &[u8], skips: bool, n: u64) -> u64
    ensures { Found skips records.now n result }
{
    if skips {
        return step_back(records, n as usize) as u64;
    }
    let end = trace::count(records) as u64;
    if n < end { end - n } else { 0 }
}
