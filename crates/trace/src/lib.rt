// The log format of document 01: its header, its records, and checks 12 and 14, as functions on the log's bytes.
#![tactic(auto)]

ghost use Rattle.std.specs.Prelude.{◌≡◌, ◌+◌, ◌-◌, ◌*◌, ◌%◌, ◌<◌, ◌≤◌, ◌^◌, length, ltb};
ghost use Rattle.bits.specs.Packed.{number, Packed};
ghost use Rattle.trace.specs.Format.{word_at, record_count, time_at, has_letter, version_of, skips_of, is_trimmed, dropped as dropped_of, records_of, total_records, wrong_mark, wrong_version, wrong_spare, too_short, malformed, from_record, records_from};
ghost use Rattle.trace.specs.Order.{falls, FallsBetween, starts_below, disordered, last_time};
ghost use Rattle.trace.specs.Letters.{whole_at, place_of, every_other, Raised};
ghost use Rattle.trace.specs.Making.{log_header, record_bytes, trimmed_bytes, put};

// The big-endian number in the four bytes from `at` on.
fn word(bytes: &[u8], at: usize) -> u64
    requires { at + 4 ≤ length bytes.now }
    ensures { (result ≡ word_at bytes.now at) × (result < 4294967296) }
{
    u64::from(u32::from_be_bytes([bytes[at], bytes[at + 1], bytes[at + 2], bytes[at + 3]]))
}

fn has_wrong_mark(log: &[u8]) -> bool
    requires { 8 ≤ length log.now }
    ensures { result ≡ wrong_mark log.now }
{
    !log.starts_with(b"KLG")
}

fn version(log: &[u8]) -> u64
    requires { 8 ≤ length log.now }
    ensures { result ≡ version_of log.now }
{
    u64::from(u16::from_be_bytes([log[3], log[4]]))
}

fn has_wrong_spare(log: &[u8]) -> bool
    requires { 8 ≤ length log.now }
    ensures { result ≡ wrong_spare log.now }
{
    log[5..8] != [0, 0, 0]
}

// Versions 1 to 3 are known.
fn has_wrong_version(log: &[u8]) -> bool
    requires { 8 ≤ length log.now }
    ensures { result ≡ wrong_version log.now }
{
    !matches!(version(log), 1..=3)
}

// Whether the log's version has service records: from version 2 on.
pub fn skips(log: &[u8]) -> bool
    ensures { result ≡ skips_of log.now }
{
    8 <= log.len() && 2 <= version(log)
}

// Whether the log has a count of records dropped behind its header: version 3 does.
fn is_trimmed(log: &[u8]) -> bool
    ensures { result ≡ is_trimmed log.now }
{
    16 <= log.len() && version(log) == 3
}

// How many records were dropped before those of the log.
pub fn dropped(log: &[u8]) -> u64
    ensures { result ≡ dropped_of log.now }
{
    if is_trimmed(log) {
        word(log, 8) * 4294967296 + word(log, 12)
    } else {
        0
    }
}

// The part of the log behind its header; nothing of a log shorter than that.
pub fn records(log: &[u8]) -> &[u8]
    ensures { result.now ≡ records_of log.now }
{
    if is_trimmed(log) {
        return &log[16..];
    }
    if log.len() < 8 { &log[..0] } else { &log[8..] }
}

// How many records the log stands for, dropped ones included.
pub fn total_records(log: &[u8]) -> usize
    requires { total_records log.now ≤ 1000000 }
    ensures { result ≡ total_records log.now }
{
    dropped(log) as usize + count(records(log))
}

// The log is shorter than the header of its version.
fn is_too_short(log: &[u8]) -> bool
    ensures { result ≡ too_short log.now }
{
    log.len() < 8 || (log.len() < 16) & (version(log) == 3)
}

// Whether there are more than 1,000,000 records, dropped ones included, whose count may be any number.
fn has_too_many(log: &[u8]) -> bool
    ensures { result ≡ ltb 1000000 (total_records log.now) }
{
    let here = count(records(log)) as u64;
    1000000 < here || 1000000 - here < dropped(log)
}

// Check 12.
pub fn is_malformed(log: &[u8]) -> bool
    ensures { result ≡ malformed log.now }
{
    if is_too_short(log) {
        return true;
    }
    (has_wrong_mark(log) | (has_wrong_version(log) | has_wrong_spare(log)))
        | (((log.len() - 8) % 8 != 0) | has_too_many(log))
}

// The records from the n-th on; none where there are no more.
fn from_record(records: &[u8], n: usize) -> &[u8]
    ensures { result.now ≡ from_record n records.now }
{
    if count(records) < n {
        &records[..0]
    } else {
        &records[n * 8..]
    }
}

// The log's records from record `first` on, dropped ones counted.
pub fn records_from(log: &[u8], first: u64) -> &[u8]
    ensures { result.now ≡ records_from log.now first }
{
    let before = dropped(log);
    let all = records(log);
    if first <= before {
        all
    } else {
        from_record(all, (first - before) as usize)
    }
}

pub fn count(records: &[u8]) -> usize
    ensures { result ≡ record_count records.now }
{
    records.len() / 8
}

// The time of record i.
pub fn time(records: &[u8], i: usize) -> u64
    requires { i < record_count records.now }
    ensures { (result ≡ time_at records.now i) × (result < 4294967296) }
{
    word(records, i * 8)
}

// The letter's bit of record i, where it stands in its byte of the event set.
fn letter_bit(records: &[u8], i: usize, letter: u64) -> u64
    requires { (i < record_count records.now) × (letter < 32) }
    ensures { (result ≡ number (has_letter records.now letter i) * 2 ^ (letter % 8)) × (result < 256) }
{
    let byte = records[i * 8 + (7 - (letter / 8) as usize)];
    u64::from(byte) & (1 << (letter % 8))
}

// Record i as one number, its first byte the least: it is compiled as one load.
pub fn whole(records: &[u8], i: usize) -> u64
    requires { i < record_count records.now }
    ensures { result ≡ whole_at records.now i }
{
    let at = i * 8;
    u64::from_le_bytes([
        records[at],
        records[at + 1],
        records[at + 2],
        records[at + 3],
        records[at + 4],
        records[at + 5],
        records[at + 6],
        records[at + 7],
    ])
}

// The place of a letter's bit in a record as one number.
fn place_of(letter: u64) -> u64
    requires { letter < 32 }
    ensures { (result ≡ place_of letter) × (32 ≤ result) × (result < 64) }
{
    (7 - letter / 8) * 8 + letter % 8
}

// The letter's bit of record i, where it stands in the record as one number.
fn letter_mark(records: &[u8], i: usize, letter: u64) -> u64
    requires { (i < record_count records.now) × (letter < 32) }
    ensures { result ≡ number (has_letter records.now letter i) * 2 ^ place_of letter }
{
    whole(records, i) & (1 << place_of(letter))
}

// The letter at each of up to 32 positions, as a word of answers, from the last one down.
pub fn letter_group(records: &[u8], from: usize, n: usize, letter: u64) -> u64
    requires { (from + n ≤ record_count records.now) × (n ≤ 32) × (letter < 32) }
    ensures { (result < 2 ^ n) × Packed (has_letter records.now letter) from n result }
{
    let mut answers: u64 = 0;
    for i in (0..n).rev() {
        answers = answers * 2 + letter_bit(records, from + i, letter);
    }
    answers >> (letter % 8)
}

// The letter at every other of eight positions, with its place in the last of them. What is done to these and to those between is compiled as
// one, two records in one register.
fn alternate_eight(records: &[u8], from: usize, letter: u64) -> u64
    requires { (from + 7 ≤ record_count records.now) × (letter < 32) }
    ensures { Raised (every_other (has_letter records.now letter) from) 8 (place_of letter - 6) result }
{
    let mut answers: u64 = 0;
    for i in 0..4 {
        answers = (answers >> 2) + letter_mark(records, from + i * 2, letter);
    }
    answers
}

// The same of 32 positions. By eights, since a shorter chain of shifts is waited for less.
fn alternate(records: &[u8], from: usize, letter: u64) -> u64
    requires { (from + 31 ≤ record_count records.now) × (letter < 32) }
    ensures { Raised (every_other (has_letter records.now letter) from) 32 (place_of letter - 30) result }
{
    let mut answers: u64 = 0;
    for i in 0..4 {
        answers = (answers >> 8) + alternate_eight(records, from + i * 8, letter);
    }
    answers
}

// The letter at each of 32 positions.
fn letter_many(records: &[u8], from: usize, letter: u64) -> u64
    requires { (from + 32 ≤ record_count records.now) × (letter < 32) }
    ensures { (result < 2 ^ 32) × Packed (has_letter records.now letter) from 32 result }
{
    let up = place_of(letter) - 30;
    (alternate(records, from, letter) >> up) | (alternate(records, from + 1, letter) >> (up - 1))
}

// The letter at each of n positions from `from` on, as a word of answers. 32 at a time, since a group of known size is
// compiled without a loop.
pub fn letter_bits(records: &[u8], from: usize, n: usize, letter: u64) -> u64
    requires { (from + n ≤ record_count records.now) × (n ≤ 64) × (letter < 32) }
    ensures { Packed (has_letter records.now letter) from n result }
{
    let mut answers: u64 = 0;
    for group in 0..n / 32 {
        let i = group * 32;
        answers += letter_many(records, from + i, letter) << i as u64;
    }
    let i = n / 32 * 32;
    if i < n {
        answers += letter_group(records, from + i, n - i, letter) << i as u64;
    }
    answers
}

// How many of up to eight records from `from` on have a time below that of the record before.
fn count_falls(records: &[u8], from: usize, n: usize) -> u64
    requires { (0 < from) × (from + n ≤ record_count records.now) × (n ≤ 8) }
    ensures { FallsBetween records.now from (from + n) result }
{
    let mut falls: u64 = 0;
    for i in from..from + n {
        falls += bits::flag(time(records, i) < time(records, i - 1));
    }
    falls
}

// Whether some record has a time below that of the record before it. Every call reads the order of all records from the first wanted on:
// eight at a time, since a group of known size is compiled without a loop.
fn times_fall(records: &[u8]) -> bool
    ensures { result ≡ falls records.now }
{
    let end = count(records);
    if end == 0 {
        return false;
    }
    let mut falls: u64 = 0;
    for group in 0..(end - 1) / 8 {
        falls += count_falls(records, 1 + group * 8, 8);
    }
    let left = (end - 1) % 8;
    0 < falls + count_falls(records, end - left, left)
}

// Whether the first new record's time is below the last time seen.
fn begins_below(records: &[u8], seen: usize, last: u64) -> bool
    ensures { result ≡ starts_below records.now seen last }
{
    seen < count(records) && time(records, seen) < last
}

// Check 14 on the records from the first wanted on, of which `seen` were seen before.
pub fn is_disordered(records: &[u8], seen: usize, last: u64) -> bool
    ensures { result ≡ disordered records.now seen last }
{
    times_fall(records) | begins_below(records, seen, last)
}

// The last time seen after a call that brought these records, of which `seen` were seen before it, and `last` was the last time.
pub fn last_time(records: &[u8], seen: usize, last: u64) -> u64
    ensures { result ≡ last_time records.now seen last }
{
    let end = count(records);
    if seen < end {
        time(records, end - 1)
    } else {
        last
    }
}

// Writes the header of a log of this version.
pub fn write_header(log: &mut [u8], version: u8)
    requires { 8 ≤ length log.old }
    ensures { log.new ≡ put log.old 0 (log_header version) }
{
    log[0..8].copy_from_slice(&[b'K', b'L', b'G', 0, version, 0, 0, 0]);
}

// Writes a record into the eight bytes from `at` on: two numbers, big-endian.
pub fn write_record(log: &mut [u8], at: usize, time: u32, events: u32)
    requires { at + 8 ≤ length log.old }
    ensures { log.new ≡ put log.old at (record_bytes time events) }
{
    log[at..at + 4].copy_from_slice(&time.to_be_bytes());
    log[at + 4..at + 8].copy_from_slice(&events.to_be_bytes());
}

// Writes a version 3 log of these records, before which so many were dropped, and gives its length.
pub fn write_trimmed(dropped: u64, records: &[u8], log: &mut [u8]) -> usize
    requires { 16 + length records.now ≤ length log.old }
    ensures value { result ≡ 16 + length records.now }
    ensures log_after { log.new ≡ put log.old 0 (trimmed_bytes dropped records.now) }
{
    write_header(log, 3);
    // the count's halves stand as the two numbers of a record do
    write_record(
        log,
        8,
        (dropped / 4294967296) as u32,
        (dropped % 4294967296) as u32,
    );
    bits::bytes::copy(records, log, 16);
    16 + records.len()
}
