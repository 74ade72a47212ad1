// The log that keeps most seconds waiting (document 02, paper 4): for letter 0 until low to high of letter 1, a log of n records
// with the most distinct times among its open positions.
#![tactic(auto)]

ghost use Rattle.std.specs.Prelude.{◌≡◌, ◌+◌, ◌*◌, ◌≤◌, length};
ghost use Rattle.trace.specs.Making.{records_bytes, put};
ghost use Rattle.worst.specs.Written.{worst_time, worst_events};
ghost use Rattle.worst.specs.Refusal.{no_room};
ghost use Rattle.worst.specs.Call.{WritesWorst};
ghost use Rattle.worst.specs.Code.{Checks};

use refusal::Refusal;
use rule::{Entry, Kind};

// "At most 1,000,000 records."
const MOST_RECORDS: u64 = 1000000;

// letter 0 alone
const LETTER_0: u32 = 1;

// Refusal 19.
fn lacks_room(n: u64, lent: usize) -> bool
    ensures { result ≡ no_room n lent }
{
    n > MOST_RECORDS || (lent as u64) < 8 + n * 8
}

// Refusals 6 and 19; gives the number of records.
fn check(low: u32, high: u32, n: u64, lent: usize) -> Result<usize, Refusal>
    ensures { Checks low high n lent result }
{
    let until = Entry {
        kind: Kind::Until.number(),
        letter: 0,
        low,
        high,
    };
    if rule::is_misplaced(until) {
        return Err(Refusal::Interval);
    }
    if lacks_room(n, lent) {
        return Err(Refusal::LogRoom);
    }
    Ok(n as usize)
}

// Writes n records behind the header.
fn write_records(high: u32, n: usize, log: &mut [u8])
    requires { (n ≤ 1000000) × (8 + n * 8 ≤ length log.old) }
    ensures { log.new ≡ put log.old 8 (records_bytes (worst_time high) worst_events n) }
{
    for i in 0..n {
        trace::write_record(log, 8 + i * 8, high.min(i as u32), LETTER_0);
    }
}

// Writes a version 1 log of n records, and gives its length: record i has letter 0 alone, and as its time the smaller of i and high.
pub fn worst_log(low: u32, high: u32, n: u64, log: &mut [u8]) -> Result<usize, Refusal>
    ensures { WritesWorst low high n log.old result log.new }
{
    let records = check(low, high, n, log.len())?;
    trace::write_header(log, 1);
    write_records(high, records, log);
    Ok(8 + records * 8)
}
