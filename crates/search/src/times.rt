// The records and the times of positions.
ghost use Rattle.std.specs.Prelude.{◌≡◌, ◌≤◌, ◌<◌};
ghost use Rattle.mtl.specs.Log.{Log};
ghost use Rattle.trace.specs.Format.{record_count};
ghost use Rattle.search.specs.Times.{WholeLog, first_record, first_time};

use window::view::View;

// The record that holds position i; the end of the records or one of them where there is no such position.
fn record_of(records: &[u8], view: &View, i: u64) -> usize
    ensures { (L : Log) → WholeLog view.now records.now L → i < L.size → (result ≡ L.place i) × (result < record_count records.now) }
{
    let behind = view.total.saturating_sub(i);
    window::find(records, view.skips, behind) as usize
}

// The time of position i; 0 where there is no such position.
pub fn time_of(records: &[u8], view: &View, i: u64) -> u64
    ensures { (result < 4294967296) × ((L : Log) → WholeLog view.now records.now L → i < L.size → result ≡ L.time i) }
{
    let r = record_of(records, view, i);
    if r < trace::count(records) {
        trace::time(records, r)
    } else {
        0
    }
}

// Whether a letter stands at position i.
pub fn has_letter(records: &[u8], view: &View, i: u64, letter: u64) -> bool
    requires { letter < 32 }
    ensures { (L : Log) → WholeLog view.now records.now L → i < L.size → result ≡ L.letters i letter }
{
    let r = record_of(records, view, i);
    if r < trace::count(records) {
        bits::test(trace::letter_bits(records, r, 1, letter), 0)
    } else {
        false
    }
}

// The first record whose time is not below `bound`; the end of the records where there is none.
fn first_record(records: &[u8], bound: u64) -> usize
    ensures { (result ≡ first_record records.now bound) × (result ≤ record_count records.now) }
{
    let end = trace::count(records);
    for r in 0..end {
        if bound <= trace::time(records, r) {
            return r;
        }
    }
    end
}

// The first position whose time is not below `bound`; the number of positions where there is none.
pub fn first_at(records: &[u8], view: &View, bound: u64) -> u64
    ensures { (result ≤ record_count records.now) × ((L : Log) → WholeLog view.now records.now L → result ≡ first_time L bound) }
{
    let end = first_record(records, bound) * 8;
    window::positions(&records[..end], view.skips)
}
