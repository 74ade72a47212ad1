// The verdicts of one call: as many as all formulas hold answers for and the sheet has room for, and what is noted of the log.
#![tactic(auto)]

ghost use Rattle.std.specs.Prelude.{◌≡◌, cond, suc, ◌+◌, ◌-◌, ◌≤◌, ◌<◌, ◌^◌, max, length};
ghost use Rattle.window.specs.View.{Views};
ghost use Rattle.window.specs.Window.{Keeps};
ghost use Rattle.checkpoint.specs.Checkpoint.{given, first_wanted};
ghost use Rattle.held.specs.Code.{plan};
ghost use Rattle.emit.specs.Code.{as_decoded, GivesVerdicts, Countable, Viewed, Notes, ReadyToEmit, Emission};

use checkpoint::header;
use engine::table::{NO_ROW, Row};
use engine::tops::Top;
use rule::{Ends, Rule};
use window::KeptCopy;
use window::view::View;

// How many verdicts a call gave, and whether more are settled.
#[derive(Clone, Copy)]
pub struct Emitted {
    pub count: usize,
    pub more: bool,
}

// How many answers a verdict has: one for each formula, and one where there is none.
pub fn columns_of(number: usize) -> usize
    ensures { result ≡ max 1 number }
{
    if number == 0 { 1 } else { number }
}

// Writes verdicts until the sheet is full or nothing more is settled.
#[inline(always)]
fn give_all(
    table: &[Row; 128],
    tops: &[Top],
    most: usize,
    records: &[u8],
    view: &View,
    copy: &mut KeptCopy,
    waiting: &mut KeptCopy,
    shift: u64,
    words: &mut [u64],
    sheet: &mut [u8],
) -> Emitted
    requires { Countable (plan table.now tops.now) most words.old × Keeps records.now copy.old × Keeps records.now waiting.old × Views view.now records.now }
    ensures { GivesVerdicts (plan table.now tops.now) most view.now records.now words.old sheet.old result words.new sheet.new }
{
    let columns = columns_of(tops.len());
    let mut answers = [0u64; 8];
    let mut done: usize = 0;
    loop {
        let least = held::hold(table, tops, records, view, copy, waiting, shift, words);
        let count = blocks::available(done as u64, least, sheet.len() as u64);
        if count == 0 {
            return Emitted {
                count: done,
                more: 0 < least,
            };
        }
        held::copy_answers(tops, words, &mut answers);
        verdicts::write_answers(sheet, done, count as usize, &answers, columns);
        held::take_verdicts(tops, most, words, count);
        done += count as usize;
    }
}

// The same, with a loop of its own for one formula: as the number is known there, the compiler leaves no loop over formulas inside it.
fn give(
    table: &[Row; 128],
    tops: &[Top],
    most: usize,
    records: &[u8],
    view: &View,
    copy: &mut KeptCopy,
    waiting: &mut KeptCopy,
    shift: u64,
    words: &mut [u64],
    sheet: &mut [u8],
) -> Emitted
    requires { Countable (plan table.now tops.now) most words.old × Keeps records.now copy.old × Keeps records.now waiting.old × Views view.now records.now }
    ensures { GivesVerdicts (plan table.now tops.now) most view.now records.now words.old sheet.old result words.new sheet.new }
{
    if tops.len() == 1 {
        return give_all(
            table,
            &tops[..1],
            most,
            records,
            view,
            copy,
            waiting,
            shift,
            words,
            sheet,
        );
    }
    give_all(
        table, tops, most, records, view, copy, waiting, shift, words, sheet,
    )
}

// What a checkpoint notes of a log of so many records: their number and 1 where it is closed, 0 where it is open.
fn closed_with(closed: bool, total: u64) -> u64
    requires { total < 2 ^ 63 }
    ensures { result ≡ cond closed (suc total) 0 }
{
    if closed { total + 1 } else { 0 }
}

// The position from which on a rule of this depth wants the log, where so many have verdicts.
fn wanted_position(depth: u64, given: u64) -> u64
    ensures { result ≡ given - depth }
{
    given.saturating_sub(depth)
}

// What the call knows of its log: the view of the records from the first wanted on.
fn write_view(records: &[u8], skips: bool, closed: bool, depth: u64, words: &[u64]) -> View
    requires { (8 ≤ length words.now) × (given words.now ≤ 1000000) }
    ensures { Viewed skips closed depth records.now words.now result }
{
    let earlier = wanted_position(depth, words[header::GIVEN]);
    let first = words[header::WANTED];
    View::of(records, first, earlier, skips, closed)
}

// Where the batches of letters end: from where the letters stand when a call begins, their words are full ones. They stand behind the
// positions of the records seen before; no answer depends on it.
fn shift_of(records: &[u8], view: &View, depth: u64, words: &[u64]) -> u64
    requires { 8 ≤ length words.now }
{
    let earlier = wanted_position(depth, words[header::GIVEN]);
    let seen = words[header::SEEN].saturating_sub(words[header::WANTED]);
    let old = seen.min(trace::count(records) as u64) as usize;
    let before = window::positions(&records[..old * 8], view.skips);
    64 - (earlier % 64 + before % 64) % 64
}

// Notes what was seen of the log.
fn note(records: &[u8], view: &View, skips: bool, depth: u64, words: &mut [u64])
    requires { (8 ≤ length words.old) × (first_wanted words.old ≤ 1000000) }
    ensures { Notes skips depth view.now records.now words.old words.new }
{
    let first = words[header::WANTED];
    let seen = words[header::SEEN].saturating_sub(first);
    let total = first + trace::count(records) as u64;
    let wanted = wanted_position(depth, words[header::GIVEN]);
    let left = view.total.saturating_sub(wanted);
    words[header::LAST] = trace::last_time(records, seen as usize, words[header::LAST]);
    words[header::SEEN] = total;
    words[header::CLOSED_WITH] = closed_with(view.closed, total);
    words[header::LOG_KIND] = checkpoint::log_kind(skips);
    words[header::WANTED] = first + window::find(records, view.skips, left);
}

// Gives the verdicts that are settled, as far as the sheet goes, and notes what was seen of the log. The records are those from the first
// wanted on.
pub fn emit(
    rule: &Rule,
    ends: &Ends,
    most: usize,
    base: usize,
    depth: u64,
    records: &[u8],
    skips: bool,
    closed: bool,
    words: &mut [u64],
    sheet: &mut [u8],
) -> Emitted
    requires { ReadyToEmit (as_decoded rule.now ends.now most base depth) records.now words.old }
    ensures { Emission (as_decoded rule.now ends.now most base depth) skips closed records.now words.old sheet.old result words.new sheet.new }
{
    let mut table = [NO_ROW; 128];
    engine::layout::lay_out(rule, &mut table);
    let tops = engine::layout::lay_tops(ends, &table, base);
    let view = write_view(records, skips, closed, depth, words);
    let shift = shift_of(records, &view, depth, words);
    let mut copy = KeptCopy::new();
    let mut waiting = KeptCopy::new();
    let emitted = give(
        &table,
        &tops[..ends.number],
        most,
        records,
        &view,
        &mut copy,
        &mut waiting,
        shift,
        words,
        sheet,
    );
    note(records, &view, skips, depth, words);
    emitted
}
