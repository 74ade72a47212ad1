// The C interface: the library's calls under plain names. Each answers 0, or the refusal's number, and then every number
// behind a pointer is as it was. include/havdrims.h says what a C programmer needs to know.
#![tactic(auto)]

ghost use Rattle.std.specs.Prelude.{◌≡◌, true, false};
ghost use Rattle.refusal.specs.Number.{number as number_of};
ghost use Rattle.monitor.specs.Resume.{answer as resumed_of};
ghost use Rattle.havdrims.specs.Interface.{MeasureCall, OpenCall, HandsOver, ResumeCall, TrimCall, ExplainCall, TallyCall, SummaryCall, FormulasCall, StatusCall, ParseCall, WorstLogCall, settings, SimulateCall};

use emit::Emitted;
use refusal::Refusal;
use simulation::Settings;

// The number of a call that gives C nothing else.
fn number<T: Copy>(outcome: Result<T, Refusal>) -> u32
    ensures { result ≡ number_of outcome }
{
    match outcome {
        Ok(_) => 0,
        Err(refusal) => refusal.number(),
    }
}

// Document 01's weigh.
#[unsafe(no_mangle)]
pub extern "C" fn havdrims_measure(rule: &[u8], words: &mut u64, reach: &mut u64) -> u32
    ensures { MeasureCall rule.now words.old reach.old result words.new reach.new }
{
    match rule::measure(rule) {
        Ok(measured) => {
            *words = measured.words as u64;
            *reach = measured.reach;
            0
        }
        Err(refusal) => refusal.number(),
    }
}

// Writes a fresh checkpoint (point).
#[unsafe(no_mangle)]
pub extern "C" fn havdrims_open(rule: &[u8], point: &mut [u64]) -> u32
    ensures { OpenCall rule.now point.old result point.new }
{
    number(monitor::open(rule, point))
}

// Hands over how many verdicts a call gave, and 1 or 0 for whether more are settled; or its refusal's number alone.
fn hand_over(resumed: Result<Emitted, Refusal>, given: &mut u64, more: &mut u64) -> u32
    ensures { HandsOver (resumed_of resumed) given.old more.old result given.new more.new }
{
    match resumed {
        Ok(emitted) => {
            *given = emitted.count as u64;
            *more = u64::from(emitted.more);
            0
        }
        Err(refusal) => refusal.number(),
    }
}

// Document 01's carry on. `more` becomes 1 or 0.
#[unsafe(no_mangle)]
pub extern "C" fn havdrims_resume(
    rule: &[u8],
    log: &[u8],
    point: &mut [u64],
    sheet: &mut [u8],
    given: &mut u64,
    more: &mut u64,
) -> u32
    ensures { ResumeCall false rule.now log.now point.old sheet.old given.old more.old result point.new sheet.new given.new more.new }
{
    hand_over(monitor::resume(rule, log, point, sheet), given, more)
}

// Says that no record will follow, and writes the verdicts on the log as it ends. `more` becomes 1 or 0.
#[unsafe(no_mangle)]
pub extern "C" fn havdrims_close(
    rule: &[u8],
    log: &[u8],
    point: &mut [u64],
    sheet: &mut [u8],
    given: &mut u64,
    more: &mut u64,
) -> u32
    ensures { ResumeCall true rule.now log.now point.old sheet.old given.old more.old result point.new sheet.new given.new more.new }
{
    hand_over(monitor::close(rule, log, point, sheet), given, more)
}

// Document 02's trimming: writes a shorter log.
#[unsafe(no_mangle)]
pub extern "C" fn havdrims_trim(
    rule: &[u8],
    log: &[u8],
    point: &[u64],
    out: &mut [u8],
    written: &mut u64,
) -> u32
    ensures { TrimCall rule.now log.now point.now out.old written.old result out.new written.new }
{
    match monitor::trim(rule, log, point, out) {
        Ok(length) => {
            *written = length as u64;
            0
        }
        Err(refusal) => refusal.number(),
    }
}

// Document 02's sentence under each no: writes the reason for a formula's yes or no at a position.
#[unsafe(no_mangle)]
pub extern "C" fn havdrims_explain(
    rule: &[u8],
    log: &[u8],
    formula: u64,
    position: u64,
    text: &mut [u8],
    written: &mut u64,
) -> u32
    ensures { ExplainCall rule.now log.now formula position text.old written.old result text.new written.new }
{
    match explain::explain(rule, log, formula, position, text) {
        Ok(length) => {
            *written = length as u64;
            0
        }
        Err(refusal) => refusal.number(),
    }
}

// Counts the verdicts of a sheet: one count of no and one of yes for each formula.
#[unsafe(no_mangle)]
pub extern "C" fn havdrims_tally(
    sheet: &[u8],
    formulas: u64,
    no: &mut [u64; 8],
    yes: &mut [u64; 8],
) -> u32
    ensures { TallyCall formulas sheet.now «no».old «yes».old result «no».new «yes».new }
{
    number(verdicts::tally(sheet, formulas, no, yes))
}

// For each formula the count of no among the verdicts given from a checkpoint (point), and the position of the latest: `u64::MAX` for
// none.
#[unsafe(no_mangle)]
pub extern "C" fn havdrims_summary(
    rule: &[u8],
    point: &[u64],
    no: &mut [u64; 8],
    latest: &mut [u64; 8],
) -> u32
    ensures { SummaryCall rule.now point.now «no».old latest.old result «no».new latest.new }
{
    number(monitor::summary(rule, point, no, latest))
}

// How many formulas a rule has: 1 for an empty rule too, which gives one answer at each position.
#[unsafe(no_mangle)]
pub extern "C" fn havdrims_formulas(rule: &[u8], formulas: &mut u64) -> u32
    ensures { FormulasCall rule.now formulas.old result formulas.new }
{
    match monitor::formulas(rule) {
        Ok(count) => {
            *formulas = count;
            0
        }
        Err(refusal) => refusal.number(),
    }
}

// What a card has to know of a checkpoint (point). `closed` becomes 1 or 0.
#[unsafe(no_mangle)]
pub extern "C" fn havdrims_status(
    rule: &[u8],
    point: &[u64],
    given: &mut u64,
    seen: &mut u64,
    wanted: &mut u64,
    closed: &mut u64,
) -> u32
    ensures { StatusCall rule.now point.now given.old seen.old wanted.old closed.old result given.new seen.new wanted.new closed.new }
{
    match monitor::status(rule, point) {
        Ok(standing) => {
            *given = standing.given;
            *seen = standing.seen;
            *wanted = standing.wanted;
            *closed = u64::from(standing.closed);
            0
        }
        Err(refusal) => refusal.number(),
    }
}

// Writes the rule that a text says (paper 1).
#[unsafe(no_mangle)]
pub extern "C" fn havdrims_parse(text: &[u8], rule: &mut [u8], written: &mut u64) -> u32
    ensures { ParseCall text.now rule.old written.old result rule.new written.new }
{
    match text::parse(text, rule) {
        Ok(length) => {
            *written = length as u64;
            0
        }
        Err(refusal) => refusal.number(),
    }
}

// Writes the log that keeps most seconds waiting.
#[unsafe(no_mangle)]
pub extern "C" fn havdrims_worst_log(
    low: u32,
    high: u32,
    records: u64,
    log: &mut [u8],
    written: &mut u64,
) -> u32
    ensures { WorstLogCall low high records log.old written.old result log.new written.new }
{
    match worst::worst_log(low, high, records, log) {
        Ok(length) => {
            *written = length as u64;
            0
        }
        Err(refusal) => refusal.number(),
    }
}

// Document 02's kiosk to try settings on: writes its log.
#[unsafe(no_mangle)]
pub extern "C" fn havdrims_simulate(
    seconds: u32,
    warm_up: u32,
    print_time: u32,
    switch_off: u32,
    mean_gap: u32,
    seed: u32,
    log: &mut [u8],
    written: &mut u64,
    finished: &mut u64,
    printing: &mut u64,
    waiting: &mut u64,
) -> u32
    ensures { SimulateCall (settings warm_up print_time switch_off mean_gap) seconds seed log.old written.old finished.old printing.old waiting.old result log.new written.new finished.new printing.new waiting.new }
{
    let settings = Settings {
        warmup: warm_up,
        print: print_time,
        switchoff: switch_off,
        gap: mean_gap,
    };
    match simulation::simulate(settings, seconds, seed, log) {
        Ok(simulated) => {
            *written = simulated.written as u64;
            *finished = simulated.finished;
            *printing = simulated.printing;
            *waiting = simulated.waiting;
            0
        }
        Err(refusal) => refusal.number(),
    }
}
