// A kiosk to try settings on: the simulation of document 02's paper 12, which writes the kiosk's log.
#![tactic(auto)]

ghost use Rattle.std.specs.Prelude.{◌≡◌, ◌≤◌, ◌<◌, length};
ghost use Rattle.trace.specs.Making.{records_bytes, put, log_length};
ghost use Rattle.simulation.specs.Kiosk.{kiosk_after};
ghost use Rattle.simulation.specs.Simulate.{wrong_settings, out_of_range, time_of, events_in, Simulates};

use generator::Generator;
use kiosk::Kiosk;
use refusal::Refusal;

mod generator;
mod kiosk;

// All in seconds.
#[derive(Clone, Copy)]
pub struct Settings {
    pub warmup: u32,
    pub print: u32,
    pub switchoff: u32,
    pub gap: u32,
}

// What an accepted call gives: how many bytes the log has, and how many customers are where.
#[derive(Clone, Copy)]
pub struct Simulated {
    pub written: usize,
    pub finished: u64,
    pub printing: u64,
    pub waiting: u64,
}

impl Settings {
    fn are_wrong(self) -> bool
        ensures { result ≡ wrong_settings self }
    {
        !(1..=600).contains(&self.warmup)
            | !(1..=600).contains(&self.print)
            | !(1..=3600).contains(&self.switchoff)
            | !(1..=3600).contains(&self.gap)
    }
}

// Refusal 26.
fn is_refused(s: Settings, seconds: u32, seed: u32, room: usize) -> bool
    ensures { result ≡ out_of_range s seconds seed room }
{
    s.are_wrong() | (3600 < seconds) | (seed == 0) | (room < 8 + seconds as usize * 8)
}

// Writes a record for each second behind the header, and gives the kiosk as it is at the end.
fn run(s: Settings, seconds: usize, seed: u32, log: &mut [u8]) -> Kiosk
    requires { (0 < s.gap) × (seconds ≤ 3600) × (log_length seconds ≤ length log.old) }
    ensures value { result ≡ kiosk_after s seed seconds }
    ensures log_after { log.new ≡ put log.old 8 (records_bytes time_of (events_in s seed) seconds) }
{
    let mut generator = Generator { state: seed };
    let mut kiosk = Kiosk::start();
    for t in 0..seconds {
        kiosk = kiosk.second(s, t as u32, generator.draw());
        trace::write_record(log, 8 + t * 8, t as u32, kiosk.events());
    }
    kiosk
}

// Simulates `seconds` seconds of a kiosk, from time 0, with the head off and nobody there, and writes its log.
pub fn simulate(
    settings: Settings,
    seconds: u32,
    seed: u32,
    log: &mut [u8],
) -> Result<Simulated, Refusal>
    ensures { Simulates settings seconds seed log.old result log.new }
{
    if is_refused(settings, seconds, seed, log.len()) {
        return Err(Refusal::Settings);
    }
    let count = seconds as usize;
    trace::write_header(log, 1);
    let kiosk = run(settings, count, seed, log);
    Ok(Simulated {
        written: 8 + count * 8,
        finished: kiosk.finished,
        printing: u64::from(kiosk.head.is_printing()),
        waiting: kiosk.waiting,
    })
}
