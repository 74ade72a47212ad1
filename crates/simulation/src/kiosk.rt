// A second of the kiosk: the six steps of document 02's paper 12, in its order.
ghost use Rattle.std.specs.Prelude.{◌≡◌, ◌+◌, ◌<◌, leb};
ghost use Rattle.simulation.specs.Kiosk.{is_warm, is_printing, started, end_print, join, end_warming, switch_off, begin_print, begin_warming, second_of, events_of};

use super::Settings;

// What the head does, with the second in which it began.
#[derive(Clone, Copy)]
pub enum Head {
    Off,
    Warming(u32),
    Idle(u32),
    Printing(u32),
}

impl Head {
    fn is_warm(self) -> bool
        ensures { result ≡ is_warm self }
    {
        matches!(self, Head::Idle(_) | Head::Printing(_))
    }

    pub fn is_printing(self) -> bool
        ensures { result ≡ is_printing self }
    {
        matches!(self, Head::Printing(_))
    }
}

#[derive(Clone, Copy)]
pub struct Kiosk {
    pub head: Head,
    pub finished: u64,
    pub waiting: u64,
    // what happened in the last second: letters 1, 2 and 3
    pub began: bool,
    pub joined: bool,
    pub ended: bool,
}

// Whether `time` seconds have passed.
fn is_over(since: u32, time: u32, now: u32) -> bool
    ensures { result ≡ leb (since + time) now }
{
    u64::from(since) + u64::from(time) <= u64::from(now)
}

impl Kiosk {
    // The head off and nobody there.
    pub fn start() -> Kiosk
        ensures { result ≡ started }
    {
        Kiosk {
            head: Head::Off,
            finished: 0,
            waiting: 0,
            began: false,
            joined: false,
            ended: false,
        }
    }

    // A due print ends.
    #[tactic(auto, unfolding(crate::specs::Kiosk::end_print))]
    fn end_print(self, time: u32, now: u32) -> Kiosk
        requires { self.finished < 3600 }
        ensures { result ≡ end_print time now self }
    {
        match self.head {
            Head::Printing(since) if is_over(since, time, now) => Kiosk {
                head: Head::Idle(now),
                finished: self.finished + 1,
                ended: true,
                ..self
            },
            _ => Kiosk {
                ended: false,
                ..self
            },
        }
    }

    // A customer joins if the draw says so.
    #[tactic(auto, unfolding(crate::specs::Kiosk::join))]
    fn join(self, gap: u32, draw: u32) -> Kiosk
        requires { (self.waiting < 3600) × (0 < gap) }
        ensures { result ≡ join gap draw self }
    {
        let joined = draw % gap == 0;
        Kiosk {
            waiting: self.waiting + u64::from(joined),
            joined,
            ..self
        }
    }

    // Due warming ends.
    #[tactic(auto, unfolding(crate::specs::Kiosk::end_warming))]
    fn end_warming(self, time: u32, now: u32) -> Kiosk
        ensures { result ≡ end_warming time now self }
    {
        match self.head {
            Head::Warming(since) if is_over(since, time, now) => Kiosk {
                head: Head::Idle(now),
                ..self
            },
            _ => self,
        }
    }

    // A warm head that has been idle for long goes off.
    #[tactic(auto, unfolding(crate::specs::Kiosk::switch_off))]
    fn switch_off(self, time: u32, now: u32) -> Kiosk
        ensures { result ≡ switch_off time now self }
    {
        match self.head {
            Head::Idle(since) if is_over(since, time, now) => Kiosk {
                head: Head::Off,
                ..self
            },
            _ => self,
        }
    }

    // A print begins if the head is warm and free and someone waits.
    #[tactic(auto, unfolding(crate::specs::Kiosk::begin_print))]
    fn begin_print(self, now: u32) -> Kiosk
        ensures { result ≡ begin_print now self }
    {
        match self.head {
            Head::Idle(_) if 0 < self.waiting => Kiosk {
                head: Head::Printing(now),
                waiting: self.waiting - 1,
                began: true,
                ..self
            },
            _ => Kiosk {
                began: false,
                ..self
            },
        }
    }

    // Warming begins if the head is off and someone waits.
    #[tactic(auto, unfolding(crate::specs::Kiosk::begin_warming))]
    fn begin_warming(self, now: u32) -> Kiosk
        ensures { result ≡ begin_warming now self }
    {
        match self.head {
            Head::Off if 0 < self.waiting => Kiosk {
                head: Head::Warming(now),
                ..self
            },
            _ => self,
        }
    }

    // A second of the kiosk.
    #[tactic(auto, unfolding(crate::specs::Kiosk::second_of, crate::specs::Kiosk::end_print))]
    pub fn second(self, s: Settings, now: u32, draw: u32) -> Kiosk
        requires { (self.finished < 3600) × (self.waiting < 3600) × (0 < s.gap) }
        ensures { result ≡ second_of s now draw self }
    {
        self.end_print(s.print, now)
            .join(s.gap, draw)
            .end_warming(s.warmup, now)
            .switch_off(s.switchoff, now)
            .begin_print(now)
            .begin_warming(now)
    }

    // The event set of the last second.
    #[tactic(auto, unfolding(crate::specs::Kiosk::events_of))]
    pub fn events(self) -> u32
        ensures { result ≡ events_of self }
    {
        u32::from(self.head.is_warm())
            + 2 * u32::from(self.began)
            + 4 * u32::from(self.joined)
            + 8 * u32::from(self.ended)
    }
}
