// Telling the time: the first call that is built. It is kept by whatever keeps a payload.
#![tactic(auto)]

ghost use Rattle.std.specs.Prelude.{◌≡◌, None, true, false, refl};
ghost use Rattle.clock.specs.Clock.{clock_code, spoken, time_kept, ClockSame};
ghost use Rattle.clock.specs.Spelled.{ClockKeeps};
ghost use Rattle.clock.specs.Planned.{TellsSo, planned_so};
ghost use Rattle.steps.specs.Stacks.{Plans};

use lines::order::Refusal;
use register::{Call, Payload, Reply};
use steps::layers::Planner;

// A line that came in: the time that it tells, or why it is turned away.
#[derive(Clone, Copy, PartialEq, Eq)]
pub struct Asked {
    pub tag: u32,
    pub heard: Result<u64, Refusal>,
}

// The answer to a line: that it was done, or why it is turned away.
#[derive(Clone, Copy, PartialEq, Eq)]
pub struct Told {
    pub tag: u32,
    pub said: Result<(), Refusal>,
}

// What the clock is at.
#[derive(Clone, Copy, PartialEq, Eq)]
pub enum Phase {
    Rising,
    Getting,
    Begun(Result<u64, Refusal>),
    Setting(u64),
    Over(Result<(), Refusal>),
}

#[derive(Clone, Copy, PartialEq, Eq)]
pub struct Clock {
    // the time that was last told, in ms; 0 for none, as in a payload
    pub time: u64,
    // of the line that is being answered
    pub tag: u32,
    pub phase: Phase,
}

impl Planner for Clock {
    type Call = Call;

    type Reply = Reply;

    type Outer = Asked;

    type Answer = Told;

    type State = Clock;

    ghost view = { λ c. c };

    ghost code = { clock_code };

    ghost layer = { spoken };

    ghost most = { 2 };

    ghost same = { ClockSame };

    ghost planned = { λ size lo hi. planned_so (λ b tag t time. elim b as (λ b. TellsSo b tag t time) [ true ↦ Plans.calls (λ r. Plans.ends (refl, refl)) | false ↦ Plans.ends (refl, refl) ]) size };

    fn open(&mut self, size: u64) {
        *self = Clock::new();
    }

    fn begin(&mut self, c: Asked) {
        self.tag = c.tag;
        self.phase = Phase::Begun(c.heard);
    }

    // the check wants the clause of the trait written out here
    fn turn(&mut self, reply: Option<Reply>) -> Option<Call>
        ensures { record { me = self.new; next = result } ≡ clock_code.turns self.old reply }
    {
        let (phase, call) = match self.phase {
            Phase::Rising => (Phase::Getting, Some(Call::Get)),
            Phase::Getting => {
                self.time = match reply {
                    Some(Reply::Is(p)) => p.time,
                    _ => 0,
                };
                (Phase::Over(Ok(())), None)
            }
            Phase::Begun(heard) => match self.kept(heard) {
                Ok(time) => (Phase::Setting(time), Some(Call::Set(Payload { time }))),
                Err(why) => (Phase::Over(Err(why)), None),
            },
            Phase::Setting(time) => {
                self.time = time;
                (Phase::Over(Ok(())), None)
            }
            over @ Phase::Over(_) => (over, None),
        };
        self.phase = phase;
        call
    }

    fn reply(&self) -> Told {
        let said = match self.phase {
            Phase::Over(said) => said,
            _ => Ok(()),
        };
        Told {
            tag: self.tag,
            said,
        }
    }
}

impl Clock {
    // As it is before it comes up: it knows of no time.
    pub fn new() -> Clock
        ensures { result ≡ record { time = 0; tag = 0; phase = Phase.Rising } }
    {
        Clock {
            time: 0,
            tag: 0,
            phase: Phase::Rising,
        }
    }

    // The time to be kept once this was heard: one in range, if it is later.
    fn kept(&self, heard: Result<u64, Refusal>) -> Result<u64, Refusal>
        ensures { result ≡ time_kept heard self.now.time }
    {
        let ms = heard?;
        if ms < 1 << 62 && 0 < ms {
            Ok(self.time.max(ms))
        } else {
            Err(Refusal::Wrong)
        }
    }
}

// The time stands, over whatever keeps a payload.
pub fn clock_keeps()
    ensures { ClockKeeps }
{}
