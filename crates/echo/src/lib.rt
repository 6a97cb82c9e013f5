// The smallest machine and layer, to copy from: a machine that copies one sector of drive 0 to drive 1, and a layer over it that copies two.
#![tactic(auto)]

ghost use Rattle.std.specs.Prelude.{◌≡◌};
ghost use Rattle.echo.specs.Echoes.{echo_code, echoes, EchoSame};
ghost use Rattle.echo.specs.Twices.{twice_code, twices, TwiceSame};
ghost use Rattle.drives.specs.Layers.{over};
ghost use Rattle.steps.specs.Steps.{Ample};
ghost use Rattle.steps.specs.Stacks.{Asked};
ghost use Rattle.driver.specs.Known.{WhereKnown};
ghost use Rattle.driver.specs.Loops.{Ends};
ghost use Rattle.echo.specs.Tied.{echo_tied, twice_planned};

use driver::Disks;
use steps::layers::Planner;
use steps::machines::Stepper;
use steps::{Ask, Lent, Stack};

// What an echo is at.
#[derive(Clone, Copy, PartialEq, Eq)]
pub enum Phase {
    Begun,
    Reading,
    Writing,
    Syncing,
    Over { ok: bool },
}

// Copies one sector, and answers whether that could be done.
#[derive(Clone, Copy, PartialEq, Eq)]
pub struct Echo {
    pub sector: u64,
    pub phase: Phase,
}

impl Stepper for Echo {
    type Call = u64;

    type Reply = bool;

    type Inside = ();

    type State = Echo;

    ghost view = { λ e. e };

    ghost code = { echo_code };

    ghost machine = { echoes };

    ghost most = { 4 };

    ghost same = { EchoSame };

    ghost tied = { λ size lo hi. echo_tied size };

    fn open(&mut self, size: u64) {
        *self = Echo {
            sector: 0,
            phase: Phase::Over { ok: false },
        };
    }

    fn begin(&mut self, c: u64) {
        *self = Echo {
            sector: c,
            phase: Phase::Begun,
        };
    }

    fn mend(&mut self) {
        self.phase = Phase::Over { ok: true };
    }

    fn step(&mut self, lent: &mut Lent, got: &[u8]) -> Ask {
        let sector = self.sector;
        let (phase, ask) = match self.phase {
            Phase::Begun => (Phase::Reading, Ask::Read { drive: 0, sector }),
            Phase::Reading if got.len() == 512 => {
                lent.place(0, got);
                (
                    Phase::Writing,
                    Ask::Write {
                        drive: 1,
                        sector,
                        at: 0,
                    },
                )
            }
            Phase::Reading => (Phase::Over { ok: false }, Ask::Done),
            Phase::Writing => (Phase::Syncing, Ask::Sync { drive: 1 }),
            Phase::Syncing => (Phase::Over { ok: true }, Ask::Done),
            over @ Phase::Over { .. } => (over, Ask::Done),
        };
        self.phase = phase;
        ask
    }

    fn reply(&self) -> bool {
        matches!(self.phase, Phase::Over { ok: true })
    }

    fn is_whole(&self) -> bool {
        true
    }
}

// Copies a sector, and then sector 7 where that could be done; answers whether both could.
#[derive(Clone, Copy, PartialEq, Eq)]
pub enum Twice {
    Begun { sector: u64 },
    First,
    Second,
    Over { ok: bool },
}

impl Planner for Twice {
    type Call = u64;

    type Reply = bool;

    type Outer = u64;

    type Answer = bool;

    type State = Twice;

    ghost view = { λ t. t };

    ghost code = { twice_code };

    ghost layer = { twices };

    ghost most = { 3 };

    ghost same = { TwiceSame };

    ghost planned = { λ size lo hi. twice_planned size };

    fn open(&mut self, size: u64) {
        *self = Twice::Over { ok: false };
    }

    fn begin(&mut self, c: u64) {
        *self = Twice::Begun { sector: c };
    }

    // the check wants the clause of the trait written out here
    fn turn(&mut self, reply: Option<bool>) -> Option<u64>
        ensures { record { me = self.new; next = result } ≡ twice_code.turns self.old reply }
    {
        let ok = reply.unwrap_or(false);
        let (next, call) = match *self {
            Twice::Begun { sector } => (Twice::First, Some(sector)),
            Twice::First if ok => (Twice::Second, Some(7)),
            Twice::First | Twice::Second => (Twice::Over { ok }, None),
            over @ Twice::Over { .. } => (over, None),
        };
        *self = next;
        call
    }

    fn reply(&self) -> bool {
        matches!(*self, Twice::Over { ok: true })
    }
}

// The layer over the machine, run on drives.
pub fn copy_two<D: Disks>(
    m: &mut Stack<Twice, Echo>,
    lent: &mut Lent,
    disks: &mut D,
    c: u64,
) -> bool
    ensures { Ample lent.old → WhereKnown D.Disks.known D.Disks.model disks.old disks.new (Ends (λ y. result ≡ y.reply) ((over echoes twices).does c (record { below = tt; above = tt }))) }
{
    driver::call(m, lent, disks, c, 1000)
}
