// The front of a house: lines of bytes come in, and go out. It is the clock over whatever keeps a payload.
#![tactic(auto)]

ghost use Rattle.std.specs.Prelude.{◌≡◌};
ghost use Rattle.driver.specs.Known.{WhereKnown};
ghost use Rattle.driver.specs.Loops.{Leaves};
ghost use Rattle.clock.specs.Spelled.{asked_in, told_bytes};
ghost use Rattle.front.specs.Fronts.{closed_over, held_in, house_over, Answered, LineDone};

use answers::write_answer;
use clock::{Asked, Clock, Told};
use driver::{Disks, Running};
use lines::calls::Call;
use lines::order::{Built, Refusal, tag_of, turned_away};
use steps::layers::Planner;
use steps::machines::Stepper;
use steps::{Doing, Stack};

// What is heard of a line, at a time.
fn hear(line: &[u8], longest: usize, time: u64) -> Asked
    ensures { result ≡ asked_in longest line.now time }
{
    let call = turned_away(line, Built::Time, longest, time, 1);
    let heard = call.and_then(|call| match call {
        Call::Time { ms } => Ok(ms),
        _ => Err(Refusal::NotBuilt),
    });
    Asked {
        tag: tag_of(line),
        heard,
    }
}

// Writes the answer to the front of `out`, and says how long it is; nothing, where there is no room for it.
#[tactic(auto, unfolding(clock::specs::Spelled::told_bytes))]
fn write_told(told: Told, out: &mut [u8]) -> Option<usize>
    ensures { Answered (told_bytes told) out.old result out.new }
{
    write_answer(told.tag, told.said.into(), out)
}

// How many requests are enough for whatever the house is asked.
pub const MOST: u64 = 1_000;

// A house over whatever keeps a payload: it hears lines of up to `longest` bytes. That `longest` is left as it is
// each method but `shut` says: one that borrows the house may change any field, and what is set at run time is no constant.
#[derive(Drop)]
pub struct House<L> {
    running: Running<Stack<Clock, L>>,
    longest: usize,
}

// The clock over a machine, as both are before they come up.
fn closed<L>(lower: L) -> Stack<Clock, L>
    ensures { result ≡ closed_over lower }
{
    Stack {
        upper: Clock::new(),
        lower,
        doing: Doing::Opens,
    }
}

impl<L: Stepper<Call = register::Call, Reply = register::Reply>> House<L> {
    pub fn new(lower: L, longest: usize) -> House<L>
        ensures { result.longest ≡ longest }
    {
        let running = Running::new(closed(lower));
        House { running, longest }
    }

    // Forgets all that it knew, as when the power fails, and hears lines of up to `longest` bytes from then on. What is lent to it means nothing between calls: it
    // is left as it is.
    pub fn shut(&mut self, lower: L, longest: usize)
    where
        L: Drop,
        ensures { self.new ≡ record { running = record { machine = closed_over lower; lent = self.old.running.lent }; longest = longest } }
    {
        self.running.machine = closed(lower);
        self.longest = longest;
    }

    // Comes up on drives of a size.
    pub fn open<D: Disks>(&mut self, disks: &mut D, size: u64)
        ensures ran { WhereKnown D.Disks.known D.Disks.model disks.old disks.new (λ d e. Leaves ((house_over L.Stepper.code self.old.longest).opens size) d (held_in L.Stepper.view self.new) e) }
        ensures same { self.new.longest ≡ self.old.longest }
    {
        self.running.open(disks, size, MOST);
    }

    // Answers a line: writes the answer to the front of `out`, and says how long it is.
    pub fn call<D: Disks>(&mut self, disks: &mut D, line: &[u8], out: &mut [u8]) -> Option<usize>
        ensures ran { WhereKnown D.Disks.known D.Disks.model disks.old disks.new (λ d e. LineDone L.Stepper.code self.old.longest line.now (held_in L.Stepper.view self.old) d out.old result out.new (held_in L.Stepper.view self.new) e) }
        ensures same { self.new.longest ≡ self.old.longest }
    {
        let asked = hear(line, self.longest, self.running.machine.upper.time);
        let told = self.running.call(disks, asked, MOST);
        write_told(told, out)
    }

    // Does one stretch of mending; says whether all is whole.
    pub fn mend<D: Disks>(&mut self, disks: &mut D) -> bool
        ensures ran { WhereKnown D.Disks.known D.Disks.model disks.old disks.new (λ d e. Leaves ((house_over L.Stepper.code self.old.longest).mends (held_in L.Stepper.view self.old)) d (record { whole = result; mem = held_in L.Stepper.view self.new }) e) }
        ensures same { self.new.longest ≡ self.old.longest }
    {
        self.running.mend(disks, MOST)
    }
}
