// A machine in code, and the readable machine that it is tied to.
ghost use Rattle.std.specs.Prelude.{◌≡◌, ℕ};
ghost use Rattle.drives.specs.Machines.{Machine, Judge};
ghost use Rattle.steps.specs.Steps.{Held, Stepped, Stepping};
ghost use Rattle.steps.specs.Ties.{TiedAll, CodeKeeps, CodeWithin};

use super::{Ask, Lent};

// A machine takes one step at a time. What it is at between two steps is an enum of phases, since a step that is kept as a closure would have to be boxed and handed out.
pub trait Stepper {
    type Call;

    type Reply;

    // what its parts say to each other, `()` where it has none: the law of a stack must have all its types at hand
    type Inside;

    // what its steps speak of; a struct may hold more, as a bound on a field
    type State;

    ghost view: { Self → Self.State };

    // what each function does to the state
    ghost code: { Stepping Self.Call Self.Reply Self.State };

    // the machine to be read, about which everything else is proved
    ghost machine: { Machine Self.Call Self.Reply };

    // how many requests are enough for whatever it is asked
    ghost most: { ℕ };

    // between calls, on drives of a size: which state of the code stands for which memory of the readable machine
    ghost same: { ℕ → Held Self.State → machine.Mem → Type 0 };

    // Begins to come up on drives of a size.
    fn open(&mut self, size: u64)
        ensures { view self.new ≡ code.opening size };

    // Begins a call.
    fn begin(&mut self, c: Self::Call)
        ensures { view self.new ≡ code.starts c (view self.old) };

    // Begins a stretch of mending.
    fn mend(&mut self)
        ensures { view self.new ≡ code.mending (view self.old) };

    // One step of what was begun: `got` is what the last request gave, and nothing at first. Any bytes, since the readable machines speak of it so: a narrower
    // type would ask more.
    fn step(&mut self, lent: &mut Lent, got: &[u8]) -> Ask
        ensures { record { me = view self.new; lent = lent.new; ask = result } ≡ code.steps (record { me = view self.old; lent = lent.old }) got.now };

    // What the call that is done comes to.
    fn reply(&self) -> Self::Reply
        ensures { result ≡ code.says (view self.now) };

    // Whether the stretch that is done left all whole.
    fn is_whole(&self) -> bool
        ensures { result ≡ code.whole (view self.now) };

    // the code is that machine
    ghost tied: { TiedAll code most machine same };
}

// The judge that a machine in code is held to.
pub trait Judges<M: Stepper>: Sized {
    ghost judge: { ℕ → Judge M.Call M.Reply };
}

// What the readable machine keeps to, the code keeps to.
pub fn code_keeps<M: Stepper, J: Judges<M>>()
    ensures { CodeKeeps M.Stepper.code M.Stepper.most M.Stepper.machine J.Judges.judge }
{}

// The code is as fair as the readable machine, and its stretches are no longer.
pub fn code_stays_within<M: Stepper>()
    ensures { CodeWithin M.Stepper.code M.Stepper.most M.Stepper.machine }
{}
