// A layer in code, the readable layer that it is tied to, and the stack of a layer over a machine.
ghost use Rattle.std.specs.Prelude.{◌≡◌, ℕ};
ghost use Rattle.drives.specs.Layers.{Layer, over};
ghost use Rattle.steps.specs.Stacks.{Planning, PlannedAll, stack_of, Both, enough};
ghost use Rattle.steps.specs.Stacked.{stacked};

use super::machines::Stepper;
use super::{Ask, Doing, Lent, Stack};

// A layer asks the machine below it, call by call, and has no drives and no lent memory. What it is at between two turns is an enum of phases, as in a machine.
pub trait Planner {
    // what it asks below, and how it is answered
    type Call;

    type Reply;

    // what it is asked, and how it answers
    type Outer;

    type Answer;

    type State;

    ghost view: { Self → Self.State };

    // what each function does to the state
    ghost code: { Planning Self.Call Self.Reply Self.Outer Self.Answer Self.State };

    // the layer to be read
    ghost layer: { Layer Self.Call Self.Reply Self.Outer Self.Answer };

    // how many turns are enough for whatever it is asked
    ghost most: { ℕ };

    // between calls, on drives of a size: which state of the code stands for which memory of the readable layer
    ghost same: { ℕ → Self.State → layer.Mem → Type 0 };

    // Begins to come up. Its first turn is taken once the machine below is up.
    fn open(&mut self, size: u64)
        ensures { view self.new ≡ code.rising size };

    // Begins a call.
    fn begin(&mut self, c: Self::Outer)
        ensures { view self.new ≡ code.starts c (view self.old) };

    // One turn of what was begun: `reply` is what the last call below was answered, and nothing at first. It gives the next call below, and none when it is done.
    fn turn(&mut self, reply: Option<Self::Reply>) -> Option<Self::Call>
        ensures { record { me = view self.new; next = result } ≡ code.turns (view self.old) reply };

    // What the call that is done comes to.
    fn reply(&self) -> Self::Answer
        ensures { result ≡ code.says (view self.now) };

    // the code is that layer
    ghost planned: { PlannedAll code most layer same };
}

// A stack is a machine: its layer over its machine.
impl<U: Planner<Call = L::Call, Reply = L::Reply>, L: Stepper> Stepper for Stack<U, L> {
    type Call = U::Outer;

    type Reply = U::Answer;

    type Inside = (L::Call, L::Reply, L::Inside);

    type State = Stack<U::State, L::State>;

    ghost view = { λ s. record { upper = U.Planner.view s.upper; lower = L.Stepper.view s.lower; doing = s.doing } };

    ghost code = { stack_of U.Planner.code L.Stepper.code };

    ghost machine = { over L.Stepper.machine U.Planner.layer };

    ghost most = { enough U.Planner.most L.Stepper.most };

    ghost same = { λ size. Both (U.Planner.same size) (L.Stepper.same size) };

    ghost tied = { λ size lo hi. stacked (U.Planner.planned size lo hi) (L.Stepper.tied size lo hi) };

    fn open(&mut self, size: u64) {
        self.lower.open(size);
        self.upper.open(size);
        self.doing = Doing::Opens;
    }

    fn begin(&mut self, c: U::Outer) {
        self.upper.begin(c);
        self.doing = Doing::Begun;
    }

    fn mend(&mut self) {
        self.lower.mend();
        self.doing = Doing::Mends;
    }

    fn step(&mut self, lent: &mut Lent, got: &[u8]) -> Ask {
        // the layer has its turn once the machine below is done
        let ask = match self.doing {
            Doing::Begun => Ask::Done,
            Doing::Opens | Doing::Waits | Doing::Mends => self.lower.step(lent, got),
        };
        if ask != Ask::Done || self.doing == Doing::Mends {
            return ask;
        }
        let reply = match self.doing {
            Doing::Waits => Some(self.lower.reply()),
            Doing::Opens | Doing::Begun | Doing::Mends => None,
        };
        self.doing = Doing::Waits;
        match self.upper.turn(reply) {
            Some(c) => {
                self.lower.begin(c);
                Ask::Again
            }
            None => Ask::Done,
        }
    }

    fn reply(&self) -> U::Answer {
        self.upper.reply()
    }

    fn is_whole(&self) -> bool {
        self.lower.is_whole()
    }
}
