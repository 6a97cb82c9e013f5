// The one loop that runs a machine in code on drives, be they files or simulated.
#![tactic(auto)]

ghost use Rattle.std.specs.Prelude.{◌≡◌, ℕ, ◌≤◌, [], unwrap_or};
ghost use Rattle.drives.specs.Drives.{Drives, shown, put, written_to, synced_one, smallest, largest};
ghost use Rattle.drives.specs.Machines.{Machine};
ghost use Rattle.steps.specs.Steps.{Held, Stepped, unused, first, runs, machine_of};
ghost use Rattle.driver.specs.Known.{WhereKnown};
ghost use Rattle.driver.specs.Loops.{held_by, Performed, performed, stepped, Leaves, Ends};

use steps::machines::Stepper;
use steps::{Ask, Lent};

// What carries requests out; a request's drive and sector go side by side, since a struct of the two would be made and taken apart at once. Nothing can be known of what files hold; of simulated drives it is, so each clause says what holds where it is known.
pub trait Disks {
    ghost model: { Self → Drives };

    ghost known: { Self → Type 0 };

    // What the sector holds; nothing where there is no sector to be read.
    fn read(&mut self, drive: u8, sector: u64) -> Option<[u8; 512]>
        ensures { WhereKnown known model self.old self.new (λ d e. (e ≡ d) × (unwrap_or result [] ≡ shown (d drive) sector)) };

    fn write(&mut self, drive: u8, sector: u64, bytes: &[u8; 512])
        ensures { WhereKnown known model self.old self.new (λ d e. e ≡ put drive (written_to sector bytes.now (d drive)) d) };

    fn sync(&mut self, drive: u8)
        ensures { WhereKnown known model self.old self.new (λ d e. e ≡ put drive (synced_one (d drive)) d) };
}

// Carries out what a step asks for, and takes the next step with what was read. What was read is lent to the step where it lies, and each request has a step of
// its own, so that nothing stands in for a sector where none was read: it is not copied on, nor are 512 zeros made.
// `Stepper::step` takes any bytes, and none where nothing was read: the readable machines speak of it so, and a narrower type would ask more of its callers.
fn go_on<M: Stepper, D: Disks>(m: &mut M, lent: &mut Lent, disks: &mut D, ask: Ask) -> Ask
    ensures { WhereKnown D.Disks.known D.Disks.model disks.old disks.new (λ d e. record { after = record { me = M.Stepper.view m.new; lent = lent.new; ask = result }; drives = e } ≡ stepped M.Stepper.code.steps (record { me = M.Stepper.view m.old; lent = lent.old }) (performed ask lent.old d)) }
{
    match ask {
        Ask::Read { drive, sector } => {
            let got = disks.read(drive, sector);
            match &got {
                Some(bytes) => m.step(lent, bytes),
                None => m.step(lent, &[]),
            }
        }
        Ask::Write { drive, sector, at } => {
            disks.write(drive, sector, &lent.sector(at));
            m.step(lent, &[])
        }
        Ask::Sync { drive } => {
            disks.sync(drive);
            m.step(lent, &[])
        }
        Ask::Again | Ask::Done => m.step(lent, &[]),
    }
}

// Runs the steps of what was begun, with at most `most` requests.
fn finish<M: Stepper, D: Disks>(m: &mut M, lent: &mut Lent, disks: &mut D, most: u64)
    ensures { WhereKnown D.Disks.known D.Disks.model disks.old disks.new (λ d e. Leaves (runs M.Stepper.code.steps most (first M.Stepper.code (M.Stepper.view m.old) lent.old)) d (record { me = M.Stepper.view m.new; lent = lent.new }) e) }
{
    let mut ask = m.step(lent, &[]);
    for _ in 0..most {
        if let Ask::Done = ask {
            return;
        }
        ask = go_on(m, lent, disks, ask);
    }
}

// Comes up on drives of a size. Here and below a machine and the memory lent to it are two parameters: who only borrows both can call these.
pub fn open<M: Stepper, D: Disks>(m: &mut M, lent: &mut Lent, disks: &mut D, size: u64, most: u64)
    ensures code { WhereKnown D.Disks.known D.Disks.model disks.old disks.new (λ d e. Leaves ((machine_of M.Stepper.code most).opens size) d (record { me = M.Stepper.view m.new; lent = lent.new }) e) }
    ensures read { smallest ≤ size → size ≤ largest → M.Stepper.most ≤ most → WhereKnown D.Disks.known D.Disks.model disks.old disks.new (Ends (M.Stepper.same size (record { me = M.Stepper.view m.new; lent = lent.new })) (M.Stepper.machine.opens size)) }
{
    lent.clear();
    m.open(size);
    finish(m, lent, disks, most);
}

// Answers a call.
pub fn call<M: Stepper, D: Disks>(
    m: &mut M,
    lent: &mut Lent,
    disks: &mut D,
    c: M::Call,
    most: u64,
) -> M::Reply
    ensures code { WhereKnown D.Disks.known D.Disks.model disks.old disks.new (λ d e. Leaves ((machine_of M.Stepper.code most).does c (record { me = M.Stepper.view m.old; lent = lent.old })) d (record { reply = result; mem = record { me = M.Stepper.view m.new; lent = lent.new } }) e) }
    ensures read { (size : ℕ) (x : M.Stepper.machine.Mem) → smallest ≤ size → size ≤ largest → M.Stepper.most ≤ most → M.Stepper.same size (record { me = M.Stepper.view m.old; lent = lent.old }) x → WhereKnown D.Disks.known D.Disks.model disks.old disks.new (Ends (λ y. (result ≡ y.reply) × M.Stepper.same size (record { me = M.Stepper.view m.new; lent = lent.new }) y.mem) (M.Stepper.machine.does c x)) }
{
    m.begin(c);
    finish(m, lent, disks, most);
    m.reply()
}

// Does one stretch of mending; says whether all is whole.
pub fn mend<M: Stepper, D: Disks>(m: &mut M, lent: &mut Lent, disks: &mut D, most: u64) -> bool
    ensures code { WhereKnown D.Disks.known D.Disks.model disks.old disks.new (λ d e. Leaves ((machine_of M.Stepper.code most).mends (record { me = M.Stepper.view m.old; lent = lent.old })) d (record { whole = result; mem = record { me = M.Stepper.view m.new; lent = lent.new } }) e) }
    ensures read { (size : ℕ) (x : M.Stepper.machine.Mem) → smallest ≤ size → size ≤ largest → M.Stepper.most ≤ most → M.Stepper.same size (record { me = M.Stepper.view m.old; lent = lent.old }) x → WhereKnown D.Disks.known D.Disks.model disks.old disks.new (Ends (λ y. (result ≡ y.whole) × M.Stepper.same size (record { me = M.Stepper.view m.new; lent = lent.new }) y.mem) (M.Stepper.machine.mends x)) }
{
    m.mend();
    finish(m, lent, disks, most);
    m.is_whole()
}

// A machine in code, with the memory that is lent to it. Its methods are the functions above, for who holds both.
#[derive(Drop)]
pub struct Running<M> {
    pub machine: M,
    pub lent: Lent,
}

impl<M: Stepper> Running<M> {
    pub fn new(machine: M) -> Running<M>
        ensures { result ≡ record { machine = machine; lent = unused } }
    {
        Running {
            machine,
            lent: Lent::new(),
        }
    }

    pub fn open<D: Disks>(&mut self, disks: &mut D, size: u64, most: u64)
        ensures code { WhereKnown D.Disks.known D.Disks.model disks.old disks.new (λ d e. Leaves ((machine_of M.Stepper.code most).opens size) d (held_by M.Stepper.view self.new) e) }
        ensures read { smallest ≤ size → size ≤ largest → M.Stepper.most ≤ most → WhereKnown D.Disks.known D.Disks.model disks.old disks.new (Ends (M.Stepper.same size (held_by M.Stepper.view self.new)) (M.Stepper.machine.opens size)) }
    {
        open(&mut self.machine, &mut self.lent, disks, size, most);
    }

    pub fn call<D: Disks>(&mut self, disks: &mut D, c: M::Call, most: u64) -> M::Reply
        ensures code { WhereKnown D.Disks.known D.Disks.model disks.old disks.new (λ d e. Leaves ((machine_of M.Stepper.code most).does c (held_by M.Stepper.view self.old)) d (record { reply = result; mem = held_by M.Stepper.view self.new }) e) }
        ensures read { (size : ℕ) (x : M.Stepper.machine.Mem) → smallest ≤ size → size ≤ largest → M.Stepper.most ≤ most → M.Stepper.same size (held_by M.Stepper.view self.old) x → WhereKnown D.Disks.known D.Disks.model disks.old disks.new (Ends (λ y. (result ≡ y.reply) × M.Stepper.same size (held_by M.Stepper.view self.new) y.mem) (M.Stepper.machine.does c x)) }
    {
        call(&mut self.machine, &mut self.lent, disks, c, most)
    }

    pub fn mend<D: Disks>(&mut self, disks: &mut D, most: u64) -> bool
        ensures code { WhereKnown D.Disks.known D.Disks.model disks.old disks.new (λ d e. Leaves ((machine_of M.Stepper.code most).mends (held_by M.Stepper.view self.old)) d (record { whole = result; mem = held_by M.Stepper.view self.new }) e) }
        ensures read { (size : ℕ) (x : M.Stepper.machine.Mem) → smallest ≤ size → size ≤ largest → M.Stepper.most ≤ most → M.Stepper.same size (held_by M.Stepper.view self.old) x → WhereKnown D.Disks.known D.Disks.model disks.old disks.new (Ends (λ y. (result ≡ y.whole) × M.Stepper.same size (held_by M.Stepper.view self.new) y.mem) (M.Stepper.machine.mends x)) }
    {
        mend(&mut self.machine, &mut self.lent, disks, most)
    }
}
