// The root record in code: one payload, kept on six drives, whatever becomes of two of them.
#![tactic(auto)]

ghost use Rattle.std.specs.Prelude.{◌≡◌, false, map, slice_index_or};
ghost use Rattle.labels.specs.Times.{trusts};
ghost use Rattle.steps.specs.declared.Lent.{Lent};
ghost use Rattle.recorder.specs.Recording.{lowest_in, gets_at_first, noted, decided, goes, read_all, read_on, write_on, sync_on, fresh, budget, recorder_code, recorded, RecorderSame, RecorderStands};
ghost use Rattle.recorder.specs.declared.Phase.TheVariants.{Writing};
ghost use Rattle.recorder.specs.Tied.{recorder_tied};

use labels::{Label, read_label, write_label};
use mending::plan_stretch;
use register::{Call, Payload, Reply};
use steps::machines::Stepper;
use steps::{Ask, Lent};

// Drives 0 to 5: the label that each of them shows.
#[derive(Clone, Copy)]
pub struct Drives {
    pub seen: [Label; 6],
}

// What is being done.
#[derive(Clone, Copy)]
pub enum Task {
    Opens,
    Sets(Payload),
    Gets,
    Mends,
}

// How far it is. First all labels are read, then the record is written to the drives that get it, then all drives are synced, each time the highest drive first.
#[derive(Clone, Copy)]
pub enum Phase {
    Begun,
    Reading { drive: u8, drives: Drives },
    Writing { left: u8, gets: [bool; 6] },
    Syncing { left: u8 },
    Over,
}

impl Phase {
    // The record is to be written to these drives.
    fn writing(gets: [bool; 6]) -> Phase
        ensures { result ≡ Writing 6 gets }
    {
        Phase::Writing { left: 6, gets }
    }
}

#[derive(Clone, Copy)]
pub struct Recorder {
    // the record that all trusted drives have, or will have once the task is done: what was committed, if anything was
    pub current: Option<Payload>,
    pub task: Task,
    pub phase: Phase,
}

// How many requests are enough for whatever a recorder is asked: 18 of the drives, and three steps that ask for nothing.
pub const BUDGET: u64 = 21;

// Whether drive i gets the record.
fn is_marked(gets: &[bool; 6], i: u8) -> bool
    ensures { result ≡ slice_index_or gets.now i false }
{
    gets.get(usize::from(i)).copied().unwrap_or(false)
}

impl Drives {
    // Drive i has shown a label. An index and no `get_mut`, of which std does not say what is left in the array.
    fn note(&mut self, i: u8, l: Label)
        ensures { self.new ≡ noted self.old i l }
    {
        if i < 6 {
            self.seen[usize::from(i)] = l;
        }
    }

    // The record that is committed on the lowest drive, if any is. Which one is taken does not matter, as long as all drives come to agree.
    fn lowest(&self) -> Option<Payload>
        ensures { result ≡ lowest_in self.now.seen }
    {
        self.seen.iter().find_map(|l| l.committed())
    }

    // Which drives are trusted.
    fn trusted(&self) -> [bool; 6]
        ensures { result ≡ map trusts self.now.seen }
    {
        self.seen.map(|l| l.is_trusted())
    }

    // Where nothing is committed, every drive is told so: there is nothing yet that one could lack.
    fn get_at_first(&self, committed: Option<Payload>) -> [bool; 6]
        ensures { result ≡ gets_at_first committed self.now.seen }
    {
        match committed {
            Some(_) => self.trusted(),
            None => [true; 6],
        }
    }
}

impl Recorder {
    // As it is before it comes up: it knows of no drive.
    pub fn new() -> Recorder
        ensures { result ≡ fresh }
    {
        Recorder {
            current: None,
            task: Task::Opens,
            phase: Phase::Begun,
        }
    }

    // What all labels come to: which record is written, and to which drives.
    fn decide(&mut self, drives: Drives)
        ensures { self.new ≡ decided self.old.task drives self.old }
    {
        self.phase = match self.task {
            Task::Opens => {
                self.current = drives.lowest();
                Phase::writing(drives.get_at_first(self.current))
            }
            Task::Sets(p) => {
                self.current = Some(p);
                Phase::writing(drives.trusted())
            }
            Task::Mends => Phase::writing(plan_stretch(drives.seen).fills),
            Task::Gets => Phase::Over,
        };
    }

    // Reads the labels, all of them: whatever was seen before, a drive may have been replaced since.
    fn read_all(&mut self) -> Ask
        ensures { (lent : Lent) → goes self.new lent result ≡ read_all self.old lent }
    {
        let seen = [Label::Missing; 6];
        let drives = Drives { seen };
        self.phase = Phase::Reading { drive: 5, drives };
        Ask::Read {
            drive: 5,
            sector: 0,
        }
    }

    // Drive i has shown a label: the next one is read, or it is decided what to write.
    fn read_on(&mut self, i: u8, mut drives: Drives, l: Label) -> Ask
        ensures { (lent : Lent) → goes self.new lent result ≡ read_on i drives self.old lent l }
    {
        drives.note(i, l);
        if i == 0 {
            self.decide(drives);
            Ask::Again
        } else {
            self.phase = Phase::Reading {
                drive: i - 1,
                drives,
            };
            Ask::Read {
                drive: i - 1,
                sector: 0,
            }
        }
    }

    // The record goes to the next drive that gets it; after the last, all drives are synced.
    fn write_on(&mut self, left: u8, gets: [bool; 6], lent: &mut Lent) -> Ask
        ensures { goes self.new lent.new result ≡ write_on left gets self.old lent.old }
    {
        if left == 0 {
            self.phase = Phase::Syncing { left: 6 };
            return Ask::Again;
        }
        let i = left - 1;
        self.phase = Phase::Writing { left: i, gets };
        if is_marked(&gets, i) {
            lent.place(0, &write_label(self.current));
            Ask::Write {
                drive: i,
                sector: 0,
                at: 0,
            }
        } else {
            Ask::Again
        }
    }

    // The next drive is synced. Only when all are is anything answered.
    fn sync_on(&mut self, left: u8) -> Ask
        ensures { (lent : Lent) → goes self.new lent result ≡ sync_on left self.old lent }
    {
        if left == 0 {
            self.phase = Phase::Over;
            Ask::Done
        } else {
            self.phase = Phase::Syncing { left: left - 1 };
            Ask::Sync { drive: left - 1 }
        }
    }
}

impl Stepper for Recorder {
    type Call = Call;

    type Reply = Reply;

    type Inside = ();

    type State = Recorder;

    ghost view = { λ r. r };

    ghost code = { recorder_code };

    ghost machine = { recorded };

    ghost most = { budget };

    ghost same = { RecorderSame };

    ghost tied = { λ size lo hi. recorder_tied size };

    fn open(&mut self, size: u64) {
        *self = Recorder::new();
    }

    fn begin(&mut self, c: Call) {
        match c {
            Call::Set(p) => {
                self.task = Task::Sets(p);
                self.phase = Phase::Begun;
            }
            Call::Get => {
                self.task = Task::Gets;
                self.phase = Phase::Over;
            }
        }
    }

    fn mend(&mut self) {
        self.task = Task::Mends;
        self.phase = Phase::Begun;
    }

    fn step(&mut self, lent: &mut Lent, got: &[u8]) -> Ask {
        match self.phase {
            Phase::Begun => self.read_all(),
            Phase::Reading { drive, drives } => self.read_on(drive, drives, read_label(got)),
            Phase::Writing { left, gets } => self.write_on(left, gets, lent),
            Phase::Syncing { left } => self.sync_on(left),
            Phase::Over => Ask::Done,
        }
    }

    fn reply(&self) -> Reply {
        match self.task {
            Task::Gets => Reply::Is(self.current.unwrap_or_default()),
            _ => Reply::Done,
        }
    }

    fn is_whole(&self) -> bool {
        true
    }
}

// What was set is got, after any cut, loss, replacement and mending: by this code, with any budget that is enough.
pub fn recorder_stands()
    ensures { RecorderStands }
{}
