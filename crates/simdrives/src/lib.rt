// Six drives in memory that can be lost, replaced and cut.
#![tactic(auto)]

ghost use Rattle.std.specs.Prelude.{◌≡◌, ℕ, ◌<◌, true, [], if◌then◌else◌, slice_index_or, unwrap_or, OnOk, OnErr, IsOk};
ghost use Rattle.drives.specs.Drives.{gone, there, blank_drive, shown, written_to, synced_one, put, AfterCut};
ghost use Rattle.drives.specs.Machines.{is_gone};
ghost use Rattle.simdrives.specs.Sims.{slots};
ghost use Rattle.simdrives.specs.Powers.{works, asked_of};

use driver::Disks;
use std::alloc::Global;
use std::error::Error;
use std::{array, fmt};

mod choices;
mod drive;
mod sectors;

pub use choices::Choice;
use drive::{cut, sync, write};
use sectors::Sectors;

// Whether what is asked is carried out: always, or so many times more, or no longer, since the power failed or memory did.
#[derive(Clone, Copy, Debug, PartialEq, Eq)]
pub enum Power {
    On,
    Fails(u64),
    Off,
    NoMemory,
}

// What was asked and carried out.
#[derive(Clone, Copy, Debug, Default, PartialEq, Eq)]
pub struct Counts {
    pub reads: u64,
    pub writes: u64,
    pub syncs: u64,
}

// A drive that was to be replaced is there.
#[derive(Clone, Copy, Debug, PartialEq, Eq)]
pub struct NotGone;

impl fmt::Display for NotGone {
    ghost use Rattle.std.specs.Prelude.{Some, codes};

    ghost output = { λ _. Some (codes "the drive is not gone") };

    fn fmt<W: fmt::Write>(&self, f: &mut fmt::Formatter<W>) -> fmt::Result {
        f.write_str("the drive is not gone")
    }
}

impl Error for NotGone {}

#[derive(Drop)]
pub struct SimDrives {
    drives: [Option<Sectors>; 6],
    heap: Global,
    power: Power,
    counts: Counts,
}

impl SimDrives {
    // Six blank drives.
    pub fn new(heap: Global) -> SimDrives
        ensures drives { (i : ℕ) → i < 6 → slots result.drives i ≡ there blank_drive }
        ensures power { result.power ≡ Power.On }
    {
        SimDrives {
            drives: array::from_fn(|_| Some(Sectors::new(heap))),
            heap,
            power: Power::On,
            counts: Counts::default(),
        }
    }

    pub fn counts(&self) -> Counts
        ensures { result ≡ self.now.counts }
    {
        self.counts
    }

    // Counts from 0 again.
    pub fn count_anew(&mut self)
        ensures { self.new ≡ record { drives = self.old.drives; heap = self.old.heap; power = self.old.power; counts = record { reads = 0; writes = 0; syncs = 0 } } }
    {
        self.counts = Counts::default();
    }

    pub fn power(&self) -> Power
        ensures { result ≡ self.now.power }
    {
        self.power
    }

    // Whether what is asked is still carried out.
    pub fn is_on(&self) -> bool
        ensures { result ≡ works self.now.power }
    {
        matches!(self.power, Power::On | Power::Fails(_))
    }

    // The power fails after that many more are carried out.
    pub fn fail_after(&mut self, askings: u64)
        ensures { self.new ≡ record { drives = self.old.drives; heap = self.old.heap; power = Power.Fails askings; counts = self.old.counts } }
    {
        self.power = Power::Fails(askings);
    }

    // Which drives are gone.
    pub fn gone(&self) -> [bool; 6]
        ensures { (i : ℕ) → i < 6 → slice_index_or result i true ≡ is_gone (slots self.now.drives i) }
    {
        self.drives.each_ref().map(|d| d.is_none())
    }

    // Here and below the index is tested by hand: of an array that was written through `get_mut` a proof knows only the length.
    pub fn lose(&mut self, drive: usize)
        ensures { slots self.new.drives ≡ put drive gone (slots self.old.drives) }
    {
        if drive < self.drives.len() {
            self.drives[drive] = None;
        }
    }

    // A blank drive in the place of one that is gone.
    pub fn replace(&mut self, drive: usize) -> Result<(), NotGone>
        ensures test { OnOk result (slots self.old.drives drive ≡ gone) }
        ensures ok { OnOk result (slots self.new.drives ≡ put drive (there blank_drive) (slots self.old.drives)) }
        ensures err { OnErr result (slots self.new.drives ≡ slots self.old.drives) }
        ensures always { drive < 6 → slots self.old.drives drive ≡ gone → IsOk result }
    {
        if drive < self.drives.len() && self.drives[drive].is_none() {
            self.drives[drive] = Some(Sectors::new(self.heap));
            Ok(())
        } else {
            Err(NotGone)
        }
    }

    // The power fails, and comes back: of each drive is left what a cut may leave.
    pub fn cut(&mut self, mut choice: Choice)
        ensures drives { AfterCut (slots self.old.drives) (slots self.new.drives) }
        ensures power { self.new.power ≡ Power.On }
    {
        let heap = self.heap;
        for slot in self.drives.iter_mut() {
            cut(slot, heap, &mut choice);
        }
        self.power = Power::On;
    }

    // Whether the next is carried out.
    fn carries_on(&mut self) -> bool
        ensures test { result ≡ works (asked_of self.old.power) }
        ensures after { self.new ≡ record { drives = self.old.drives; heap = self.old.heap; power = asked_of self.old.power; counts = self.old.counts } }
    {
        match self.power {
            Power::On => true,
            Power::Fails(n) => {
                self.power = if n == 0 {
                    Power::Off
                } else {
                    Power::Fails(n - 1)
                };
                n > 0
            }
            Power::Off | Power::NoMemory => false,
        }
    }

    // This and the next two are no one method that takes a closure: each clause would speak of the closure's `post`.

    // The sector, if there is one to be read while the power is on.
    fn read_one(&mut self, drive: usize, sector: u64) -> Option<[u8; 512]>
        ensures on { self.new.power ≡ asked_of self.old.power }
        ensures same { slots self.new.drives ≡ slots self.old.drives }
        ensures value { unwrap_or result [] ≡ (if works self.new.power then shown (slots self.old.drives drive) sector else []) }
    {
        if !self.carries_on() {
            return None;
        }
        self.counts.reads = self.counts.reads.saturating_add(1);
        match self.drives.get(drive) {
            Some(Some(d)) => Some(d.read(sector)),
            _ => None,
        }
    }

    // Without memory nothing is written, and nothing more is carried out.
    fn write_one(&mut self, drive: usize, sector: u64, bytes: &[u8; 512])
        ensures on { works self.new.power ≡ true → self.new.power ≡ asked_of self.old.power }
        ensures drives { slots self.new.drives ≡ (if works self.new.power then put drive (written_to sector bytes.now (slots self.old.drives drive)) (slots self.old.drives) else slots self.old.drives) }
    {
        if !self.carries_on() {
            return;
        }
        self.counts.writes = self.counts.writes.saturating_add(1);
        // two tests: joined by `&&` the proof doesn't close
        if drive < self.drives.len() {
            let done = write(&mut self.drives[drive], self.heap, sector, bytes);
            if done.is_err() {
                self.power = Power::NoMemory;
            }
        }
    }

    fn sync_one(&mut self, drive: usize)
        ensures on { self.new.power ≡ asked_of self.old.power }
        ensures drives { slots self.new.drives ≡ (if works self.new.power then put drive (synced_one (slots self.old.drives drive)) (slots self.old.drives) else slots self.old.drives) }
    {
        if !self.carries_on() {
            return;
        }
        self.counts.syncs = self.counts.syncs.saturating_add(1);
        if drive < self.drives.len() {
            sync(&mut self.drives[drive]);
        }
    }
}

// Of drives that may fail at any time nothing is known beforehand, so the clauses of `Disks` say nothing here: what is carried out is said by `read_one`, `write_one` and `sync_one`.
impl Disks for SimDrives {
    ghost model = { λ s. slots s.drives };

    ghost known = { λ _. ⊥ };

    fn read(&mut self, drive: u8, sector: u64) -> Option<[u8; 512]> {
        self.read_one(usize::from(drive), sector)
    }

    fn write(&mut self, drive: u8, sector: u64, bytes: &[u8; 512]) {
        self.write_one(usize::from(drive), sector, bytes);
    }

    fn sync(&mut self, drive: u8) {
        self.sync_one(usize::from(drive));
    }
}

#[cfg(test)]
mod tests {
    use super::*;
    use std::test::Fail;

    fn byte(d: &mut SimDrives, drive: u8, sector: u64) -> u8 {
        match d.read(drive, sector) {
            Some(bytes) => bytes[0],
            None => 255,
        }
    }

    // Sectors 5 and 7 are not synced: the first bit leaves 5 old, the second leaves 7 new.
    #[test]
    fn cuts_by_bits(rt: HostRuntime) -> Result<(), Fail> {
        let mut d = SimDrives::new(rt.alloc());
        d.write(0, 5, &[1; 512]);
        d.sync(0);
        d.write(0, 7, &[4; 512]);
        d.write(0, 5, &[2; 512]);
        d.write(0, 5, &[3; 512]);
        d.cut(Choice::Bits(2));
        assert_eq!(rt; byte(&mut d, 0, 5), 1);
        assert_eq!(rt; byte(&mut d, 0, 7), 4);
        d.write(0, 7, &[6; 512]);
        d.cut(Choice::Old);
        assert_eq!(rt; byte(&mut d, 0, 7), 4);
        Ok(())
    }

    #[test]
    fn fails_in_time(rt: HostRuntime) -> Result<(), Fail> {
        let mut d = SimDrives::new(rt.alloc());
        d.fail_after(1);
        d.write(1, 5, &[1; 512]);
        assert!(rt; d.is_on());
        d.write(1, 6, &[1; 512]);
        assert!(rt; !d.is_on());
        assert_eq!(rt; byte(&mut d, 1, 5), 255);
        d.cut(Choice::Newest);
        assert_eq!(rt; byte(&mut d, 1, 5), 1);
        assert_eq!(rt; byte(&mut d, 1, 6), 0);
        Ok(())
    }
}
