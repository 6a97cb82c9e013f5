// One drive in memory.
ghost use Rattle.std.specs.Prelude.{◌≡◌, ℕ, false, ◌⊎◌, if◌then◌else◌, ◌==◌, is_ok};
ghost use Rattle.drives.specs.Drives.{blank_drive, there, shown, written_to, synced_one, CutSlot};
ghost use Rattle.simdrives.specs.Sims.{bytes_before, holds_at, drive_of, slot_of};

use crate::choices::Choice;
use crate::sectors::{Before, Sectors};
use std::alloc::{AllocError, Global};
use std::collections::BTreeMap;

impl Sectors {
    pub fn new(heap: Global) -> Sectors
        ensures { there (drive_of result) ≡ there blank_drive }
    {
        Sectors {
            holds: BTreeMap::new(heap),
            undo: Vec::new(heap),
        }
    }

    pub fn read(&self, sector: u64) -> [u8; 512]
        ensures { result ≡ shown (there (drive_of self.now)) sector }
    {
        match self.holds.get(&sector) {
            Some(bytes) => **bytes,
            None => [0; 512],
        }
    }

    pub fn write(&mut self, heap: Global, sector: u64, bytes: &[u8; 512]) -> Result<(), AllocError>
        ensures { there (drive_of self.new) ≡ (if is_ok result then written_to sector bytes.now (there (drive_of self.old)) else there (drive_of self.old)) }
    {
        self.undo.reserve(1)?;
        let held = Box::new(heap, *bytes)?;
        let before = self.holds.insert(sector, held)?;
        self.undo.push_reserved(Before {
            sector,
            bytes: before,
        });
        Ok(())
    }

    pub fn sync(&mut self)
        ensures { there (drive_of self.new) ≡ synced_one (there (drive_of self.old)) }
    {
        self.undo.clear();
    }

    // Goes back by one write; without memory nothing changes.
    fn put_back(&mut self, before: Before)
        ensures undo { self.new.undo ≡ self.old.undo }
        ensures here { (holds_at self.new before.sector ≡ bytes_before before) ⊎ (holds_at self.new before.sector ≡ holds_at self.old before.sector) }
        ensures other { (s : ℕ) → (s == before.sector) ≡ false → holds_at self.new s ≡ holds_at self.old s }
    {
        let Before { sector, bytes } = before;
        match bytes {
            Some(held) => {
                let _ = self.holds.insert(sector, held);
            }
            None => {
                let _ = self.holds.remove(&sector);
            }
        }
    }

    // How often each sector was written to since the last sync.
    fn tally(&self, heap: Global) -> BTreeMap<u64, u64> {
        let mut counts = BTreeMap::new(heap);
        for before in self.undo.iter() {
            if let Ok(entry) = counts.entry(before.sector) {
                let n = entry.or_insert(0u64);
                *n = n.saturating_add(1);
            }
        }
        counts
    }

    // Goes back by so many writes of each sector, the latest first.
    fn go_back(&mut self, counts: &mut BTreeMap<u64, u64>)
        ensures { CutSlot (there (drive_of self.old)) (there (drive_of self.new)) }
    {
        while let Some(before) = self.undo.pop() {
            if one_less(counts, before.sector) {
                self.put_back(before);
            }
        }
    }

    // Leaves what a cut may leave: each sector goes back by as many writes as are chosen for it.
    pub fn cut(&mut self, heap: Global, choice: &mut Choice)
        ensures { CutSlot (there (drive_of self.old)) (there (drive_of self.new)) }
    {
        let mut counts = self.tally(heap);
        choice.choose_all(&mut counts);
        self.go_back(&mut counts);
    }
}

// Whether a count was above 0: then it is one less.
fn one_less(counts: &mut BTreeMap<u64, u64>, sector: u64) -> bool {
    match counts.get_mut(&sector) {
        Some(n) if *n > 0 => {
            *n -= 1;
            true
        }
        _ => false,
    }
}

// Changes nothing where the drive is gone. This and the next two each have a clause of their own; in one that takes a closure, its `post` would stand in all.
#[tactic(auto, unfolding(drives::specs::Drives::written_to))]
pub fn write(
    slot: &mut Option<Sectors>,
    heap: Global,
    sector: u64,
    bytes: &[u8; 512],
) -> Result<(), AllocError>
    ensures { slot_of slot.new ≡ (if is_ok result then written_to sector bytes.now (slot_of slot.old) else slot_of slot.old) }
{
    match slot {
        Some(d) => d.write(heap, sector, bytes),
        None => Ok(()),
    }
}

// Changes nothing where the drive is gone.
#[tactic(auto, unfolding(drives::specs::Drives::synced_one))]
pub fn sync(slot: &mut Option<Sectors>)
    ensures { slot_of slot.new ≡ synced_one (slot_of slot.old) }
{
    if let Some(d) = slot {
        d.sync();
    }
}

// Leaves what a cut may leave, and changes nothing where the drive is gone.
pub fn cut(slot: &mut Option<Sectors>, heap: Global, choice: &mut Choice)
    ensures { CutSlot (slot_of slot.old) (slot_of slot.new) }
{
    if let Some(d) = slot {
        d.cut(heap, choice);
    }
}
