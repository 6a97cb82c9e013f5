// The drives that are weak: each from when it is lost until the house, having it back, has said that all is whole.
ghost use Rattle.std.specs.Prelude.{◌≡◌, ℕ, ◌<◌, true, false, ◌&&◌, length, slice_index_or};
ghost use Rattle.drives.specs.Machines.{without};
ghost use Rattle.script.specs.Weaks.{weak_from, may_lose, lost_of};

use std::array;

#[derive(Clone, Copy)]
pub struct Weak {
    pub drives: [bool; 6],
}

impl Weak {
    // At first none is.
    pub fn none() -> Weak
        ensures { (i : ℕ) → i < 6 → slice_index_or result.drives i true ≡ false }
    {
        Weak { drives: [false; 6] }
    }

    // How many others are weak.
    fn others(&self, drive: usize) -> usize
        ensures { result ≡ length (without drive (weak_from 0 self.now.drives)) }
    {
        self.drives
            .iter()
            .enumerate()
            .filter(|(i, weak)| **weak && drive != *i)
            .count()
    }

    // A drive may be lost while fewer than two others are weak.
    pub fn may_lose(&self, drive: usize) -> bool
        ensures { result ≡ may_lose drive self.now.drives }
    {
        drive < 6 && self.others(drive) < 2
    }

    // By index: of an array written through `get_mut` a proof knows only the length.
    pub fn lost(&mut self, drive: usize)
        ensures { self.new.drives ≡ lost_of drive self.old.drives }
    {
        if drive < 6 {
            self.drives[drive] = true;
        }
    }

    // All is whole: only those that are gone stay weak.
    pub fn whole(&mut self, gone: &[bool; 6])
        ensures { (i : ℕ) → i < 6 → slice_index_or self.new.drives i false ≡ (slice_index_or self.old.drives i false && slice_index_or gone.now i false) }
    {
        let weak = self.drives;
        self.drives = array::from_fn(|i| weak[i] && gone[i]);
    }
}
