// The six drive files of a house, in the current folder. Nothing can be proved of what a file holds, so little is promised here.
ghost use Rattle.std.specs.Prelude.{◌≡◌, false, is_some};
ghost use Rattle.drives.specs.Drives.{gone};

use bays::{Drives, Found, Label};
use driver::Disks;
use labels::{SECTOR_BYTES, read_label};
use std::fs::{File, OpenOptions};
use std::io::{Read, Seek, SeekFrom, Write};
use std::rt::Files;
use std::{array, fs, io};

// The fewest drives that anything is asked of: with fewer, a house that is only unplugged might begin anew.
pub const FEWEST_DRIVES: usize = 4;

// The name of each drive's file, and its name once the drive is lost.
const NAMES: [(&str, &str); 6] = [
    ("drive0", "drive0.lost"),
    ("drive1", "drive1.lost"),
    ("drive2", "drive2.lost"),
    ("drive3", "drive3.lost"),
    ("drive4", "drive4.lost"),
    ("drive5", "drive5.lost"),
];

// What a drive failed at.
#[derive(Clone, Copy)]
enum Failure {
    Read(u64),
    Write(u64),
    Sync,
}

// The files of the drives that are there. Once one of them fails, nothing more is carried out: the power is off.
#[derive(Drop)]
pub struct DriveFiles {
    at: [Option<File>; 6],
    failed: Option<(u8, Failure)>,
}

fn seek_sector(file: &mut File, sector: u64) -> io::Result<()> {
    let Some(place) = sector.checked_mul(SECTOR_BYTES) else {
        return Err(io::Error::other("no such sector"));
    };
    file.seek(SeekFrom::Start(place))?;
    Ok(())
}

// A file and a sector go side by side: a struct of the two would be made and taken apart at once.
fn read_sector(file: &mut File, sector: u64) -> io::Result<[u8; 512]> {
    let mut bytes = [0; 512];
    seek_sector(file, sector)?;
    file.read_exact(&mut bytes)?;
    Ok(bytes)
}

fn write_sector(file: &mut File, sector: u64, bytes: &[u8; 512]) -> io::Result<()> {
    seek_sector(file, sector)?;
    file.write_all(bytes)
}

// The same again, changing nothing: what is written is what was read there.
fn try_again(file: &mut File, what: Failure) -> io::Result<()> {
    match what {
        Failure::Read(at) => {
            read_sector(file, at)?;
            Ok(())
        }
        Failure::Write(at) => {
            let bytes = read_sector(file, at)?;
            write_sector(file, at, &bytes)
        }
        Failure::Sync => file.sync_all(),
    }
}

fn find(file: &mut File) -> io::Result<Found> {
    let bytes = file.metadata()?.len();
    let label = if bytes < SECTOR_BYTES {
        Label::Foreign
    } else {
        read_label(&read_sector(file, 0)?).into()
    };
    Ok(Found { bytes, label })
}

fn open_drive(rt: &impl Files<File = File>, name: &str) -> io::Result<(File, Found)> {
    let mut how = OpenOptions::new();
    how.read(true);
    how.write(true);
    let mut file = how.open(rt, name)?;
    let found = find(&mut file)?;
    Ok((file, found))
}

impl DriveFiles {
    pub fn none() -> DriveFiles
        ensures { is_some result.failed ≡ false }
    {
        DriveFiles {
            at: array::from_fn(|_| None),
            failed: None,
        }
    }

    // Has the power gone off.
    pub fn is_off(&self) -> bool
        ensures { result ≡ is_some self.now.failed }
    {
        self.failed.is_some()
    }

    // Opens the files anew, and says what is found of each.
    pub fn open_all(&mut self, rt: &impl Files<File = File>) -> [Option<Found>; 6] {
        self.failed = None;
        let mut seen = [None; 6];
        let places = self.at.iter_mut().zip(seen.iter_mut());
        for ((place, shown), (name, _)) in places.zip(NAMES.iter()) {
            *place = None;
            if let Ok((file, found)) = open_drive(rt, name) {
                *place = Some(file);
                *shown = Some(found);
            }
        }
        seen
    }

    // Closes those that are no drives of the house.
    pub fn keep(&mut self, drives: &Drives) {
        for (file, state) in self.at.iter_mut().zip(drives.states()) {
            if !state.is_there() {
                *file = None;
            }
        }
    }

    // Does something with the file of a drive that is there, while the power is on. If it fails, that turns the power off.
    fn ask<T: Drop, F: FnOnce(&mut File) -> io::Result<T>>(
        &mut self,
        drive: u8,
        what: Failure,
        f: F,
    ) -> Option<T>
        requires { F.IsAlwaysCallable f }
    {
        if self.failed.is_some() {
            return None;
        }
        match f(self.at.get_mut(usize::from(drive))?.as_mut()?) {
            Ok(got) => Some(got),
            Err(_) => {
                self.failed = Some((drive, what));
                None
            }
        }
    }

    // How many of the files fail at what one failed at.
    fn count_failing(&mut self, what: Failure) -> usize {
        self.at
            .iter_mut()
            .flatten()
            .filter_map(|file| try_again(file, what).err())
            .count()
    }

    // The drive that failed is lost: its file is put out of the way, so that it can't come back with what is old.
    // Where more than two would be lost, with those that are gone, none is: it is the disk under them that is full or broken.
    pub fn put_away(&mut self, rt: &impl Files, there: usize) -> Option<u8> {
        let (drive, what) = self.failed?;
        let (name, lost) = NAMES.get(usize::from(drive))?;
        if self.count_failing(what).max(1) > there.saturating_sub(FEWEST_DRIVES) {
            return None;
        }
        fs::rename(rt, *name, *lost).ok()?;
        Some(drive)
    }
}

impl Disks for DriveFiles {
    ghost model = { λ _ _. gone };

    ghost known = { λ _. ⊥ };

    fn read(&mut self, drive: u8, sector: u64) -> Option<[u8; 512]> {
        self.ask(
            drive,
            Failure::Read(sector),
            |file| read_sector(file, sector),
        )
    }

    fn write(&mut self, drive: u8, sector: u64, bytes: &[u8; 512]) {
        self.ask(drive, Failure::Write(sector), |file| {
            write_sector(file, sector, bytes)
        });
    }

    fn sync(&mut self, drive: u8) {
        self.ask(drive, Failure::Sync, |file| file.sync_all());
    }
}
