// The six bays of a house: which files count as drives, and how each drive stands.
#![tactic(auto)]

ghost use Rattle.std.specs.Prelude.{◌≡◌, if◌then◌else◌, nat_lt, slice_index_or, count_by};
ghost use Rattle.bays.specs.Bays.{label_of, fits, votes, better, elected, admitted, Admits, is_there, settled, unseen};

use labels::{FEWEST_SECTORS, MOST_SECTORS, SECTOR_BYTES};
use std::{array, fmt};

// What the label of a file shows.
#[derive(Clone, Copy, PartialEq, Eq)]
pub enum Label {
    Blank,
    Mark,
    Record,
    Foreign,
}

impl From<labels::Label> for Label {
    ghost from_gives = { λ shown label. label ≡ label_of shown };

    fn from(shown: labels::Label) -> Label {
        match shown {
            labels::Label::Blank => Label::Blank,
            labels::Label::Rebuilding => Label::Mark,
            labels::Label::Empty | labels::Label::Committed(_) => Label::Record,
            labels::Label::Missing | labels::Label::Foreign => Label::Foreign,
        }
    }
}

// A file that is found in a bay: of so many bytes, with a label.
#[derive(Clone, Copy, PartialEq, Eq)]
pub struct Found {
    pub bytes: u64,
    pub label: Label,
}

// How a drive stands. A drive that was away and came back with anything but a blank label is stale:
// what it holds may be old, so it stays out.
#[derive(Clone, Copy, PartialEq, Eq)]
pub enum Drive {
    // not looked at yet
    Unseen,
    Gone,
    // a file of another length than most
    Odd,
    Foreign,
    Stale,
    Blank,
    Rebuilding,
    Trusted,
}

// A length that a drive may have.
fn is_length(bytes: u64) -> bool
    ensures { result ≡ fits bytes }
{
    bytes % SECTOR_BYTES == 0 && (FEWEST_SECTORS..=MOST_SECTORS).contains(&(bytes / SECTOR_BYTES))
}

// How many files have that length.
#[tactic(auto, unfolding(crate::specs::Bays::votes))]
fn count_votes(seen: &[Option<Found>; 6], bytes: u64) -> usize
    ensures { result ≡ votes bytes seen.now }
{
    seen.iter()
        .filter(|s| s.is_some_and(|file| file.bytes == bytes))
        .count()
}

// How a drive stands now, after how it stood before. While no length is known, only an empty file is of the right one:
// the promise has it so.
pub fn admit(was: Drive, seen: Option<Found>, sectors: Option<u64>) -> Drive
    ensures { result ≡ admitted was seen sectors }
{
    let Some(Found { bytes, label }) = seen else {
        return Drive::Gone;
    };
    if bytes % SECTOR_BYTES != 0 || bytes / SECTOR_BYTES != sectors.unwrap_or(0) {
        return Drive::Odd;
    }
    let away = matches!(
        was,
        Drive::Gone | Drive::Odd | Drive::Foreign | Drive::Stale
    );
    match label {
        Label::Foreign => Drive::Foreign,
        Label::Blank => Drive::Blank,
        Label::Mark | Label::Record if away => Drive::Stale,
        Label::Mark => Drive::Rebuilding,
        Label::Record => Drive::Trusted,
    }
}

impl Drive {
    // May it be asked for sectors.
    pub fn is_there(self) -> bool
        ensures { result ≡ is_there self }
    {
        matches!(self, Drive::Blank | Drive::Rebuilding | Drive::Trusted)
    }
}

// What a drive is called in `status`.
impl fmt::Display for Drive {
    ghost use Rattle.std.specs.Prelude.{Some};
    ghost use Rattle.bays.specs.Bays.{called};

    ghost output = { λ drive. Some (called drive) };

    fn fmt<W: fmt::Write>(&self, f: &mut fmt::Formatter<W>) -> fmt::Result {
        f.write_str(match self {
            Drive::Unseen | Drive::Gone => "gone",
            Drive::Odd => "of another length",
            Drive::Foreign => "foreign",
            Drive::Stale => "stale (a drive comes back only blank)",
            Drive::Blank => "blank",
            Drive::Rebuilding => "rebuilding",
            Drive::Trusted => "trusted",
        })
    }
}

// The better of a file's length and the best so far: one that more files have.
// While there is none so far, it is compared with the length 0, so more files must have it than are empty.
fn better_length(all: &[Option<Found>; 6], seen: Option<Found>, best: Option<u64>) -> Option<u64>
    ensures { result ≡ better all.now best seen }
{
    match seen {
        Some(Found { bytes, .. })
            if is_length(bytes) && count_votes(all, best.unwrap_or(0)) < count_votes(all, bytes) =>
            { Some(bytes) }
        _ => best,
    }
}

// The length in sectors that most files have, if it is a drive's.
fn elect(seen: &[Option<Found>; 6]) -> Option<u64>
    ensures { result ≡ elected seen.now }
{
    seen.iter()
        .fold(None, |best, file| better_length(seen, *file, best))
        .map(|bytes| bytes / SECTOR_BYTES)
}

// The drives 0 to 5, as they stood when they were last looked at.
#[derive(Clone, Copy)]
pub struct Drives {
    at: [Drive; 6],
    // of each drive, once it is known
    pub sectors: Option<u64>,
}

impl Drives {
    pub fn new() -> Drives
        ensures { result ≡ unseen }
    {
        Drives {
            at: [Drive::Unseen; 6],
            sectors: None,
        }
    }

    // Drive `i`; there is none past the sixth.
    pub fn state(&self, i: usize) -> Drive
        ensures { result ≡ (if nat_lt i 6 then slice_index_or self.now.at i Drive.Unseen else Drive.Unseen) }
    {
        self.at.get(i).copied().unwrap_or(Drive::Unseen)
    }

    // How each of them stands.
    pub fn states(&self) -> [Drive; 6]
        ensures { result ≡ self.now.at }
    {
        let Drives { at, .. } = *self;
        at
    }

    // How many may be asked for sectors.
    pub fn count_there(&self) -> usize
        ensures { result ≡ count_by is_there self.now.at }
    {
        self.at.iter().filter(|d| d.is_there()).count()
    }

    // Looks at the bays. The length is settled once, and stays while the house works.
    pub fn look(&mut self, seen: &[Option<Found>; 6])
        ensures sectors { self.new.sectors ≡ settled self.old.sectors seen.now }
        ensures drives { Admits self.old.at self.new.at seen.now (settled self.old.sectors seen.now) }
    {
        if self.sectors.is_none() {
            self.sectors = elect(seen);
        }
        let Drives { at, sectors } = *self;
        self.at = array::from_fn(|i| admit(at[i], seen[i], sectors));
    }
}
