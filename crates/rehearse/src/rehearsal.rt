// The house on drives in memory, and what is done to both. The machine is the very one that the house runs on files.
use front::House;
use labels::{FEWEST_SECTORS, MOST_SECTORS};
use recorder::Recorder;
use script::{Chosen, Weak};
use simdrives::{Choice, Counts, NotGone, Power, SimDrives};
use std::alloc::AllocError;
use std::{fmt, io};
use steps::machines::Stepper;
use whole::{LONGEST, answer_line, closed_house};

// The longest line that a house hears, unless it is told otherwise.
const LONGEST_AT_FIRST: usize = 1_048_576;

#[derive(Drop)]
pub struct Rehearsal {
    pub disks: SimDrives,
    pub weak: Weak,
    // sectors of each drive
    pub size: u64,
    // what the last command that asked the drives for something asked for, once there was one
    pub asked: Option<Counts>,
    house: House<Recorder>,
    longest: usize,
    // whether the house was opened since the power last failed; a flag and no Option, as each use after it came up would test for a None that can't be
    open: bool,
    chosen: Chosen,
    // room for a line of bytes, one byte more than any that is taken, and for the answer
    pub line: Vec<u8>,
    answer: Vec<u8>,
}

// Why a command was not done.
#[derive(Debug, Drop)]
pub enum Trouble {
    // the power failed meanwhile, or memory for the drives did
    Cut,
    Begun,
    OutOfRange,
    TwoWeak,
    NotGone(NotGone),
    Io(io::Error),
}

impl fmt::Display for Trouble {
    fn fmt<W: fmt::Write>(&self, f: &mut fmt::Formatter<W>) -> fmt::Result {
        match self {
            Trouble::Cut => f.write_str("cut"),
            Trouble::Begun => f.write_str("refused: the drives were asked for something before"),
            Trouble::OutOfRange => f.write_str("refused: the number is out of range"),
            Trouble::TwoWeak => f.write_str("refused: two other drives are weak"),
            Trouble::NotGone(error) => write!(f, "refused: {error}"),
            Trouble::Io(error) => write!(f, "{error}"),
        }
    }
}

impl From<NotGone> for Trouble {
    fn from(error: NotGone) -> Trouble {
        Trouble::NotGone(error)
    }
}

// Each program has troubles of its own: alike are only `Cut`, `Io` and these two conversions.
impl From<io::Error> for Trouble {
    fn from(error: io::Error) -> Trouble {
        Trouble::Io(error)
    }
}

impl From<AllocError> for Trouble {
    fn from(error: AllocError) -> Trouble {
        Trouble::Io(error.into())
    }
}

// No `From`: both types are of other crates, and neither of these needs the other.
fn choice_of(chosen: Chosen) -> Choice {
    match chosen {
        Chosen::Seed(0) => Choice::Old,
        Chosen::Seed(1) => Choice::Newest,
        Chosen::Seed(seed) => Choice::Seed(seed),
        Chosen::Bits(bits) => Choice::Bits(bits),
    }
}

// The number of a drive.
fn drive_of(number: u64) -> Result<usize, Trouble> {
    if number < 6 {
        Ok(number as usize)
    } else {
        Err(Trouble::OutOfRange)
    }
}

impl Rehearsal {
    pub fn new(disks: SimDrives, line: Vec<u8>, answer: Vec<u8>) -> Rehearsal {
        Rehearsal {
            disks,
            weak: Weak::none(),
            size: FEWEST_SECTORS,
            asked: None,
            house: closed_house(LONGEST_AT_FIRST),
            longest: LONGEST_AT_FIRST,
            open: false,
            chosen: Chosen::Seed(0),
            line,
            answer,
        }
    }

    pub fn set_size(&mut self, size: u64) -> Result<(), Trouble> {
        if self.asked.is_some() {
            return Err(Trouble::Begun);
        }
        if !(FEWEST_SECTORS..=MOST_SECTORS).contains(&size) {
            return Err(Trouble::OutOfRange);
        }
        self.size = size;
        self.open = false;
        Ok(())
    }

    pub fn set_longest(&mut self, longest: u64) -> Result<(), Trouble> {
        if self.asked.is_some() {
            return Err(Trouble::Begun);
        }
        if longest > LONGEST as u64 {
            return Err(Trouble::OutOfRange);
        }
        self.longest = longest as usize;
        self.shut();
        Ok(())
    }

    pub fn lose(&mut self, number: u64) -> Result<(), Trouble> {
        let drive = drive_of(number)?;
        if !self.weak.may_lose(drive) {
            return Err(Trouble::TwoWeak);
        }
        self.weak.lost(drive);
        self.disks.lose(drive);
        Ok(())
    }

    pub fn replace(&mut self, number: u64) -> Result<(), Trouble> {
        self.disks.replace(drive_of(number)?)?;
        Ok(())
    }

    // The house forgets what it had in memory.
    fn shut(&mut self) {
        self.house.shut(Recorder::new(), self.longest);
        self.open = false;
    }

    // The power fails after that many more are asked.
    pub fn cut_after(&mut self, askings: u64, chosen: Chosen) -> Result<(), Trouble> {
        self.chosen = chosen;
        if askings == 0 {
            self.cut();
            return Err(Trouble::Cut);
        }
        self.disks.fail_after(askings);
        Ok(())
    }

    fn cut(&mut self) {
        self.disks.cut(choice_of(self.chosen));
        self.shut();
    }

    // Before a command that may ask for something: the house is opened, unless it is.
    fn come_up(&mut self) -> Result<(), Trouble> {
        self.disks.count_anew();
        if !self.open {
            self.house.open(&mut self.disks, self.size);
            self.open = self.disks.is_on();
            self.stay_up()?;
        }
        Ok(())
    }

    // After something may have been asked for: unless the power is still on, the house went down.
    fn stay_up(&mut self) -> Result<(), Trouble> {
        let counts = self.disks.counts();
        let is_on = self.disks.is_on();
        if !is_on || counts != Counts::default() {
            self.asked = Some(counts);
        }
        if is_on {
            return Ok(());
        }
        if self.disks.power() != Power::NoMemory {
            self.cut();
        }
        Err(Trouble::Cut)
    }

    // Calls the house with the first bytes of the line, and gives its answer.
    pub fn call(&mut self, length: usize) -> Result<&[u8], Trouble> {
        self.come_up()?;
        let line = self.line.as_slice();
        let line = line.get(..length).unwrap_or(line);
        let n = answer_line(&mut self.house, &mut self.disks, line, &mut self.answer).unwrap_or(0);
        self.stay_up()?;
        let answer = self.answer.as_slice();
        Ok(answer.get(..n).unwrap_or(answer))
    }

    // Does one stretch of mending; says whether all is whole.
    pub fn mend(&mut self) -> Result<bool, Trouble> {
        self.come_up()?;
        let whole = self.house.mend(&mut self.disks);
        self.stay_up()?;
        if whole {
            self.weak.whole(&self.disks.gone());
        }
        Ok(whole)
    }

    // Mends until all is whole; says how many stretches that took.
    pub fn mend_whole(&mut self) -> Result<u64, Trouble> {
        for k in 1..u64::MAX {
            if self.mend()? {
                return Ok(k);
            }
        }
        Ok(u64::MAX)
    }

    pub fn is_open(&self) -> bool {
        self.open
    }

    // Without memory for the drives the rehearsal ends.
    pub fn check_memory(&self) -> io::Result<()> {
        if self.disks.power() == Power::NoMemory {
            return Err(io::Error::from(AllocError));
        }
        Ok(())
    }
}
