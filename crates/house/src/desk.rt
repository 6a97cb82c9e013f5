// What the house does for each command: it looks at its bays, comes up if it isn't, and answers.
use crate::files::{DriveFiles, FEWEST_DRIVES};
use asks::write_time;
use bays::{Drive, Drives};
use console::push_hex;
use front::House;
use recorder::Recorder;
use std::alloc::AllocError;
use std::fs::File;
use std::io::Write;
use std::rt::Files;
use std::{fmt, io};
use steps::machines::Stepper;
use whole::{answer_line, closed_house};

#[derive(Drop)]
pub struct Desk {
    house: House<Recorder>,
    drives: Drives,
    files: DriveFiles,
    // the house is up: it was opened, and no power failed since. A flag and no Option of the house: each use after it came up would test for a None that
    // can't be, and a house that is down still has to know what it hears
    up: bool,
}

// Why the house does not answer.
#[derive(Debug, Drop)]
pub enum Trouble {
    // only so many drives are there
    Closed(usize),
    // a drive failed meanwhile
    Cut,
    Io(io::Error),
}

impl fmt::Display for Trouble {
    fn fmt<W: fmt::Write>(&self, f: &mut fmt::Formatter<W>) -> fmt::Result {
        match self {
            Trouble::Closed(there) => write!(f, "closed {there}"),
            Trouble::Cut => f.write_str("cut"),
            Trouble::Io(error) => write!(f, "{error}"),
        }
    }
}

impl From<io::Error> for Trouble {
    fn from(error: io::Error) -> Trouble {
        Trouble::Io(error)
    }
}

impl From<AllocError> for Trouble {
    fn from(error: AllocError) -> Trouble {
        Trouble::Io(error.into())
    }
}

// What a command prints goes into `out`, which is written at once: a desk that held both would borrow them for good.
impl Desk {
    pub fn new(longest: usize) -> Desk {
        Desk {
            house: closed_house(longest),
            drives: Drives::new(),
            files: DriveFiles::none(),
            up: false,
        }
    }

    // Opens the files anew: a drive may have been removed or replaced since the last command.
    fn look(&mut self, rt: &(impl Files<File = File> + Eprint)) {
        let seen = self.files.open_all(rt);
        let before = self.drives.states();
        self.drives.look(&seen);
        for (i, (now, was)) in self.drives.states().into_iter().zip(before).enumerate() {
            let odd = matches!(now, Drive::Odd | Drive::Foreign | Drive::Stale);
            if odd && now != was {
                let _ = eprintln!(rt; "drive{i} is {now}: it is left alone");
            }
        }
        self.files.keep(&self.drives);
    }

    // Looks, and comes up if need be.
    fn come_up(&mut self, rt: &(impl Files<File = File> + Eprint)) -> Result<(), Trouble> {
        self.look(rt);
        let there = self.drives.count_there();
        if there < FEWEST_DRIVES {
            return Err(Trouble::Closed(there));
        }
        if !self.up {
            // with four drives there a length is known
            let sectors = self.drives.sectors.unwrap_or(0);
            self.house.open(&mut self.files, sectors);
            self.up = true;
            self.stay_up(rt)?;
        }
        Ok(())
    }

    // Whether the power is still on. If a drive failed, that was a power cut, and the drive is lost.
    fn stay_up(&mut self, rt: &(impl Files + Eprint)) -> Result<(), Trouble> {
        if !self.files.is_off() {
            return Ok(());
        }
        self.up = false;
        // nobody may be reading the messages, and the house goes on all the same
        let _ = match self.files.put_away(rt, self.drives.count_there()) {
            Some(i) => eprintln!(rt;
                "drive{i} failed: it is lost, and its file is now drive{i}.lost"
            ),
            None => eprintln!(rt;
                "a drive failed, and none is taken for lost: too many fail, or its file can't be put away"
            ),
        };
        Err(Trouble::Cut)
    }

    pub fn call(
        &mut self,
        rt: &(impl Files<File = File> + Eprint),
        line: &[u8],
        out: &mut Vec<u8>,
    ) -> Result<(), Trouble> {
        self.come_up(rt)?;
        let mut answer = [0u8; 64];
        // an answer that there is no room for counts as none
        let n = answer_line(&mut self.house, &mut self.files, line, &mut answer).unwrap_or(0);
        self.stay_up(rt)?;
        write!(out, "out ")?;
        push_hex(out, answer.get(..n).unwrap_or(&answer))?;
        writeln!(out)?;
        Ok(())
    }

    // Tells the time, as a line with tag 0 would.
    pub fn tell(
        &mut self,
        rt: &(impl Files<File = File> + Eprint),
        ms: u64,
        out: &mut Vec<u8>,
    ) -> Result<(), Trouble> {
        // room enough for the line
        let mut line = [0u8; 32];
        let n = write_time(0, ms, &mut line).unwrap_or(0);
        self.call(rt, &line[..n], out)
    }

    pub fn mend(
        &mut self,
        rt: &(impl Files<File = File> + Eprint),
        out: &mut Vec<u8>,
    ) -> Result<(), Trouble> {
        self.come_up(rt)?;
        let whole = self.house.mend(&mut self.files);
        self.stay_up(rt)?;
        let how = if whole { "whole" } else { "working" };
        writeln!(out, "{how}")?;
        Ok(())
    }

    pub fn status(
        &mut self,
        rt: &(impl Files<File = File> + Eprint),
        out: &mut Vec<u8>,
    ) -> io::Result<()> {
        self.look(rt);
        // 0 is shown while no length is known
        let sectors = self.drives.sectors.unwrap_or(0);
        write!(out, "status: {sectors} sectors")?;
        for (i, state) in self.drives.states().iter().enumerate() {
            write!(out, ", drive{i} {state}")?;
        }
        writeln!(out)
    }
}
