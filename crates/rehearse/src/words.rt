// Lines of text to commands, and what comes of them to lines of text.
use crate::rehearsal::{Rehearsal, Trouble};
use asks::write_time;
use console::{Input, push_hex, understand};
use script::{Order, read_order};
use std::io::Write;
use std::{fmt, io};

const HELP: &str =
    "help: drives N, longest N, in HEX, time T, mend, mend whole, status, lose I, replace I, asked, cut N SEED, cut N bits B\n";

// The numbers of the drives that a test holds of.
#[derive(Clone, Copy)]
struct Those([bool; 6]);

impl fmt::Display for Those {
    fn fmt<W: fmt::Write>(&self, f: &mut fmt::Formatter<W>) -> fmt::Result {
        if !self.0.contains(&true) {
            return f.write_str(" none");
        }
        for (i, holds) in self.0.iter().enumerate() {
            if *holds {
                write!(f, " {i}")?;
            }
        }
        Ok(())
    }
}

impl Rehearsal {
    // Calls the house with a line of that length.
    fn say_call(&mut self, length: usize, out: &mut Vec<u8>) -> Result<(), Trouble> {
        let answer = self.call(length)?;
        write!(out, "out ")?;
        push_hex(out, answer)?;
        writeln!(out)?;
        Ok(())
    }

    // Tells the time, as a line with tag 0 would.
    fn say_time(&mut self, ms: u64, out: &mut Vec<u8>) -> Result<(), Trouble> {
        let n = write_time(0, ms, &mut self.line).unwrap_or(0);
        self.say_call(n, out)
    }

    fn say_mend(&mut self, out: &mut Vec<u8>) -> Result<(), Trouble> {
        let how = if self.mend()? { "whole" } else { "working" };
        writeln!(out, "{how}")?;
        Ok(())
    }

    fn say_mend_whole(&mut self, out: &mut Vec<u8>) -> Result<(), Trouble> {
        let stretches = self.mend_whole()?;
        writeln!(out, "whole {stretches}")?;
        Ok(())
    }

    fn say_asked(&self, out: &mut Vec<u8>) -> io::Result<()> {
        let asked = self.asked.unwrap_or_default();
        writeln!(
            out,
            "asked {} {} {}",
            asked.reads, asked.writes, asked.syncs
        )
    }

    fn say_status(&self, out: &mut Vec<u8>) -> io::Result<()> {
        let size = self.size;
        let gone = Those(self.disks.gone());
        let weak = Those(self.weak.drives);
        let how = if self.is_open() { "open" } else { "shut" };
        writeln!(
            out,
            "status: six drives of {size} sectors; gone:{gone}; weak:{weak}; the house is {how}"
        )
    }

    // What both programs are told.
    fn answer_input(&mut self, input: Input, out: &mut Vec<u8>) -> Result<(), Trouble> {
        match input {
            Input::Nothing => {}
            Input::Line(n) => self.say_call(n, out)?,
            Input::Tells(ms) => self.say_time(ms, out)?,
            Input::Mends => self.say_mend(out)?,
            Input::Asks => self.say_status(out)?,
            Input::Helps => out.write_all(HELP.as_bytes())?,
        }
        Ok(())
    }

    fn obey(&mut self, text: &[u8], out: &mut Vec<u8>) -> Result<(), Trouble> {
        let Some(order) = read_order(text) else {
            let input = understand(text, &mut self.line);
            return self.answer_input(input, out);
        };
        match order {
            Order::Drives(n) => self.set_size(n)?,
            Order::Longest(n) => self.set_longest(n)?,
            Order::MendWhole => self.say_mend_whole(out)?,
            Order::Lose(i) => self.lose(i)?,
            Order::Replace(i) => self.replace(i)?,
            Order::Asked => self.say_asked(out)?,
            Order::Cut { after, chosen } => self.cut_after(after, chosen)?,
        }
        Ok(())
    }

    // Answers a line of text after what `out` holds.
    pub fn answer(&mut self, text: &[u8], out: &mut Vec<u8>) -> io::Result<()> {
        match self.obey(text, out) {
            Ok(()) => Ok(()),
            Err(Trouble::Io(error)) => Err(error),
            Err(trouble) => writeln!(out, "{trouble}"),
        }
    }
}
