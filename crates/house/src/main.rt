// The house: reads commands from standard input, and answers each with one line, over six drive files in the current folder.
#![tactic(auto)]

mod desk;
mod files;

use console::{Input, Text, TextLine, understand};
use desk::{Desk, Trouble};
use std::fs::File;
use std::io;
use std::io::{BufReader, Write};
use std::rt::Files;
use whole::LONGEST;

const HELP: &str =
    "help: in HEX (a line of bytes) | time MS | mend (one stretch) | status | help\n";

// Does what one line of text says.
fn obey(
    rt: &(impl Files<File = File> + Eprint),
    desk: &mut Desk,
    text: &[u8],
    line: &mut [u8],
    out: &mut Vec<u8>,
) -> Result<(), Trouble> {
    match understand(text, line) {
        Input::Nothing => {}
        Input::Line(n) => desk.call(rt, &line[..n], out)?,
        Input::Tells(ms) => desk.tell(rt, ms, out)?,
        Input::Mends => desk.mend(rt, out)?,
        Input::Asks => desk.status(rt, out)?,
        Input::Helps => out.write_all(HELP.as_bytes())?,
    }
    Ok(())
}

fn main(rt: HostRuntime) -> io::Result<()> {
    let heap = rt.alloc();
    let mut input = BufReader::new(heap, rt.stdin())?;
    let mut text = TextLine::new(heap);
    let mut line = vec![in heap; 0u8; LONGEST + 1]?;
    let mut out = Vec::new(heap);
    let mut desk = Desk::new(LONGEST);
    for _ in 0..u64::MAX {
        out.clear();
        let text = match text.read(&mut input)? {
            Text::End => break,
            // as the house answers any text that is no command
            Text::TooLong(_) => b"?".as_slice(),
            Text::Line(text) => text,
        };
        match obey(&rt, &mut desk, text, &mut line, &mut out) {
            Ok(()) => {}
            Err(Trouble::Io(error)) => return Err(error),
            Err(trouble) => writeln!(out, "{trouble}")?,
        }
        rt.stdout().write_all(&out)?;
    }
    Ok(())
}
