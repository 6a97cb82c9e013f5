// Plays scripts on drives in memory, over the machine and the loop of the real program.
#![tactic(auto)]

mod rehearsal;
mod words;

use console::{Text, TextLine};
use rehearsal::Rehearsal;
use simdrives::SimDrives;
use std::fs::File;
use std::io::{BufRead, BufReader};
use std::{env, io};
use whole::LONGEST;

// Each line of a script is answered before the next is read.
fn play_on<R: BufRead>(
    rt: &(impl Print + AllocGlobal),
    rehearsal: &mut Rehearsal,
    script: &mut R,
) -> io::Result<()> {
    let heap = rt.alloc();
    let mut text = TextLine::new(heap);
    let mut out = Vec::new(heap);
    for _ in 0..u64::MAX {
        out.clear();
        match text.read(script)? {
            Text::End => break,
            Text::TooLong(_) => rehearsal.answer(b"?", &mut out)?,
            Text::Line(text) => rehearsal.answer(text, &mut out)?,
        }
        rt.write_all(&out)?;
        rehearsal.check_memory()?;
    }
    Ok(())
}

// Plays a script on fresh drives.
fn play<R: BufRead>(rt: &(impl Print + AllocGlobal), script: &mut R) -> io::Result<()> {
    let heap = rt.alloc();
    let line = vec![in heap; 0u8; LONGEST + 1]?;
    let answer = vec![in heap; 0u8; LONGEST + 1]?;
    let mut rehearsal = Rehearsal::new(SimDrives::new(heap), line, answer);
    play_on(rt, &mut rehearsal, script)
}

fn main(rt: HostRuntime) -> io::Result<()> {
    let mut names = env::args(&rt)?.skip(1).peekable();
    if names.peek().is_none() {
        play(&rt, &mut BufReader::new(rt.alloc(), rt.stdin())?)?;
    }
    for name in names {
        println!(rt; "script {name}")?;
        play(
            &rt,
            &mut BufReader::new(rt.alloc(), File::open(&rt, &name)?)?,
        )?;
    }
    Ok(())
}
