// Reads lines of bytes in hexadecimal, and says of each whether it is a call, and whether it is an answer, by the proved readers; each is written again and compared.
#![tactic(auto)]

use answers::{read_answer, write_answer};
use asks::write_call;
use console::{Input, Text, TextLine, understand};
use lines::calls::read_call;
use lines::order::{kind_of, tag_of};
use std::io::BufReader;
use std::{fmt, io};

// What came of reading a line one way.
#[derive(Clone, Copy)]
enum Read {
    None,
    Same,
    Other,
}

impl fmt::Display for Read {
    fn fmt<W: fmt::Write>(&self, f: &mut fmt::Formatter<W>) -> fmt::Result {
        f.write_str(match self {
            Read::None => "no",
            Read::Same => "yes",
            Read::Other => "yes, but written otherwise",
        })
    }
}

// A line and the buffer that it is written to again go side by side: a struct of the two would be made and taken apart at once.
fn compare(line: &[u8], written: Option<usize>, again: &[u8]) -> Read {
    match written {
        Some(n) if again.get(..n) == Some(line) => Read::Same,
        _ => Read::Other,
    }
}

fn as_call(line: &[u8], again: &mut [u8]) -> Read {
    let Some(call) = read_call(line) else {
        return Read::None;
    };
    let written = write_call(tag_of(line), call, again);
    compare(line, written, again)
}

fn as_answer(line: &[u8], again: &mut [u8]) -> Read {
    let Some((tag, answer)) = read_answer(line) else {
        return Read::None;
    };
    let written = write_answer(tag, answer, again);
    compare(line, written, again)
}

fn say(rt: &impl Print, line: &[u8], again: &mut [u8]) -> io::Result<()> {
    let call = as_call(line, again);
    let answer = as_answer(line, again);
    // a line too short to have a kind is shown with 255
    let kind = kind_of(line).unwrap_or(255);
    println!(rt; "kind {kind}: call {call}, answer {answer}")
}

fn main(rt: HostRuntime) -> io::Result<()> {
    let heap = rt.alloc();
    let mut input = BufReader::new(heap, rt.stdin())?;
    let mut text = TextLine::new(heap);
    let mut line = vec![in heap; 0u8; 4096]?;
    let mut again = vec![in heap; 0u8; 4096]?;
    for _ in 0..u64::MAX {
        let text = match text.read(&mut input)? {
            Text::Line(text) | Text::TooLong(text) => text,
            Text::End => break,
        };
        if let Input::Line(n) = understand(text, &mut line) {
            say(&rt, &line[..n], &mut again)?;
        }
    }
    Ok(())
}
