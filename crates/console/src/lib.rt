// What a person or a program types: lines of text to commands, hexadecimal both ways.
#![tactic(auto)]

ghost use Rattle.std.specs.Prelude.{◌≡◌, ℕ, List, length};
ghost use Rattle.console.specs.Commands.{said_of, said_with_digits, says, Trims, Means, IsWithin};

mod digits;
mod reading;

use digits::unhex;
pub use digits::{number, push_hex};
pub use reading::{Text, TextLine};

// What a line of text says; the digits that follow a word are parts of it.
#[derive(Clone, Copy)]
pub enum Command<'a> {
    Blank,
    Hex(&'a [u8]),
    Time(&'a [u8]),
    Mend,
    Status,
    Help,
    Other,
}

// What a line of text comes to: a line of bytes of that length at the front of the buffer, or a time, or another command.
// It is the length and not that part of the buffer: a clause on the rest of a slice that the result borrows gets no proof, though one on a struct does (`TextLine::read`).
#[derive(Clone, Copy)]
pub enum Input {
    Nothing,
    Line(usize),
    Tells(u64),
    Mends,
    Asks,
    Helps,
}

// A word with what follows it.
fn with_digits(text: &[u8]) -> Command<'_>
    ensures { says result ≡ said_with_digits text.now }
{
    if let Some(digits) = text.strip_prefix(b"in ") {
        Command::Hex(digits)
    } else if let Some(digits) = text.strip_prefix(b"time ") {
        Command::Time(digits)
    } else {
        Command::Other
    }
}

fn read_command(text: &[u8]) -> Command<'_>
    ensures { says result ≡ said_of text.now }
{
    // By `==`: a `match` on words is proved byte by byte, each case by a name of its own.
    if text.is_empty() {
        Command::Blank
    } else if text == b"mend".as_slice() {
        Command::Mend
    } else if text == b"status".as_slice() {
        Command::Status
    } else if text == b"help".as_slice() {
        Command::Help
    } else if text == b"in".as_slice() {
        Command::Hex(b"")
    } else {
        with_digits(text)
    }
}

// What a line of text comes to. A line of bytes is laid at the front of `line`, as far as there is room.
pub fn understand(text: &[u8], line: &mut [u8]) -> Input
    ensures value { (t : List ℕ) × Trims text.now t × Means (said_of t) line.old line.new result }
    ensures within { IsWithin result (length line.new) }
{
    match read_command(text.trim_ascii_end()) {
        Command::Blank => Input::Nothing,
        Command::Hex(digits) => Input::Line(unhex(digits, line)),
        // text that is no number tells a time out of range, which is refused
        Command::Time(digits) => Input::Tells(number(digits).unwrap_or(u64::MAX)),
        Command::Mend => Input::Mends,
        Command::Status => Input::Asks,
        Command::Help => Input::Helps,
        Command::Other => Input::Line(0),
    }
}
