// Lines of text from a reader, within a bounded memory.
ghost use Rattle.std.specs.Prelude.{◌≡◌, ◌+◌, ◌≤◌, ◌↔◌, length, IfOk, IsTrue, vec_len};

use std::alloc::Global;
use std::io;
use std::io::{BufRead, ErrorKind};
use std::ops::ControlFlow;

// The longest line of text that is kept, in bytes, with what ends it. A longer one is passed over.
const LONGEST: usize = 16_777_216;

// What was read: a line with what ends it, the beginning of one that was too long to keep, or the end of the input.
#[derive(Clone, Copy, PartialEq, Eq)]
pub enum Text<'a> {
    Line(&'a [u8]),
    TooLong(&'a [u8]),
    End,
}

// Why no more of a line is kept.
#[derive(Clone, Copy, PartialEq, Eq)]
enum Stop {
    LineEnd,
    InputEnd,
    NoRoom,
}

// The line that is being read. Its memory is bounded, whatever the input holds.
#[derive(Drop)]
pub struct TextLine {
    text: Vec<u8>,
    ghost bounded: { vec_len text ≤ 16777216 },
}

// How many bytes stand up to the end of the line, with it, or all of them.
fn through_end(bytes: &[u8]) -> usize
    ensures { result ≤ length bytes.now }
{
    match bytes.iter().position(|b| *b == b'\n') {
        Some(i) => i + 1,
        None => bytes.len(),
    }
}

impl TextLine {
    ghost use Rattle.std.specs.Borrow.{sem};
    ghost use Rattle.std.specs.Io.BufRead.{Rests};
    ghost use Rattle.console.specs.contracts.reading.TextLine.{the_row};
    ghost use Rattle.console.specs.Reading.{Holds, is_too_long, no_room};

    pub fn new(heap: Global) -> TextLine
        ensures { vec_len result.text ≡ 0 }
    {
        TextLine {
            text: Vec::new(heap),
        }
    }

    // What is kept, also where nothing was read yet, or the reader failed.
    pub fn text(&self) -> &[u8]
        ensures { result.now ≡ self.now.text.items }
    {
        self.text.as_slice()
    }

    // Whether so many bytes more can be kept.
    fn has_room(&self, n: usize) -> bool
        ensures { IsTrue result ↔ (vec_len self.now.text + n ≤ 16777216) }
    {
        n <= LONGEST - self.text.len()
    }

    // Keeps what the reader has at hand of the line.
    fn keep_part<R: BufRead>(&mut self, from: &mut R) -> io::Result<ControlFlow<Stop>> {
        let held = match from.fill_buf() {
            Ok(held) => held,
            Err(e) if e.kind() == ErrorKind::Interrupted => return Ok(ControlFlow::Continue(())),
            Err(e) => return Err(e),
        };
        if held.is_empty() {
            return Ok(ControlFlow::Break(Stop::InputEnd));
        }
        let n = through_end(held);
        if !self.has_room(n) {
            return Ok(ControlFlow::Break(Stop::NoRoom));
        }
        let part = &held[..n];
        let ended = part.ends_with(b"\n");
        self.text.extend_from_slice(part)?;
        from.consume(n);
        Ok(if ended {
            ControlFlow::Break(Stop::LineEnd)
        } else {
            ControlFlow::Continue(())
        })
    }

    // Keeps the next line, in the place of the last one.
    fn keep_line<R: BufRead>(&mut self, from: &mut R) -> io::Result<Stop> {
        self.text.clear();
        for _ in 0..u64::MAX {
            if let ControlFlow::Break(stop) = self.keep_part(from)? {
                return Ok(stop);
            }
        }
        Ok(Stop::InputEnd)
    }

    // What was kept, by why it is no more.
    fn kept(&self, stop: Stop) -> Text<'_>
        ensures holds { Holds result self.now }
        ensures told { is_too_long result ≡ no_room stop }
    {
        match stop {
            Stop::InputEnd if self.text.is_empty() => Text::End,
            Stop::LineEnd | Stop::InputEnd => Text::Line(&self.text),
            Stop::NoRoom => Text::TooLong(&self.text),
        }
    }

    // Reads the next line.
    pub fn read<R: BufRead>(&mut self, from: &mut R) -> io::Result<Text<'_>>
        ensures* after { sem 𝓛 (Rests the_row self.entry (λ new. IfOk result (λ t. Holds t new))) }
    {
        let stop = self.keep_line(from)?;
        if stop == Stop::NoRoom {
            from.skip_until(b'\n')?;
        }
        Ok(self.kept(stop))
    }
}
