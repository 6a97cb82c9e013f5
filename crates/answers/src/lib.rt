// The answers on a line. Their bytes and entries are parts of a buffer: nothing is copied but to the line.
#![tactic(auto)]

ghost use Rattle.std.specs.Prelude.{◌≡◌, true, nat_le};
ghost use Rattle.fills.specs.Fills.{Added, Wrote};
ghost use Rattle.meaning.specs.Rooms.{Shown};
ghost use Rattle.lines.specs.Calls.{line_of};
ghost use Rattle.lines.specs.Kinds.{Decodes};
ghost use Rattle.lines.specs.Fits.{is_name};
ghost use Rattle.lines.specs.Replies.{answer_in, entry, entry_in, got_in, list_in, no_in, num_in, reply_bytes, reply_in};
ghost use Rattle.answers.specs.Kinds.{code_of};
ghost use Rattle.lines.specs.Turns.{reply_of};
ghost use Rattle.answers.specs.Says.{fits, said, saying, says, shows};

use Kind::{Full, Got, List, No, Number, Yes};
use fills::Field::{Content, Name, Plain, U8, U16, U64};
use fills::{append, write_line};
use lines::fields::{content_in, ended, head_in, name_in, number_in};
use lines::items::{Item, are_many};
use lines::kinds::Unknown;
use lines::order::Refusal;

// A key in a list, the number of its version, and how long that is.
#[derive(Clone, Copy)]
pub struct Entry<'a> {
    pub key: &'a [u8],
    pub number: u64,
    pub length: u64,
}

#[derive(Clone, Copy)]
pub enum Answer<'a> {
    No(Refusal),
    Yes,
    Number(u64),
    // some bytes of a version, and how long the whole is
    Got {
        number: u64,
        length: u64,
        bytes: &'a [u8],
    },
    // the entries as they stand on the line: Entry::first takes them off one by one; their count stands beside them as
    // it does on the line, since a type that keeps them so many would ask more of whoever makes an answer
    List {
        count: u16,
        entries: &'a [u8],
    },
    Full,
}

// What a call is answered that has nothing to tell but that it was done.
impl From<Result<(), Refusal>> for Answer<'static> {
    ghost from_gives = { λ said answer. says answer ≡ reply_of said × fits answer ≡ true };

    fn from(said: Result<(), Refusal>) -> Answer<'static> {
        match said {
            Ok(()) => Answer::Yes,
            Err(why) => Answer::No(why),
        }
    }
}

impl<'a> Item<'a> for Entry<'a> {
    ghost Meant = { Shown };

    ghost means = { shows };

    ghost reads = { entry_in };

    fn first(entries: &'a [u8]) -> Option<(Entry<'a>, &'a [u8])> {
        let (key, rest) = name_in(entries)?;
        let (number, rest) = number_in(rest)?;
        let (length, rest) = number_in(rest)?;
        Some((
            Entry {
                key,
                number,
                length,
            },
            rest,
        ))
    }
}

// The kinds of answers, by the bytes that stand for them.
#[derive(Clone, Copy, PartialEq, Eq)]
pub enum Kind {
    No = 0,
    Yes = 1,
    Number = 2,
    Got = 3,
    List = 4,
    Full = 5,
}

impl TryFrom<u8> for Kind {
    type Error = Unknown;

    ghost try_from_gives = { Decodes code_of (λ k. nat_le k 5) };

    fn try_from(code: u8) -> Result<Kind, Unknown> {
        match code {
            0 => Ok(Kind::No),
            1 => Ok(Kind::Yes),
            2 => Ok(Kind::Number),
            3 => Ok(Kind::Got),
            4 => Ok(Kind::List),
            5 => Ok(Kind::Full),
            _ => Err(Unknown(code)),
        }
    }
}

impl From<Kind> for u8 {
    ghost from_gives = { λ kind code. code ≡ code_of kind };

    fn from(kind: Kind) -> u8 {
        kind as u8
    }
}

// Writes an entry from `at` on and says where it ends, or leaves `out` alone.
pub fn put_entry(shown: Entry<'_>, at: usize, out: &mut [u8]) -> Option<usize>
    ensures { Added (is_name shown.entry.key.now) at (entry (shows shown.entry)) out.old result out.new }
{
    append(
        &[Name(shown.key), U64(shown.number), U64(shown.length)],
        at,
        out,
    )
}

fn no(fields: &[u8]) -> Option<Answer<'_>>
    ensures { saying result ≡ no_in fields.now }
{
    let (number, rest) = number_in::<u8>(fields)?;
    let refusal = Refusal::try_from(number).ok()?;
    ended(rest, Answer::No(refusal))
}

fn got(fields: &[u8]) -> Option<Answer<'_>>
    ensures { saying result ≡ got_in fields.now }
{
    let (number, rest) = number_in(fields)?;
    let (length, rest) = number_in(rest)?;
    let (bytes, rest) = content_in(rest)?;
    ended(
        rest,
        Answer::Got {
            number,
            length,
            bytes,
        },
    )
}

fn list(fields: &[u8]) -> Option<Answer<'_>>
    ensures { saying result ≡ list_in fields.now }
{
    let (count, entries) = number_in(fields)?;
    are_many::<Entry<'_>>(count, entries).then_some(Answer::List { count, entries })
}

fn number(fields: &[u8]) -> Option<Answer<'_>>
    ensures { saying result ≡ num_in fields.now }
{
    let (number, rest) = number_in(fields)?;
    ended(rest, Answer::Number(number))
}

fn answer_of(kind: u8, fields: &[u8]) -> Option<Answer<'_>>
    ensures { saying result ≡ reply_in kind fields.now }
{
    match Kind::try_from(kind).ok()? {
        Kind::No => no(fields),
        Kind::Yes => ended(fields, Answer::Yes),
        Kind::Number => number(fields),
        Kind::Got => got(fields),
        Kind::List => list(fields),
        Kind::Full => ended(fields, Answer::Full),
    }
}

// The tag and the answer, if the line is one to the last byte.
pub fn read_answer(line: &[u8]) -> Option<(u32, Answer<'_>)>
    ensures { said result ≡ answer_in line.now }
{
    let (head, fields) = head_in(line)?;
    let answer = answer_of(head.kind, fields)?;
    Some((head.tag, answer))
}

// Writes the answer to the front of `out` and says how long its line is, or leaves `out` alone: where there is
// too little room, or no line can hold it.
pub fn write_answer(tag: u32, answer: Answer<'_>, out: &mut [u8]) -> Option<usize>
    ensures { Wrote (fits answer.entry) (line_of tag (reply_bytes (says answer.entry))) out.old result out.new }
{
    match answer {
        Answer::No(refusal) => write_line(tag, &[U8(No as u8), U8(refusal.into())], out),
        Answer::Yes => write_line(tag, &[U8(Yes as u8)], out),
        Answer::Number(number) => write_line(tag, &[U8(Number as u8), U64(number)], out),
        Answer::Got {
            number,
            length,
            bytes,
        } => {
            let fields = [U8(Got as u8), U64(number), U64(length), Content(bytes)];
            write_line(tag, &fields, out)
        }
        Answer::List { count, entries } => {
            if !are_many::<Entry<'_>>(count, entries) {
                return None;
            }
            write_line(tag, &[U8(List as u8), U16(count), Plain(entries)], out)
        }
        Answer::Full => write_line(tag, &[U8(Full as u8)], out),
    }
}
