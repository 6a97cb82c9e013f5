// A call on a line. Its names, keys and bytes are parts of the line: nothing is copied.
ghost use Rattle.std.specs.Prelude.{◌≡◌};
ghost use Rattle.meaning.specs.Rooms as meaning;
ghost use Rattle.lines.specs.Calls.{abort_in, begin_in, call_in, complete_in, drop_room_in, expected_in, get_in, hold_in, look_in, make_room_in, part_in, put_in, remove_in, rule_in, rules_in, time_in, versions_in};
ghost use Rattle.lines.specs.Fields.{read_as};
ghost use Rattle.lines.specs.Means.{expects, meant, means, ruled};

use crate::fields::{content_in, ended, head_in, name_in, number_in};
use crate::items::{Item, are_many};
use crate::kinds::Kind;

// Which version a write expects to find.
#[derive(Clone, Copy)]
pub enum Expected {
    Any,
    Absent,
    Is(u64),
}

// What begins so goes after that many ms, an older version after that many since the next came; 0 for never, as the
// line and docs/MEANING.md have it.
#[derive(Clone, Copy)]
pub struct Rule<'a> {
    pub beginning: &'a [u8],
    pub lasts: u64,
    pub older_last: u64,
}

// To get or remove number 0 is to get or remove the latest version, as the line and docs/MEANING.md have it.
#[derive(Clone, Copy)]
pub enum Call<'a> {
    MakeRoom {
        name: &'a [u8],
        keeps: bool,
    },
    DropRoom {
        name: &'a [u8],
    },
    Put {
        room: &'a [u8],
        key: &'a [u8],
        expected: Expected,
        bytes: &'a [u8],
    },
    Get {
        room: &'a [u8],
        key: &'a [u8],
        number: u64,
        from: u64,
        most: u32,
    },
    Remove {
        room: &'a [u8],
        key: &'a [u8],
        number: u64,
    },
    Look {
        room: &'a [u8],
        beginning: &'a [u8],
        after: &'a [u8],
        most: u16,
    },
    Versions {
        room: &'a [u8],
        key: &'a [u8],
    },
    Begin {
        room: &'a [u8],
        key: &'a [u8],
    },
    Part {
        room: &'a [u8],
        upload: u64,
        place: u16,
        bytes: &'a [u8],
    },
    Complete {
        room: &'a [u8],
        upload: u64,
        expected: Expected,
    },
    Abort {
        room: &'a [u8],
        upload: u64,
    },
    Hold {
        room: &'a [u8],
        key: &'a [u8],
        number: u64,
        until: u64,
    },
    // The rules as they stand on the line: Rule::first takes them off one by one. Their count stands beside them as it
    // does on the line: a type that keeps them so many would ask more of whoever makes a call.
    Rules {
        room: &'a [u8],
        count: u8,
        rules: &'a [u8],
    },
    Time {
        ms: u64,
    },
}

// 0, 1 and 2 are the line's. Only this and the writer in crate fills name them: an enum for them would be turned into
// an Expected right away, and be no plainer.
fn expected_in(bytes: &[u8]) -> Option<(Expected, &[u8])>
    ensures { read_as expects result ≡ expected_in bytes.now }
{
    let (kind, rest) = number_in::<u8>(bytes)?;
    match kind {
        0 => Some((Expected::Any, rest)),
        1 => Some((Expected::Absent, rest)),
        2 => {
            let (number, rest) = number_in(rest)?;
            Some((Expected::Is(number), rest))
        }
        _ => None,
    }
}

// A reader for each kind names its fields in the order of docs/MEANING.md; shared parts would only hide that order.
fn make_room(fields: &[u8]) -> Option<Call<'_>>
    ensures { meant result ≡ make_room_in fields.now }
{
    let (name, rest) = name_in(fields)?;
    let (flag, rest) = number_in::<u8>(rest)?;
    // 0 and 1 are the line's, and this is their only reader
    let keeps = match flag {
        0 => false,
        1 => true,
        _ => return None,
    };
    ended(rest, Call::MakeRoom { name, keeps })
}

fn drop_room(fields: &[u8]) -> Option<Call<'_>>
    ensures { meant result ≡ drop_room_in fields.now }
{
    let (name, rest) = name_in(fields)?;
    ended(rest, Call::DropRoom { name })
}

fn put(fields: &[u8]) -> Option<Call<'_>>
    ensures { meant result ≡ put_in fields.now }
{
    let (room, rest) = name_in(fields)?;
    let (key, rest) = name_in(rest)?;
    let (expected, rest) = expected_in(rest)?;
    let (bytes, rest) = content_in(rest)?;
    ended(
        rest,
        Call::Put {
            room,
            key,
            expected,
            bytes,
        },
    )
}

fn get(fields: &[u8]) -> Option<Call<'_>>
    ensures { meant result ≡ get_in fields.now }
{
    let (room, rest) = name_in(fields)?;
    let (key, rest) = name_in(rest)?;
    let (number, rest) = number_in(rest)?;
    let (from, rest) = number_in(rest)?;
    let (most, rest) = number_in(rest)?;
    ended(
        rest,
        Call::Get {
            room,
            key,
            number,
            from,
            most,
        },
    )
}

fn remove(fields: &[u8]) -> Option<Call<'_>>
    ensures { meant result ≡ remove_in fields.now }
{
    let (room, rest) = name_in(fields)?;
    let (key, rest) = name_in(rest)?;
    let (number, rest) = number_in(rest)?;
    ended(rest, Call::Remove { room, key, number })
}

fn look(fields: &[u8]) -> Option<Call<'_>>
    ensures { meant result ≡ look_in fields.now }
{
    let (room, rest) = name_in(fields)?;
    let (beginning, rest) = name_in(rest)?;
    let (after, rest) = name_in(rest)?;
    let (most, rest) = number_in(rest)?;
    ended(
        rest,
        Call::Look {
            room,
            beginning,
            after,
            most,
        },
    )
}

fn versions(fields: &[u8]) -> Option<Call<'_>>
    ensures { meant result ≡ versions_in fields.now }
{
    let (room, rest) = name_in(fields)?;
    let (key, rest) = name_in(rest)?;
    ended(rest, Call::Versions { room, key })
}

fn begin(fields: &[u8]) -> Option<Call<'_>>
    ensures { meant result ≡ begin_in fields.now }
{
    let (room, rest) = name_in(fields)?;
    let (key, rest) = name_in(rest)?;
    ended(rest, Call::Begin { room, key })
}

fn part(fields: &[u8]) -> Option<Call<'_>>
    ensures { meant result ≡ part_in fields.now }
{
    let (room, rest) = name_in(fields)?;
    let (upload, rest) = number_in(rest)?;
    let (place, rest) = number_in(rest)?;
    let (bytes, rest) = content_in(rest)?;
    ended(
        rest,
        Call::Part {
            room,
            upload,
            place,
            bytes,
        },
    )
}

fn complete(fields: &[u8]) -> Option<Call<'_>>
    ensures { meant result ≡ complete_in fields.now }
{
    let (room, rest) = name_in(fields)?;
    let (upload, rest) = number_in(rest)?;
    let (expected, rest) = expected_in(rest)?;
    ended(
        rest,
        Call::Complete {
            room,
            upload,
            expected,
        },
    )
}

fn abort(fields: &[u8]) -> Option<Call<'_>>
    ensures { meant result ≡ abort_in fields.now }
{
    let (room, rest) = name_in(fields)?;
    let (upload, rest) = number_in(rest)?;
    ended(rest, Call::Abort { room, upload })
}

fn hold(fields: &[u8]) -> Option<Call<'_>>
    ensures { meant result ≡ hold_in fields.now }
{
    let (room, rest) = name_in(fields)?;
    let (key, rest) = name_in(rest)?;
    let (number, rest) = number_in(rest)?;
    let (until, rest) = number_in(rest)?;
    ended(
        rest,
        Call::Hold {
            room,
            key,
            number,
            until,
        },
    )
}

// An entry of a list has the same fields; a shared reader would hand out a tuple that each takes apart again.
impl<'a> Item<'a> for Rule<'a> {
    ghost Meant = { meaning.Rule };

    ghost means = { ruled };

    ghost reads = { rule_in };

    fn first(rules: &'a [u8]) -> Option<(Rule<'a>, &'a [u8])> {
        let (beginning, rest) = name_in(rules)?;
        let (lasts, rest) = number_in(rest)?;
        let (older_last, rest) = number_in(rest)?;
        Some((
            Rule {
                beginning,
                lasts,
                older_last,
            },
            rest,
        ))
    }
}

fn rules(fields: &[u8]) -> Option<Call<'_>>
    ensures { meant result ≡ rules_in fields.now }
{
    let (room, rest) = name_in(fields)?;
    let (count, rules) = number_in(rest)?;
    are_many::<Rule<'_>>(u16::from(count), rules).then_some(Call::Rules { room, count, rules })
}

fn time(fields: &[u8]) -> Option<Call<'_>>
    ensures { meant result ≡ time_in fields.now }
{
    let (ms, rest) = number_in(fields)?;
    ended(rest, Call::Time { ms })
}

// The call, if the line is one to the last byte.
pub fn read_call(line: &[u8]) -> Option<Call<'_>>
    ensures { meant result ≡ call_in line.now }
{
    let (head, fields) = head_in(line)?;
    match Kind::try_from(head.kind).ok()? {
        Kind::MakeRoom => make_room(fields),
        Kind::DropRoom => drop_room(fields),
        Kind::Put => put(fields),
        Kind::Get => get(fields),
        Kind::Remove => remove(fields),
        Kind::Look => look(fields),
        Kind::Versions => versions(fields),
        Kind::Begin => begin(fields),
        Kind::Part => part(fields),
        Kind::Complete => complete(fields),
        Kind::Abort => abort(fields),
        Kind::Hold => hold(fields),
        Kind::Rules => rules(fields),
        Kind::Time => time(fields),
    }
}
