// Calls are written as lines, by whoever asks.
#![tactic(auto, unfolding(meaning::specs::Lists::every, lines::specs::Calls::many))]

ghost use Rattle.std.specs.Prelude.{true, ◌&&◌};
ghost use Rattle.meaning.specs.Rooms.{Tick};
ghost use Rattle.asks.specs.Short.{changes, fits, of_room, reads, uploads};
ghost use Rattle.fills.specs.Fills.{Wrote};
ghost use Rattle.lines.specs.Calls.{call_bytes, line_of};
ghost use Rattle.lines.specs.Means.{means};

use fills::Field::{Content, Expects, Flag, Name, Plain, U8, U16, U32, U64};
use fills::write_line;
use lines::calls::{Call, Rule};
use lines::items::are_many;
use lines::kinds::Kind::{
    Abort, Begin, Complete, DropRoom, Get, Hold, Look, MakeRoom, Part, Put, Remove, Rules, Time,
    Versions,
};

// One match over all fourteen calls would be longer than a function may be, so each sort of call has its own. A struct of the tag, the call and the buffer
// would be made once and taken apart at once.

// Writes a call that makes, drops or rules a room, and leaves `out` alone at any other.
fn write_room(tag: u32, call: Call<'_>, out: &mut [u8]) -> Option<usize>
    ensures { Wrote (of_room call.entry && fits call.entry) (line_of tag (call_bytes (means call.entry))) out.old result out.new }
{
    match call {
        Call::MakeRoom { name, keeps } => write_line(
            tag,
            &[U8(MakeRoom as u8), Name(name), Flag(keeps)],
            out,
        ),
        Call::DropRoom { name } => write_line(tag, &[U8(DropRoom as u8), Name(name)], out),
        Call::Rules { room, count, rules } => {
            if !are_many::<Rule<'_>>(u16::from(count), rules) {
                return None;
            }
            write_line(
                tag,
                &[U8(Rules as u8), Name(room), U8(count), Plain(rules)],
                out,
            )
        }
        _ => None,
    }
}

// Writes a call that changes what a key has, and leaves `out` alone at any other.
fn write_change(tag: u32, call: Call<'_>, out: &mut [u8]) -> Option<usize>
    ensures { Wrote (changes call.entry && fits call.entry) (line_of tag (call_bytes (means call.entry))) out.old result out.new }
{
    match call {
        Call::Put {
            room,
            key,
            expected,
            bytes,
        } => {
            let fields = [
                U8(Put as u8),
                Name(room),
                Name(key),
                Expects(expected),
                Content(bytes),
            ];
            write_line(tag, &fields, out)
        }
        Call::Remove { room, key, number } => {
            let fields = [U8(Remove as u8), Name(room), Name(key), U64(number)];
            write_line(tag, &fields, out)
        }
        Call::Hold {
            room,
            key,
            number,
            until,
        } => {
            let kind = U8(Hold as u8);
            let fields = [kind, Name(room), Name(key), U64(number), U64(until)];
            write_line(tag, &fields, out)
        }
        _ => None,
    }
}

// Writes a call that asks what a room or a key has, and leaves `out` alone at any other.
fn write_read(tag: u32, call: Call<'_>, out: &mut [u8]) -> Option<usize>
    ensures { Wrote (reads call.entry && fits call.entry) (line_of tag (call_bytes (means call.entry))) out.old result out.new }
{
    match call {
        Call::Get {
            room,
            key,
            number,
            from,
            most,
        } => {
            let fields = [
                U8(Get as u8),
                Name(room),
                Name(key),
                U64(number),
                U64(from),
                U32(most),
            ];
            write_line(tag, &fields, out)
        }
        Call::Look {
            room,
            beginning,
            after,
            most,
        } => {
            let kind = U8(Look as u8);
            let fields = [kind, Name(room), Name(beginning), Name(after), U16(most)];
            write_line(tag, &fields, out)
        }
        Call::Versions { room, key } => write_line(
            tag,
            &[U8(Versions as u8), Name(room), Name(key)],
            out,
        ),
        _ => None,
    }
}

// Writes a call of an upload in parts, and leaves `out` alone at any other.
fn write_upload(tag: u32, call: Call<'_>, out: &mut [u8]) -> Option<usize>
    ensures { Wrote (uploads call.entry && fits call.entry) (line_of tag (call_bytes (means call.entry))) out.old result out.new }
{
    match call {
        Call::Begin { room, key } => write_line(
            tag,
            &[U8(Begin as u8), Name(room), Name(key)],
            out,
        ),
        Call::Part {
            room,
            upload,
            place,
            bytes,
        } => {
            let kind = U8(Part as u8);
            let fields = [kind, Name(room), U64(upload), U16(place), Content(bytes)];
            write_line(tag, &fields, out)
        }
        Call::Complete {
            room,
            upload,
            expected,
        } => {
            let kind = U8(Complete as u8);
            let fields = [kind, Name(room), U64(upload), Expects(expected)];
            write_line(tag, &fields, out)
        }
        Call::Abort { room, upload } => write_line(
            tag,
            &[U8(Abort as u8), Name(room), U64(upload)],
            out,
        ),
        _ => None,
    }
}

// Writes the call to the front of `out` and says how long it is, or leaves `out` alone: where there is too little room,
// or no line can hold it.
pub fn write_call(tag: u32, call: Call<'_>, out: &mut [u8]) -> Option<usize>
    ensures { Wrote (fits call.entry) (line_of tag (call_bytes (means call.entry))) out.old result out.new }
{
    match call {
        Call::MakeRoom { .. } | Call::DropRoom { .. } | Call::Rules { .. } => write_room(
            tag, call, out,
        ),
        Call::Put { .. } | Call::Remove { .. } | Call::Hold { .. } => write_change(tag, call, out),
        Call::Get { .. } | Call::Look { .. } | Call::Versions { .. } => write_read(tag, call, out),
        Call::Begin { .. } | Call::Part { .. } | Call::Complete { .. } | Call::Abort { .. } =>
            write_upload(tag, call, out),
        Call::Time { ms } => write_line(tag, &[U8(Time as u8), U64(ms)], out),
    }
}

// Writes the line that tells a time to the front of `out`, if there is room for it.
pub fn write_time(tag: u32, ms: u64, out: &mut [u8]) -> Option<usize>
    ensures { Wrote true (line_of tag (call_bytes (Tick ms))) out.old result out.new }
{
    write_call(tag, Call::Time { ms }, out)
}
