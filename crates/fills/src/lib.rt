// Lines are written field by field, once it is known that all of them fit.
#![tactic(auto)]

ghost use Rattle.std.specs.Prelude.{◌≡◌, ◌&&◌, true, length, if◌then◌else◌, nat_lt, Some, None};
ghost use Rattle.meaning.specs.Lists.{every};
ghost use Rattle.lines.specs.Calls.{line_of};
ghost use Rattle.lines.specs.Fields.{number};
ghost use Rattle.fills.specs.Fills.{Added, HasRoom, Puts, Wrote, body_bytes, field_bytes, field_fits, line_fits, sized};

use lines::calls::Expected;

#[derive(Clone, Copy)]
pub enum Field<'a> {
    U8(u8),
    U16(u16),
    U32(u32),
    U64(u64),
    Flag(bool),
    Expects(Expected),
    Name(&'a [u8]),
    Content(&'a [u8]),
    // bytes without their count
    Plain(&'a [u8]),
}

impl Field<'_> {
    // How many bytes it has on a line, unless no line can hold it.
    fn size(self) -> Option<u32>
        ensures { result ≡ (if field_fits self.entry && nat_lt (length (field_bytes self.entry)) 4294967296 then Some (length (field_bytes self.entry)) else None) }
    {
        match self {
            Field::U8(_) | Field::Flag(_) => Some(1),
            Field::U16(_) => Some(2),
            Field::U32(_) => Some(4),
            Field::U64(_) => Some(8),
            Field::Expects(Expected::Any | Expected::Absent) => Some(1),
            Field::Expects(Expected::Is(_)) => Some(9),
            Field::Name(bytes) => Some(1 + u32::from(u8::try_from(bytes.len()).ok()?)),
            Field::Content(bytes) => u32::try_from(bytes.len()).ok()?.checked_add(4),
            Field::Plain(bytes) => u32::try_from(bytes.len()).ok(),
        }
    }
}

// What a line with these fields has for its length.
fn total(fields: &[Field<'_>]) -> Option<u32>
    ensures { result ≡ sized 4 fields.now }
{
    let mut total: u32 = 4;
    for field in fields {
        total = total.checked_add(field.size()?)?;
    }
    Some(total)
}

// Where the next bytes of a buffer go.
#[derive(Drop)]
struct Writer<'a> {
    out: &'a mut [u8],
    at: usize,
}

impl Writer<'_> {
    fn put(&mut self, bytes: &[u8])
        requires { HasRoom bytes.now self.old }
        ensures { Puts bytes.now self.old self.new }
    {
        let start = self.at;
        let end = start + bytes.len();
        let out = &mut *self.out;
        out[start..end].copy_from_slice(bytes);
        self.at = end;
    }

    fn put_u32(&mut self, n: u32)
        requires { HasRoom (number 4 n) self.old }
        ensures { Puts (number 4 n) self.old self.new }
    {
        self.put(&n.to_be_bytes())
    }

    #[tactic(auto, using(crate::proofs::Puts::room_behind))]
    fn put_field(&mut self, field: Field<'_>)
        requires fits { field_fits field ≡ true }
        requires room { HasRoom (field_bytes field) self.old }
        ensures { Puts (field_bytes field.entry) self.old self.new }
    {
        match field {
            Field::U8(n) => self.put(&[n]),
            Field::U16(n) => self.put(&n.to_be_bytes()),
            Field::U32(n) => self.put_u32(n),
            Field::U64(n) => self.put(&n.to_be_bytes()),
            Field::Flag(on) => self.put(&[u8::from(on)]),
            // 0, 1 and 2 are the line's; only this and their reader in crate lines name them
            Field::Expects(Expected::Any) => self.put(&[0]),
            Field::Expects(Expected::Absent) => self.put(&[1]),
            Field::Expects(Expected::Is(number)) => {
                self.put(&[2]);
                self.put(&number.to_be_bytes())
            }
            Field::Name(bytes) => {
                self.put(&[bytes.len() as u8]);
                self.put(bytes)
            }
            Field::Content(bytes) => {
                self.put_u32(bytes.len() as u32);
                self.put(bytes)
            }
            Field::Plain(bytes) => self.put(bytes),
        }
    }

    fn put_fields(&mut self, fields: &[Field<'_>])
        requires fit { every field_fits fields.now ≡ true }
        requires room { HasRoom (body_bytes fields.now) self.old }
        ensures { Puts (body_bytes fields.now) self.old self.new }
    {
        for field in fields {
            self.put_field(*field);
        }
    }
}

// Writes a line to the front of `out` and says how long it is, or leaves `out` alone. None says only that nothing was
// written, which is all that callers act on. It is the length and not that part of `out`: a clause on the rest of a slice
// that the result borrows gets no proof (console's `Input`).
pub fn write_line(tag: u32, fields: &[Field<'_>], out: &mut [u8]) -> Option<usize>
    ensures { Wrote (line_fits fields.now) (line_of tag (body_bytes fields.now)) out.old result out.new }
{
    let total = total(fields)?;
    if out.len() < 4 + total as usize {
        return None;
    }
    let mut line = Writer { out, at: 0 };
    line.put_u32(total);
    line.put_u32(tag);
    line.put_fields(fields);
    Some(line.at)
}

// Writes the fields from `at` on and says where they end, or leaves `out` alone.
pub fn append(fields: &[Field<'_>], at: usize, out: &mut [u8]) -> Option<usize>
    ensures { Added (line_fits fields.now) at (body_bytes fields.now) out.old result out.new }
{
    let size = total(fields)? - 4;
    if out.len().checked_sub(at)? < size as usize {
        return None;
    }
    let mut rest = Writer { out, at };
    rest.put_fields(fields);
    Some(rest.at)
}
