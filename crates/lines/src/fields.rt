// The fields of a line: each is read off the front, and the bytes after it are handed on.
ghost use Rattle.std.specs.Prelude.{◌≡◌, ℕ, length};
ghost use Rattle.lines.specs.Calls.{at_end, head_in};
ghost use Rattle.lines.specs.Means.{headed};
ghost use Rattle.lines.specs.Fields.{bytes_read, counted_in, number_in, read_as, value};

// A number that has WIDTH bytes on a line, high byte first.
pub trait Number: Copy {
    ghost WIDTH: { ℕ };

    ghost amount: { Self → ℕ };

    const WIDTH: usize;

    fn of_bytes(bytes: &[u8]) -> Self
        requires { length bytes.now ≡ WIDTH }
        ensures { amount result ≡ value WIDTH bytes.now };

    // How many bytes follow, where the number counts them.
    fn count(self) -> usize
        ensures { result ≡ amount self };
}

// One text four times over, but for the type and its width: no macro may write an impl here.

impl Number for u8 {
    ghost WIDTH = { 1 };

    ghost amount = { λ n. n };

    const WIDTH: usize = 1;

    fn of_bytes(bytes: &[u8]) -> u8 {
        u8::from_be_bytes(*bytes.first_chunk().unwrap())
    }

    fn count(self) -> usize {
        self as usize
    }
}

impl Number for u16 {
    ghost WIDTH = { 2 };

    ghost amount = { λ n. n };

    const WIDTH: usize = 2;

    fn of_bytes(bytes: &[u8]) -> u16 {
        u16::from_be_bytes(*bytes.first_chunk().unwrap())
    }

    fn count(self) -> usize {
        self as usize
    }
}

impl Number for u32 {
    ghost WIDTH = { 4 };

    ghost amount = { λ n. n };

    const WIDTH: usize = 4;

    fn of_bytes(bytes: &[u8]) -> u32 {
        u32::from_be_bytes(*bytes.first_chunk().unwrap())
    }

    fn count(self) -> usize {
        self as usize
    }
}

impl Number for u64 {
    ghost WIDTH = { 8 };

    ghost amount = { λ n. n };

    const WIDTH: usize = 8;

    fn of_bytes(bytes: &[u8]) -> u64 {
        u64::from_be_bytes(*bytes.first_chunk().unwrap())
    }

    fn count(self) -> usize {
        self as usize
    }
}

#[tactic(auto, using(crate::proofs::Laws::value_take))]
pub fn number_in<N: Number>(bytes: &[u8]) -> Option<(N, &[u8])>
    ensures { read_as N.amount result ≡ number_in N.WIDTH bytes.now }
{
    let (head, rest) = bytes.split_at_checked(N::WIDTH)?;
    Some((N::of_bytes(head), rest))
}

// Bytes behind their count.
fn counted_in<N: Number>(bytes: &[u8]) -> Option<(&[u8], &[u8])>
    ensures { bytes_read result ≡ counted_in N.WIDTH bytes.now }
{
    let (count, rest) = number_in::<N>(bytes)?;
    rest.split_at_checked(count.count())
}

// A name, or the beginning of one: its length has one byte.
pub fn name_in(bytes: &[u8]) -> Option<(&[u8], &[u8])>
    ensures { bytes_read result ≡ counted_in 1 bytes.now }
{
    counted_in::<u8>(bytes)
}

// The bytes of an object: their length has four bytes.
pub fn content_in(bytes: &[u8]) -> Option<(&[u8], &[u8])>
    ensures { bytes_read result ≡ counted_in 4 bytes.now }
{
    counted_in::<u32>(bytes)
}

// The value, if nothing stands behind it.
pub fn ended<T: Drop>(rest: &[u8], value: T) -> Option<T>
    ensures { result ≡ at_end rest.now value }
{
    rest.is_empty().then_some(value)
}

// What a line begins with, behind its length.
#[derive(Clone, Copy)]
pub struct Head {
    pub tag: u32,
    // a byte still, and no type parameter: calls and answers have kinds of their own, and each reader turns it into its own in one line
    pub kind: u8,
}

// The tag and the kind, of a line whose length is right, and the bytes after them.
pub fn head_in(line: &[u8]) -> Option<(Head, &[u8])>
    ensures { read_as headed result ≡ head_in line.now }
{
    let (length, rest) = number_in::<u32>(line)?;
    if length as usize != rest.len() {
        return None;
    }
    let (tag, rest) = number_in(rest)?;
    let (kind, rest) = number_in(rest)?;
    Some((Head { tag, kind }, rest))
}
