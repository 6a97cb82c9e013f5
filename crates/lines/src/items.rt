// What stands on a line several times over: the rules of a room, the entries of a list.
ghost use Rattle.std.specs.Prelude.{◌≡◌, List, Option, ℕ};
ghost use Rattle.lines.specs.Calls.{are_many};
ghost use Rattle.lines.specs.Fields.{Took, read_as};
ghost use Rattle.lines.specs.Fits.{Bytes};

pub trait Item<'a>: Copy {
    // What an item means, and how that is read.
    ghost Meant: { Type 0 };

    ghost means: { Self → Meant };

    ghost reads: { List ℕ → Option (Took Meant) };

    // The first item, and the bytes after it.
    fn first(bytes: &'a [u8]) -> Option<(Self, &'a [u8])>
        ensures { read_as means result ≡ reads bytes.now };
}

// Are these so many items, and nothing else?
pub fn are_many<'a, T: Item<'a>>(count: u16, bytes: &'a [u8]) -> bool
    ensures are { result ≡ are_many T.reads count bytes.now }
    ensures bytes { Bytes bytes.now }
{
    let mut left = bytes;
    for _ in 0..count {
        let Some((_, rest)) = T::first(left) else {
            return false;
        };
        left = rest;
    }
    left.is_empty()
}
