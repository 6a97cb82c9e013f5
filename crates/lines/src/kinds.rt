// The bytes that stand for the kinds of calls.
ghost use Rattle.std.specs.Prelude.{◌≡◌};
ghost use Rattle.lines.specs.Kinds.{code_of, Decodes, is_kind};

use std::error::Error;
use std::fmt;

// A byte that stands for nothing.
#[derive(Clone, Copy, Debug, PartialEq, Eq)]
pub struct Unknown(pub u8);

impl fmt::Display for Unknown {
    ghost use Rattle.std.specs.Prelude.{Some, ◌++◌, codes, decimal};

    ghost output = { λ unknown. Some (codes "nothing has the number " ++ decimal unknown.0) };

    fn fmt<W: fmt::Write>(&self, f: &mut fmt::Formatter<W>) -> fmt::Result {
        write!(f, "nothing has the number {}", self.0)
    }
}

impl Error for Unknown {}

// The kinds of calls, by the bytes that stand for them.
#[derive(Clone, Copy, PartialEq, Eq)]
pub enum Kind {
    MakeRoom = 1,
    DropRoom = 2,
    Put = 3,
    Get = 4,
    Remove = 5,
    Look = 6,
    Versions = 7,
    Begin = 8,
    Part = 9,
    Complete = 10,
    Abort = 11,
    Hold = 12,
    Rules = 13,
    Time = 14,
}

// Like the two of `Refusal` and those of the answers' kinds, since no macro may write an impl here.
impl TryFrom<u8> for Kind {
    type Error = Unknown;

    ghost try_from_gives = { Decodes code_of is_kind };

    fn try_from(code: u8) -> Result<Kind, Unknown> {
        match code {
            1 => Ok(Kind::MakeRoom),
            2 => Ok(Kind::DropRoom),
            3 => Ok(Kind::Put),
            4 => Ok(Kind::Get),
            5 => Ok(Kind::Remove),
            6 => Ok(Kind::Look),
            7 => Ok(Kind::Versions),
            8 => Ok(Kind::Begin),
            9 => Ok(Kind::Part),
            10 => Ok(Kind::Complete),
            11 => Ok(Kind::Abort),
            12 => Ok(Kind::Hold),
            13 => Ok(Kind::Rules),
            14 => Ok(Kind::Time),
            _ => Err(Unknown(code)),
        }
    }
}

impl From<Kind> for u8 {
    ghost from_gives = { λ kind code. code ≡ code_of kind };

    fn from(kind: Kind) -> u8 {
        kind as u8
    }
}
