// What is handed in, and how it is refused.
ghost use Rattle.std.specs.Prelude.{◌≡◌};
ghost use Rattle.pieces.specs.declared.held.Refused.TheVariants.{Lengths};

use elements::UnequalLengths;
use std::error::Error;
use std::fmt;

// A piece that is at hand, and its place in the stripe: 0 to 3 for data, 4 for P, 5 for Q. A number and no enum, since any number may be given, and one
// above 5 is refused.
#[derive(Clone, Copy)]
pub struct Held<'a> {
    pub place: usize,
    pub bytes: &'a [u8],
}

#[derive(Clone, Copy, Debug, PartialEq, Eq)]
pub enum Refused {
    // The places of the four pieces don't rise, or one is above 5.
    Places,
    // The place that is wanted is above 5.
    NoSuchPlace,
    // Pieces are not of one length.
    Lengths,
}

impl fmt::Display for Refused {
    ghost use Rattle.std.specs.Prelude.{Some};
    ghost use Rattle.pieces.specs.Refusals.{told};

    ghost output = { λ refused. Some (told refused) };

    fn fmt<W: fmt::Write>(&self, f: &mut fmt::Formatter<W>) -> fmt::Result {
        f.write_str(match self {
            Self::Places => "the places of the pieces do not rise, or one is above 5",
            Self::NoSuchPlace => "the place that is wanted is above 5",
            Self::Lengths => "the pieces are not of one length",
        })
    }
}

impl Error for Refused {}

impl From<UnequalLengths> for Refused {
    ghost from_gives = { λ _ e. e ≡ Lengths };

    fn from(_e: UnequalLengths) -> Refused {
        Refused::Lengths
    }
}
