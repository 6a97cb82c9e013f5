// Four pieces of one length, and what is told where they are not.
ghost use Rattle.std.specs.Prelude.{◌≡◌, length};
ghost use Rattle.elements.specs.Bytes.{AreBytes};

use std::error::Error;
use std::fmt;

// That an output is as long as these is a clause of each function that writes one, here and in `pieces`: no type holds it (sums.rt).
#[derive(Clone, Copy)]
pub struct Four<'a> {
    pub w: &'a [u8],
    pub x: &'a [u8],
    pub y: &'a [u8],
    pub z: &'a [u8],
    pub ghost same_length: { (length x.now ≡ length w.now) × ((length y.now ≡ length w.now) × (length z.now ≡ length w.now)) },

    // The slices' type says so already, but a lemma about any `Four` knows of it only what its ghost fields say.
    pub ghost bytes: { AreBytes w.now × (AreBytes x.now × (AreBytes y.now × AreBytes z.now)) },
}

// The lengths of pieces are not all the same.
#[derive(Clone, Copy, Debug, PartialEq, Eq)]
pub struct UnequalLengths;

impl fmt::Display for UnequalLengths {
    ghost use Rattle.std.specs.Prelude.{Some, codes};

    ghost output = { λ _. Some (codes "the pieces are not of one length") };

    fn fmt<W: fmt::Write>(&self, f: &mut fmt::Formatter<W>) -> fmt::Result {
        f.write_str("the pieces are not of one length")
    }
}

impl Error for UnequalLengths {}

impl<'a> Four<'a> {
    ghost use Rattle.std.specs.Prelude.{[], ◌∷◌, is_ok, IfOk};
    ghost use Rattle.elements.specs.Accepted.{all_of};

    // The four pieces, if they are of one length.
    pub fn new(
        w: &'a [u8],
        x: &'a [u8],
        y: &'a [u8],
        z: &'a [u8],
    ) -> Result<Four<'a>, UnequalLengths>
        ensures answer { is_ok result ≡ all_of (length w.now) (x.now ∷ y.now ∷ z.now ∷ []) }
        ensures pieces { IfOk result (λ f. (f.w.now ≡ w.now) × ((f.x.now ≡ x.now) × ((f.y.now ≡ y.now) × (f.z.now ≡ z.now)))) }
    {
        let n = w.len();
        if x.len() == n && y.len() == n && z.len() == n {
            return Ok(Four { w, x, y, z });
        }
        Err(UnequalLengths)
    }

    // The length of each.
    pub fn len(&self) -> usize
        ensures { result ≡ length self.now.w.now }
    {
        self.w.len()
    }
}
