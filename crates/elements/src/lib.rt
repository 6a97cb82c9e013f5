// Pieces of field elements: the two parity pieces of four, and sums of four by constant coefficients. Both work on vectors, and on single bytes at
// a piece's end.
#![tactic(auto)]

ghost use Rattle.std.specs.Prelude.{◌≡◌, [], ◌∷◌, length, is_ok, if◌then◌else◌};
ghost use Rattle.elements.specs.Accepted.{all_of};
ghost use Rattle.field.specs.Stripe.{parity_p, parity_q};

mod bytes;
mod four;
mod lanes;
mod parity;
mod sums;

pub use four::{Four, UnequalLengths};
use lanes::WIDTH;
use parity::{encode_bytes, encode_vectors};

// The two parity pieces of four data pieces. Pieces that are not all as long as the first are refused, and nothing is written.
pub fn encode(
    a: &[u8],
    b: &[u8],
    c: &[u8],
    d: &[u8],
    p: &mut [u8],
    q: &mut [u8],
) -> Result<(), UnequalLengths>
    ensures answer { is_ok result ≡ all_of (length a.now) (b.now ∷ c.now ∷ d.now ∷ p.old ∷ q.old ∷ []) }
    ensures p { p.new ≡ (if is_ok result then parity_p a.now b.now c.now d.now else p.old) }
    ensures q { q.new ≡ (if is_ok result then parity_q a.now b.now c.now d.now else q.old) }
{
    let four = Four::new(a, b, c, d)?;
    let n = four.len();
    if p.len() != n || q.len() != n {
        return Err(UnequalLengths);
    }
    encode_vectors(&four, p, q);
    encode_bytes(&four, p, q, n / WIDTH * WIDTH);
    Ok(())
}
