// Stripes of six pieces: two parity pieces worked out of four data pieces, and any piece made anew of any four.
#![tactic(auto)]

ghost use Rattle.std.specs.Prelude.{◌<◌, ◌≤◌, ◌≡◌, ◌↔◌, [], ◌∷◌, ◌&&◌, false, true, length, nat_lt, is_ok, IsErrOf, if◌then◌else◌};
ghost use Rattle.elements.specs.Accepted.{all_of};
ghost use Rattle.field.specs.Stripe.{decoded, rebuilt};
ghost use Rattle.pieces.specs.Hands.{held_four, one_length, rise};

mod held;
mod losses;
mod quorum;

pub use elements::{UnequalLengths, encode};
pub use held::{Held, Refused};
use quorum::Quorum;

// The piece at a place, made anew of any four: the one that encoding gave. Where it is refused nothing is written. Four parameters, as in the C interface:
// the clauses would take an array apart.
pub fn rebuild(
    w: Held,
    x: Held,
    y: Held,
    z: Held,
    wanted: usize,
    out: &mut [u8],
) -> Result<(), Refused>
    ensures answer { is_ok result ≡ ((rise w.entry x.entry y.entry z.entry && one_length w.entry x.entry y.entry z.entry) && (nat_lt wanted 6 && all_of (length w.entry.bytes.now) (out.old ∷ []))) }
    ensures no_such_place { IsErrOf result Refused.NoSuchPlace ↔ (6 ≤ wanted) }
    ensures places { IsErrOf result Refused.Places ↔ ((wanted < 6) × (rise w.entry x.entry y.entry z.entry ≡ false)) }
    ensures piece { out.new ≡ (if is_ok result then rebuilt (held_four w.entry x.entry y.entry z.entry) wanted else out.old) }
{
    if wanted >= 6 {
        return Err(Refused::NoSuchPlace);
    }
    let held = Quorum::new(w, x, y, z)?;
    if out.len() != held.len() {
        return Err(Refused::Lengths);
    }
    held.piece(wanted, out);
    Ok(())
}

// The four data pieces of any four pieces. Where it is refused nothing is written.
pub fn decode(
    w: Held,
    x: Held,
    y: Held,
    z: Held,
    a: &mut [u8],
    b: &mut [u8],
    c: &mut [u8],
    d: &mut [u8],
) -> Result<(), Refused>
    ensures answer { is_ok result ≡ ((rise w.entry x.entry y.entry z.entry && one_length w.entry x.entry y.entry z.entry) && all_of (length w.entry.bytes.now) (a.old ∷ b.old ∷ c.old ∷ d.old ∷ [])) }
    ensures places { IsErrOf result Refused.Places ↔ (rise w.entry x.entry y.entry z.entry ≡ false) }
    ensures lengths { IsErrOf result Refused.Lengths ↔ ((is_ok result ≡ false) × (rise w.entry x.entry y.entry z.entry ≡ true)) }
    ensures content { a.new ∷ b.new ∷ c.new ∷ d.new ∷ [] ≡ (if is_ok result then decoded (held_four w.entry x.entry y.entry z.entry) else a.old ∷ b.old ∷ c.old ∷ d.old ∷ []) }
{
    let held = Quorum::new(w, x, y, z)?;
    let n = held.len();
    if a.len() != n || b.len() != n || c.len() != n || d.len() != n {
        return Err(Refused::Lengths);
    }
    held.write_data(a, b, c, d);
    Ok(())
}
