// Four of the six pieces, of which any piece is made anew.
ghost use Rattle.std.specs.Prelude.{◌<◌};

use crate::held::{Held, Refused};
use crate::losses::fill_lost;
use elements::Four;

// Four pieces of one length, at rising places: `w` of `pieces` stands at p, `x` at q, `y` at r and `z` at s.
#[derive(Clone, Copy)]
pub(crate) struct Quorum<'a> {
    p: usize,
    q: usize,
    r: usize,
    s: usize,
    pieces: Four<'a>,
    ghost rising: { (p < q) × ((q < r) × ((r < s) × (s < 6))) },
}

impl<'a> Quorum<'a> {
    ghost use Rattle.std.specs.Prelude.{◌≡◌, ◌≢◌, ◌↔◌, ◌&&◌, [], ◌∷◌, false, length, is_ok, IfOk, IsErrOf};
    ghost use Rattle.field.specs.Stripe.{decoded, rebuilt};
    ghost use Rattle.pieces.specs.Hands.{held_four, one_length, rise};
    ghost use Rattle.pieces.specs.Quorums.{held_by};

    // The four pieces, if their places rise and they are of one length.
    pub(crate) fn new(
        w: Held<'a>,
        x: Held<'a>,
        y: Held<'a>,
        z: Held<'a>,
    ) -> Result<Quorum<'a>, Refused>
        ensures answer { is_ok result ≡ (rise w.entry x.entry y.entry z.entry && one_length w.entry x.entry y.entry z.entry) }
        ensures places { IsErrOf result Refused.Places ↔ (rise w.entry x.entry y.entry z.entry ≡ false) }
        ensures no_place { result ≢ Err Refused.NoSuchPlace }
        ensures pieces { IfOk result (λ h. held_by h ≡ held_four w.entry x.entry y.entry z.entry) }
    {
        let [p, q, r, s] = [w.place, x.place, y.place, z.place];
        if p < q && q < r && r < s && s < 6 {
            let pieces = Four::new(w.bytes, x.bytes, y.bytes, z.bytes)?;
            return Ok(Quorum { p, q, r, s, pieces });
        }
        Err(Refused::Places)
    }

    // The length of each piece.
    pub(crate) fn len(&self) -> usize
        ensures { result ≡ length self.now.pieces.w.now }
    {
        self.pieces.len()
    }

    // The piece at a place. Inlined, since a call would cost a small piece some of its speed.
    #[inline(always)]
    pub(crate) fn piece(&self, wanted: usize, out: &mut [u8])
        requires { (wanted < 6) × (length out.old ≡ length self.now.pieces.w.now) }
        ensures { out.new ≡ rebuilt (held_by self.now) wanted }
    {
        let Four { w, x, y, z } = self.pieces;
        if wanted == self.p {
            out.copy_from_slice(w);
        } else if wanted == self.q {
            out.copy_from_slice(x);
        } else if wanted == self.r {
            out.copy_from_slice(y);
        } else if wanted == self.s {
            out.copy_from_slice(z);
        } else {
            // All six places add up to 15.
            let other = 15 - self.p - self.q - self.r - self.s - wanted;
            // A copy, so that `self` itself need not lie in memory.
            let pieces = self.pieces;
            fill_lost(wanted, other, &pieces, out);
        }
    }

    // The data where two pieces of it are lost. `held_p` and `held_q` get the two that are held, and `lost_i` and `lost_j` the two that are lost, at the
    // places i and j: that at j by its coefficients, and that at i as the sum of all but Q.
    fn two_lost(
        &self,
        held_p: &mut [u8],
        held_q: &mut [u8],
        i: usize,
        lost_i: &mut [u8],
        j: usize,
        lost_j: &mut [u8],
    )
        requires lengths { (length held_p.old ≡ length self.now.pieces.w.now) × ((length held_q.old ≡ length self.now.pieces.w.now) × ((length lost_i.old ≡ length self.now.pieces.w.now) × (length lost_j.old ≡ length self.now.pieces.w.now))) }
        requires both_parities { (self.now.r ≡ 4) × ((i < j) × (j < 4)) }
        requires others_lost { (i ≢ self.now.p) × ((i ≢ self.now.q) × ((j ≢ self.now.p) × (j ≢ self.now.q))) }
        ensures held_p { held_p.new ≡ rebuilt (held_by self.now) self.now.p }
        ensures held_q { held_q.new ≡ rebuilt (held_by self.now) self.now.q }
        ensures lost_i { lost_i.new ≡ rebuilt (held_by self.now) i }
        ensures lost_j { lost_j.new ≡ rebuilt (held_by self.now) j }
    {
        let Four { w, x, y, .. } = self.pieces;
        held_p.copy_from_slice(w);
        held_q.copy_from_slice(x);
        fill_lost(j, i, &self.pieces, lost_j);
        let but_q = Four { w, x, y, z: lost_j };
        but_q.blend::<1, 1, 1, 1>(lost_i);
    }

    // The four data pieces.
    #[tactic(auto, using(crate::proofs::Pieces::quorum_data))]
    pub(crate) fn write_data(&self, a: &mut [u8], b: &mut [u8], c: &mut [u8], d: &mut [u8])
        requires { (length a.old ≡ length self.now.pieces.w.now) × ((length b.old ≡ length self.now.pieces.w.now) × ((length c.old ≡ length self.now.pieces.w.now) × (length d.old ≡ length self.now.pieces.w.now))) }
        ensures { a.new ∷ b.new ∷ c.new ∷ d.new ∷ [] ≡ decoded (held_by self.now) }
    {
        if self.r != 4 {
            self.piece(0, a);
            self.piece(1, b);
            self.piece(2, c);
            self.piece(3, d);
            return;
        }
        // A copy, as in `piece`.
        let held = *self;
        match (held.p, held.q) {
            (0, 1) => held.two_lost(a, b, 2, c, 3, d),
            (0, 2) => held.two_lost(a, c, 1, b, 3, d),
            (0, 3) => held.two_lost(a, d, 1, b, 2, c),
            (1, 2) => held.two_lost(b, c, 0, a, 3, d),
            (1, 3) => held.two_lost(b, d, 0, a, 2, c),
            _ => held.two_lost(c, d, 0, a, 1, b),
        }
    }
}
