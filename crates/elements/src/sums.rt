// Sums of four pieces of one length, each times its coefficient.
ghost use Rattle.std.specs.Prelude.{◌≡◌, ◌*◌, ◌/◌, ◌≤◌, length, take};
ghost use Rattle.elements.specs.Blended.{blended};
ghost use Rattle.field.specs.Field.{row};

use crate::bytes::product;
use crate::four::Four;
use crate::lanes;
use crate::lanes::{WIDTH, load, store};

// The sums of as many whole vectors as there are. That `out` is as long as the four is a clause here and below, and no type holds it: it is lent by
// itself and written to, so a struct of both would be made, and checked, at each call.
fn blend_vectors<const A: u8, const B: u8, const C: u8, const D: u8>(four: &Four, out: &mut [u8])
    requires { length out.old ≡ length four.now.w.now }
    ensures { take (length four.now.w.now / 32 * 32) out.new ≡ take (length four.now.w.now / 32 * 32) (blended (row A B C D) four.now) }
{
    let Four { w, x, y, z } = *four;
    // By index: five slices go side by side, and after a zip over `iter_mut` nothing is known of what was written.
    for i in 0..w.len() / WIDTH {
        let at = i * WIDTH;
        let a = load(w, at);
        let b = load(x, at);
        let c = load(y, at);
        let d = load(z, at);
        store(lanes::blended::<A, B, C, D>(a, b, c, d), out, at);
    }
}

// The sums from a place on, where those before it stand. As with the parities, bytes have a loop of their own.
fn blend_bytes<const A: u8, const B: u8, const C: u8, const D: u8>(
    four: &Four,
    out: &mut [u8],
    from: usize,
)
    requires length { length out.old ≡ length four.now.w.now }
    requires from_within { from ≤ length four.now.w.now }
    requires out_before { take from out.old ≡ take from (blended (row A B C D) four.now) }
    ensures { out.new ≡ blended (row A B C D) four.now }
{
    let Four { w, x, y, z } = *four;
    // By index, as above.
    for i in from..w.len() {
        out[i] = product(A, w[i]) ^ (product(B, x[i]) ^ (product(C, y[i]) ^ product(D, z[i])));
    }
}

impl<'a> Four<'a> {
    // The piece that the four give by constant coefficients.
    pub fn blend<const A: u8, const B: u8, const C: u8, const D: u8>(&self, out: &mut [u8])
        requires { length out.old ≡ length self.now.w.now }
        ensures { out.new ≡ blended (row A B C D) self.now }
    {
        blend_vectors::<A, B, C, D>(self, out);
        blend_bytes::<A, B, C, D>(self, out, self.len() / WIDTH * WIDTH);
    }
}
