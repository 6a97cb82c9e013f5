// The two parity pieces, of pieces of one length.
ghost use Rattle.std.specs.Prelude.{◌≡◌, ◌*◌, ◌/◌, ◌≤◌, length, take};
ghost use Rattle.elements.specs.Blended.{blended};
ghost use Rattle.field.specs.Stripe.{generator};

use crate::bytes::weighted_byte;
use crate::four::Four;
use crate::lanes::{WIDTH, load, store, summed, weighted};

// The parities of as many whole vectors as there are. Not two sums of `sums`: one pass loads each piece once, and Q needs no product.
pub(crate) fn encode_vectors(four: &Four, p: &mut [u8], q: &mut [u8])
    requires lengths { (length p.old ≡ length four.now.w.now) × (length q.old ≡ length four.now.w.now) }
    ensures p { take (length four.now.w.now / 32 * 32) p.new ≡ take (length four.now.w.now / 32 * 32) (blended (generator 4) four.now) }
    ensures q { take (length four.now.w.now / 32 * 32) q.new ≡ take (length four.now.w.now / 32 * 32) (blended (generator 5) four.now) }
{
    let Four { w, x, y, z } = *four;
    // By index: six slices go side by side, and after a zip over `iter_mut` nothing is known of what was written.
    for i in 0..w.len() / WIDTH {
        let at = i * WIDTH;
        let a = load(w, at);
        let b = load(x, at);
        let c = load(y, at);
        let d = load(z, at);
        store(summed(a, b, c, d), p, at);
        store(weighted(a, b, c, d), q, at);
    }
}

// The parities from a place on, where those before it stand. Bytes and vectors have loops of their own, as their arithmetic is their own (bytes.rt).
pub(crate) fn encode_bytes(four: &Four, p: &mut [u8], q: &mut [u8], from: usize)
    requires lengths { (length p.old ≡ length four.now.w.now) × (length q.old ≡ length four.now.w.now) }
    requires from_within { from ≤ length four.now.w.now }
    requires p { take from p.old ≡ take from (blended (generator 4) four.now) }
    requires q { take from q.old ≡ take from (blended (generator 5) four.now) }
    ensures p { p.new ≡ blended (generator 4) four.now }
    ensures q { q.new ≡ blended (generator 5) four.now }
{
    let Four { w, x, y, z } = *four;
    // By index, as above.
    for i in from..w.len() {
        p[i] = w[i] ^ x[i] ^ y[i] ^ z[i];
        q[i] = weighted_byte(w[i], x[i], y[i], z[i]);
    }
}
