// Vectors of field elements.
ghost use Rattle.std.specs.Prelude.{◌≡◌, ◌+◌, ◌-◌, ◌*◌, ◌/◌, ◌%◌, ◌^◌, ◌<◌, ◌≤◌, ◌++◌, map, length, take};
ghost use Rattle.std.specs.Simd.Lanes.{chunk};
ghost use Rattle.field.specs.Field.{double, dot, map4, partial, row};
ghost use Rattle.field.specs.Stripe.{parity_p, parity_q};

use std::simd::prelude::*;

// As many field elements as are worked on at once.
pub(crate) type Lanes = u8x32;

pub(crate) const WIDTH: usize = 32;

// 2 times each element: what stays below x^8, and the remainder of x^8 where there is one.
pub(crate) fn doubled(x: Lanes) -> Lanes
    ensures { result ≡ map double x }
{
    let has_top = Lanes::splat(0) - (x >> Lanes::splat(7));
    (x + x) ^ (has_top & Lanes::splat(29))
}

// The elements of P. Four parameters here and below: a struct of four vectors would be made for a call and taken apart in it.
#[tactic(auto, using(crate::proofs::Words::summed_lanes))]
pub(crate) fn summed(w: Lanes, x: Lanes, y: Lanes, z: Lanes) -> Lanes
    ensures { result ≡ parity_p w x y z }
{
    w ^ x ^ y ^ z
}

// The elements of Q, by Horner's rule: three doublings and no product.
#[tactic(auto, using(crate::proofs::Words::weighted_lanes))]
pub(crate) fn weighted(w: Lanes, x: Lanes, y: Lanes, z: Lanes) -> Lanes
    ensures { result ≡ parity_q w x y z }
{
    doubled(doubled(doubled(z) ^ y) ^ x) ^ w
}

pub(crate) fn load(s: &[u8], at: usize) -> Lanes
    requires { at + 32 ≤ length s.now }
    ensures { result ≡ chunk at 32 s.now }
{
    Lanes::from_slice(&s[at..at + WIDTH])
}

pub(crate) fn store(v: Lanes, out: &mut [u8], at: usize)
    requires { at + 32 ≤ length out.old }
    ensures { take (at + 32) out.new ≡ take at out.old ++ v }
{
    v.copy_to_slice(&mut out[at..at + WIDTH]);
}

// x where bit k of the coefficient c is set, and else zeros.
fn picked(x: Lanes, c: u8, k: u32) -> Lanes
    requires { k < 8 }
    ensures { result ≡ map (λ v. c / 2 ^ k % 2 * v) x }
{
    if (c >> k) % 2 == 1 {
        x
    } else {
        Lanes::splat(0)
    }
}

// The sums by the bits from k on, of those by the bits above k: one step of Horner's rule.
#[tactic(auto, using(crate::proofs::Blends::blend_bit))]
fn stepped<const A: u8, const B: u8, const C: u8, const D: u8>(
    sum: Lanes,
    w: Lanes,
    x: Lanes,
    y: Lanes,
    z: Lanes,
    k: u32,
) -> Lanes
    requires { (k < 8) × (sum ≡ map4 (partial (row A B C D) (7 - k)) w x y z) }
    ensures { result ≡ map4 (partial (row A B C D) (8 - k)) w x y z }
{
    doubled(sum) ^ (picked(w, A, k) ^ (picked(x, B, k) ^ (picked(y, C, k) ^ picked(z, D, k))))
}

// The sums of four elements, each times its coefficient. The coefficients are constants and the steps are written out, so that the compiler keeps
// only the sums that are made: as a loop, some are compiled with a test of each bit, three times slower.
pub(crate) fn blended<const A: u8, const B: u8, const C: u8, const D: u8>(
    w: Lanes,
    x: Lanes,
    y: Lanes,
    z: Lanes,
) -> Lanes
    ensures { result ≡ map4 (dot (row A B C D)) w x y z }
{
    let sum = stepped::<A, B, C, D>(Lanes::splat(0), w, x, y, z, 7);
    let sum = stepped::<A, B, C, D>(sum, w, x, y, z, 6);
    let sum = stepped::<A, B, C, D>(sum, w, x, y, z, 5);
    let sum = stepped::<A, B, C, D>(sum, w, x, y, z, 4);
    let sum = stepped::<A, B, C, D>(sum, w, x, y, z, 3);
    let sum = stepped::<A, B, C, D>(sum, w, x, y, z, 2);
    let sum = stepped::<A, B, C, D>(sum, w, x, y, z, 1);
    stepped::<A, B, C, D>(sum, w, x, y, z, 0)
}
