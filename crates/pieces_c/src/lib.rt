// `pieces` for programs in C and Rust that link it: `rt lib` in crates/pieces_c. A slice is a pointer and a length there,
// and whether it was done is a bool, as C has no Result.
#![tactic(auto)]

ghost use Rattle.std.specs.Prelude.{nat_lt, length, ◌&&◌, [], ◌∷◌, ◌≡◌, if◌then◌else◌};
ghost use Rattle.field.specs.Stripe.{decoded, four_held, parity_p, parity_q, rebuilt};
ghost use Rattle.elements.specs.Accepted.{all_of, rising};

use pieces::Held;

#[unsafe(no_mangle)]
pub extern "C" fn pieces_encode(
    a: &[u8],
    b: &[u8],
    c: &[u8],
    d: &[u8],
    p: &mut [u8],
    q: &mut [u8],
) -> bool
    ensures answer { result ≡ all_of (length a.now) (b.now ∷ c.now ∷ d.now ∷ p.old ∷ q.old ∷ []) }
    ensures p { p.new ≡ (if result then parity_p a.now b.now c.now d.now else p.old) }
    ensures q { q.new ≡ (if result then parity_q a.now b.now c.now d.now else q.old) }
{
    pieces::encode(a, b, c, d, p, q).is_ok()
}

#[unsafe(no_mangle)]
pub extern "C" fn pieces_rebuild(
    p: usize,
    w: &[u8],
    q: usize,
    x: &[u8],
    r: usize,
    y: &[u8],
    s: usize,
    z: &[u8],
    wanted: usize,
    out: &mut [u8],
) -> bool
    ensures answer { result ≡ (rising p q r s && all_of (length w.now) (x.now ∷ y.now ∷ z.now ∷ [])) && (nat_lt wanted 6 && all_of (length w.now) (out.old ∷ [])) }
    ensures piece { out.new ≡ (if result then rebuilt (four_held p q r s w.now x.now y.now z.now) wanted else out.old) }
{
    pieces::rebuild(
        Held { place: p, bytes: w },
        Held { place: q, bytes: x },
        Held { place: r, bytes: y },
        Held { place: s, bytes: z },
        wanted,
        out,
    )
    .is_ok()
}

#[unsafe(no_mangle)]
pub extern "C" fn pieces_decode(
    p: usize,
    w: &[u8],
    q: usize,
    x: &[u8],
    r: usize,
    y: &[u8],
    s: usize,
    z: &[u8],
    a: &mut [u8],
    b: &mut [u8],
    c: &mut [u8],
    d: &mut [u8],
) -> bool
    ensures answer { result ≡ (rising p q r s && all_of (length w.now) (x.now ∷ y.now ∷ z.now ∷ [])) && all_of (length w.now) (a.old ∷ b.old ∷ c.old ∷ d.old ∷ []) }
    ensures content { a.new ∷ b.new ∷ c.new ∷ d.new ∷ [] ≡ (if result then decoded (four_held p q r s w.now x.now y.now z.now) else a.old ∷ b.old ∷ c.old ∷ d.old ∷ []) }
{
    pieces::decode(
        Held { place: p, bytes: w },
        Held { place: q, bytes: x },
        Held { place: r, bytes: y },
        Held { place: s, bytes: z },
        a,
        b,
        c,
        d,
    )
    .is_ok()
}
