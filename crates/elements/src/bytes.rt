// Single field elements, for what is left of a piece after its whole vectors.
ghost use Rattle.std.specs.Prelude.{◌≡◌};
ghost use Rattle.field.specs.Field.{double, dot, times};
ghost use Rattle.field.specs.Stripe.{generator};

// The product of each element with 2. By a shift and a sum in place of the table, pieces of 100 bytes were encoded at 0.77 of the speed.
const DOUBLES: [u8; 256] = [
    0, 2, 4, 6, 8, 10, 12, 14, 16, 18, 20, 22, 24, 26, 28, 30, 32, 34, 36, 38, 40, 42, 44, 46, 48,
    50, 52, 54, 56, 58, 60, 62, 64, 66, 68, 70, 72, 74, 76, 78, 80, 82, 84, 86, 88, 90, 92, 94, 96,
    98, 100, 102, 104, 106, 108, 110, 112, 114, 116, 118, 120, 122, 124, 126, 128, 130, 132, 134,
    136, 138, 140, 142, 144, 146, 148, 150, 152, 154, 156, 158, 160, 162, 164, 166, 168, 170, 172,
    174, 176, 178, 180, 182, 184, 186, 188, 190, 192, 194, 196, 198, 200, 202, 204, 206, 208, 210,
    212, 214, 216, 218, 220, 222, 224, 226, 228, 230, 232, 234, 236, 238, 240, 242, 244, 246, 248,
    250, 252, 254, 29, 31, 25, 27, 21, 23, 17, 19, 13, 15, 9, 11, 5, 7, 1, 3, 61, 63, 57, 59, 53,
    55, 49, 51, 45, 47, 41, 43, 37, 39, 33, 35, 93, 95, 89, 91, 85, 87, 81, 83, 77, 79, 73, 75, 69,
    71, 65, 67, 125, 127, 121, 123, 117, 119, 113, 115, 109, 111, 105, 107, 101, 103, 97, 99, 157,
    159, 153, 155, 149, 151, 145, 147, 141, 143, 137, 139, 133, 135, 129, 131, 189, 191, 185, 187,
    181, 183, 177, 179, 173, 175, 169, 171, 165, 167, 161, 163, 221, 223, 217, 219, 213, 215, 209,
    211, 205, 207, 201, 203, 197, 199, 193, 195, 253, 255, 249, 251, 245, 247, 241, 243, 237, 239,
    233, 235, 229, 231, 225, 227,
];

// 2 times x.
pub(crate) fn doubled_byte(x: u8) -> u8
    ensures { result ≡ double x }
{
    DOUBLES[x as usize]
}

// An element of Q, as `weighted` of vectors. One trait of bytes and vectors was tried for both: its laws can't say that a byte is below 256, so every
// proof had to carry that, and it came to more functions than these.
#[tactic(auto, using(field::proofs::Horner::q_is))]
pub(crate) fn weighted_byte(w: u8, x: u8, y: u8, z: u8) -> u8
    ensures { result ≡ dot (generator 5) w x y z }
{
    doubled_byte(doubled_byte(doubled_byte(z) ^ y) ^ x) ^ w
}

// c times x, by Horner's rule over the bits of c.
pub(crate) fn product(c: u8, x: u8) -> u8
    ensures { result ≡ times c x }
{
    let mut sum = 0u8;
    for k in (0..8u32).rev() {
        let bit = (c >> k) % 2;
        sum = doubled_byte(sum) ^ (bit * x);
    }
    sum
}
