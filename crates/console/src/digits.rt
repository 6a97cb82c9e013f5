// Digits: hexadecimal both ways, and decimal numbers.
ghost use Rattle.std.specs.Prelude.{◌≡◌, ◌<◌, ◌++◌, OnOk};
ghost use Rattle.std.specs.List.{list_all};
ghost use Rattle.std.specs.Char.{is_ascii_hexdigit};
ghost use Rattle.console.specs.Hex.{digit_value, unhexed, line_of, Lays, digit, hexed, number_in};

use std::alloc::AllocError;

// What is no digit counts as 0: `unhex` has seen that there is none. By ranges, for speed: with the library's `to_digit` a long line of mixed digits takes half as
// much time again.
fn digit_value(d: u8) -> u8
    ensures value { result ≡ digit_value d }
    ensures bound { result < 16 }
{
    match d {
        b'0'..=b'9' => d - b'0',
        b'a'..=b'f' => d - b'a' + 10,
        b'A'..=b'F' => d - b'A' + 10,
        _ => 0,
    }
}

fn are_digits(digits: &[u8]) -> bool
    ensures { result ≡ list_all is_ascii_hexdigit digits.now }
{
    digits.iter().all(u8::is_ascii_hexdigit)
}

// The bytes that pairs of digits stand for, as many as there is room for.
fn lay_pairs(digits: &[u8], line: &mut [u8]) -> usize
    ensures { Lays (unhexed digits.now) line.old line.new result }
{
    let (pairs, _) = digits.as_chunks::<2>();
    let n = pairs.len().min(line.len());
    // By index: after a zip over `iter_mut` nothing is known of what was written.
    for (i, [high, low]) in pairs[..n].iter().enumerate() {
        line[i] = 16 * digit_value(*high) + digit_value(*low);
    }
    n
}

// Digits that are no pairs of hexadecimal ones stand for the empty line.
pub fn unhex(digits: &[u8], line: &mut [u8]) -> usize
    ensures { Lays (line_of digits.now) line.old line.new result }
{
    if digits.len() % 2 == 0 && are_digits(digits) {
        lay_pairs(digits, line)
    } else {
        0
    }
}

// The library's `from_digit` would answer an Option here, which is never none.
fn to_digit(n: u8) -> u8
    requires { n < 16 }
    ensures { result ≡ digit n }
{
    if n < 10 { b'0' + n } else { b'a' + n - 10 }
}

// Writes bytes as digits of lower case after what is there.
pub fn push_hex(out: &mut Vec<u8>, bytes: &[u8]) -> Result<(), AllocError>
    ensures { OnOk result (out.new.items ≡ out.old.items ++ hexed bytes.now) }
{
    for b in bytes {
        out.push(to_digit(*b / 16))?;
        out.push(to_digit(*b % 16))?;
    }
    Ok(())
}

// A number in decimal digits; what is more than eight bytes hold counts as the largest that they do.
pub fn number(digits: &[u8]) -> Option<u64>
    ensures { result ≡ number_in digits.now }
{
    if digits.is_empty() {
        return None;
    }
    let mut n = 0u64;
    for d in digits {
        let value = char::from(*d).to_digit(10)?;
        n = n.saturating_mul(10).saturating_add(u64::from(value));
    }
    Some(n)
}
