// Decimal numbers.
ghost use Rattle.std.specs.Prelude.{◌≡◌};
ghost use Rattle.script.specs.Numbers.{number_of};

// A number of at most twenty digits; what is more than eight bytes hold counts as the largest that they do.
pub fn number(digits: &[u8]) -> Option<u64>
    ensures { result ≡ number_of digits.now }
{
    if digits.len() > 20 {
        return None;
    }
    console::number(digits)
}
