//! Decimal numbers.
ghost use Rattle.std.specs.Prelude.{◌≡◌, ◌≤◌, Some, None, if◌then◌else◌};
ghost use Rattle.wire_base.specs.Prefixes as spec;

/// Parses a number of 1 to `most` decimal digits; leading zeros are allowed.
pub fn read_number(text: &[u8], most: usize) -> Option<u128>
    requires { most ≤ 20 }
    ensures { result ≡ (if spec.is_number most text.now then Some (spec.number_of text.now) else None) }
{
    if text.is_empty() || text.len() > most {
        return None;
    }
    let mut number = 0_u128;
    for digit in text {
        if !digit.is_ascii_digit() {
            return None;
        }
        number = 10 * number + u128::from(*digit - b'0');
    }
    Some(number)
}
