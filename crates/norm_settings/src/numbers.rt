//! Numbers among the words: 1 to 20 decimal digits, leading zeros allowed.
ghost use Rattle.std.specs.Prelude.{◌≡◌};
ghost use Rattle.norm_settings.specs.OptionTable.{number_within as number_that_is_within};

use wire_base::read_number;

/// Parses a number of 1 to 20 decimal digits, from `least` to `greatest`.
pub fn number_within(text: &[u8], least: u64, greatest: u64) -> Option<u64>
    ensures { result ≡ number_that_is_within least greatest text.now }
{
    let number = read_number(text, 20)?;
    if number < u128::from(least) || number > u128::from(greatest) {
        return None;
    }
    Some(number as u64)
}
