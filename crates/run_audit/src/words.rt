//! The words of an audit.
ghost use Rattle.std.specs.Prelude.{◌≡◌, map, string_bytes};
ghost use Rattle.run_audit.specs.AuditWords.{asked};

use norm_settings::number_within;

/// Returns the number of routers behind the bridge, or None unless the words are two names that are
/// not empty and a number of 1 to 3 digits, at most 254.
pub(crate) fn hops_asked(words: &[String]) -> Option<u8>
    ensures { result ≡ asked (map string_bytes words.now) }
{
    let [capture, report, hops] = words else {
        return None;
    };
    if capture.is_empty() || report.is_empty() || hops.len() > 3 {
        return None;
    }
    let number = number_within(hops.as_bytes(), 0, 254)?;
    Some(number as u8)
}
