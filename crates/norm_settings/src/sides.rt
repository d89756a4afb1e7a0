//! The side of a packet.
ghost use Rattle.std.specs.Prelude.{◌≡◌, ◌≤◌, All, None};
ghost use Rattle.norm_settings.specs.SettingValues.{plain_settings};
ghost use Rattle.norm_settings.specs.Side.{is_listed, side};

use crate::Settings;
use wire_base::{Addr, Prefix, Side};

/// Returns the side of a packet from `src` to `dst` whose record has no side: outward if only `src`
/// is trusted, inward if only `dst` is. None if both are trusted, or neither.
pub fn side_of(settings: &Settings, src: Addr, dst: Addr) -> Option<Side>
    requires { All (λ prefix. prefix.len ≤ 32) settings.now.prefixes.items }
    ensures { result ≡ side (plain_settings settings.now) None src.0 dst.0 }
{
    let (source, destination) = are_listed(&settings.prefixes, src, dst);
    if source == destination {
        None
    } else if source == settings.mirror {
        // With `mirror` the trusted addresses are those in no prefix.
        Some(Side::Inward)
    } else {
        Some(Side::Outward)
    }
}

// Returns for each of two addresses whether a prefix holds it, in one pass over the prefixes.
fn are_listed(prefixes: &[Prefix], src: Addr, dst: Addr) -> (bool, bool)
    requires { All (λ prefix. prefix.len ≤ 32) prefixes.now }
    ensures source { result.0 ≡ is_listed prefixes.now src.0 }
    ensures destination { result.1 ≡ is_listed prefixes.now dst.0 }
{
    let mut source = false;
    let mut destination = false;
    for prefix in prefixes {
        source |= prefix.holds(src);
        destination |= prefix.holds(dst);
        if source && destination {
            break;
        }
    }
    (source, destination)
}
