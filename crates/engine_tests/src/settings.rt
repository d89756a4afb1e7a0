//! Settings of engines.
ghost use Rattle.std.specs.Prelude.{◌≡◌, false};
ghost use Rattle.norm_settings.specs.SettingValues.{plain_settings, AreInRange, GoTogether};

use arrayvec::ArrayVec;
use norm_settings::Settings;
use wire_base::{Addr, Prefix};

/// Settings that differ from the standard ones with the prefix 10.0.0.0/8.
#[derive(Clone, Copy)]
pub struct Chosen {
    /// Whether there is memory for the greatest number of eras.
    pub wide: bool,
    pub offload: bool,
    pub both: bool,
}

pub const STANDARD: Chosen = Chosen {
    wide: false,
    offload: false,
    both: false,
};

pub fn settings(chosen: Chosen) -> Settings
    ensures range { AreInRange (plain_settings result) }
    ensures together { GoTogether (plain_settings result) }
    ensures upright { result.mirror ≡ false }
{
    let mut prefixes = ArrayVec::new();
    prefixes.push(Prefix {
        addr: Addr(0x0a00_0000),
        len: 8,
    });
    let mut settings = Settings::standard(prefixes);
    settings.flows = if chosen.wide { 65_536 } else { 4_096 };
    settings.offload = chosen.offload;
    settings.both = chosen.both;
    settings
}
