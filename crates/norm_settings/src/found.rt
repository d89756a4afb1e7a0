//! Settings from the values that clap found.
ghost use Rattle.std.specs.Prelude.{◌≡◌, ◌≤◌, All, List, ℕ, Option, IfSome, map, option_map, length};
ghost use Rattle.norm_settings.specs.OptionTable.{kind_of, number_by as number_of_kind, IsWithin, IsInRange, HasStandard};
ghost use Rattle.norm_settings.specs.SettingValues.{plain_settings, settings_of, number_told, limit_told, name_told, is_told, AreInRange};
ghost use Rattle.norm_settings.specs.FoundValues.{value_in};

use crate::line::is_value;
use crate::{Choice, Kind, Settings, number_within};
use arrayvec::ArrayVec;
use clap::ArgMatches;
use wire_base::Prefix;

/// Returns the settings of the values found, with these prefixes.
pub(crate) fn settings_found(matches: &ArgMatches<'_>, prefixes: ArrayVec<Prefix, 16>) -> Settings
    requires { All (λ prefix. prefix.len ≤ 32) prefixes.items }
    ensures exact { plain_settings result ≡ settings_of (value_in matches.now) prefixes.items }
    ensures in_range { AreInRange (plain_settings result) }
{
    let hops = number_found(matches, Choice::Hops);
    let flows = number_found(matches, Choice::Flows);
    let cells = number_found(matches, Choice::Cells);
    let frags = number_found(matches, Choice::Frags);
    let frag_cells = number_found(matches, Choice::FragCells);
    let idle = number_found(matches, Choice::Idle);
    let frag_time = number_found(matches, Choice::FragTime);
    let seed = number_found(matches, Choice::Seed);
    let offload = is_found(matches, Choice::Offload);
    let quota = quota_found(matches);
    let both = is_found(matches, Choice::Both);
    let inside = name_found(matches, Choice::Inside);
    let mtu = mtu_found(matches);
    Settings {
        prefixes,
        hops: hops as u8,
        flows: flows as u32,
        cells: cells as u32,
        frags: frags as u32,
        frag_cells: frag_cells as u32,
        idle: idle as u32,
        frag_time: frag_time as u32,
        seed,
        offload,
        quota,
        both,
        mirror: false,
        inside,
        mtu,
    }
}

// Returns the number given for the option, or its default.
fn number_found(matches: &ArgMatches<'_>, choice: Choice) -> u64
    requires { HasStandard (kind_of choice) }
    ensures exact { result ≡ number_told choice (value_in matches.now choice) }
    ensures in_range { IsInRange (kind_of choice) result }
{
    match limit_found(matches, choice) {
        Some(number) => number,
        None => choice.standard(),
    }
}

// Returns the number given for the option, if there is one in its range.
fn limit_found(matches: &ArgMatches<'_>, choice: Choice) -> Option<u64>
    ensures exact { result ≡ limit_told choice (value_in matches.now choice) }
    ensures in_range { IfSome result (IsInRange (kind_of choice)) }
{
    let row = choice.row();
    let value = matches.get_str(row.name)?;
    number_by(row.kind, value.as_bytes())
}

// Parses the number of an option of this kind; None if the octets do not fit it.
fn number_by(kind: Kind, value: &[u8]) -> Option<u64>
    ensures exact { result ≡ number_of_kind kind value.now }
    ensures in_range { IfSome result (IsInRange kind) }
{
    match kind {
        Kind::Number {
            least,
            greatest,
            standard: _,
        } => number_within(value, least, greatest),
        Kind::Limit { least, greatest } => number_within(value, least, greatest),
        _ => None,
    }
}

fn quota_found(matches: &ArgMatches<'_>) -> Option<u32>
    ensures exact { result ≡ limit_told Choice.Quota (value_in matches.now Choice.Quota) }
    ensures in_range { IfSome result (IsInRange (kind_of Choice.Quota)) }
{
    match limit_found(matches, Choice::Quota) {
        Some(number) => Some(number as u32),
        None => None,
    }
}

fn mtu_found(matches: &ArgMatches<'_>) -> Option<u16>
    ensures exact { result ≡ limit_told Choice.Mtu (value_in matches.now Choice.Mtu) }
    ensures in_range { IfSome result (IsInRange (kind_of Choice.Mtu)) }
{
    match limit_found(matches, Choice::Mtu) {
        Some(number) => Some(number as u16),
        None => None,
    }
}

// Returns the name given for the option, if it fits.
fn name_found(matches: &ArgMatches<'_>, choice: Choice) -> Option<ArrayVec<u8, 64>>
    ensures exact { option_map (λ name. name.items) result ≡ name_told (value_in matches.now choice) }
    ensures in_range { IfSome result (λ name. IsWithin 1 64 (length name.items)) }
{
    let value = matches.get_str(choice.row().name)?.as_bytes();
    if !is_value(Kind::Name, value) {
        return None;
    }
    let mut name = ArrayVec::new();
    name.try_extend_from_slice(value).unwrap();
    Some(name)
}

// Returns whether the option is given.
fn is_found(matches: &ArgMatches<'_>, choice: Choice) -> bool
    ensures { result ≡ is_told (value_in matches.now choice) }
{
    match matches.get_str(choice.row().name) {
        Some(value) => value == "true",
        None => false,
    }
}
