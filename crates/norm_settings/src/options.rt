//! The table of the options of a run.
ghost use Rattle.std.specs.Prelude.{◌≡◌};
ghost use Rattle.norm_settings.specs.OptionTable.{name_of, kind_of, all_choices, standard_of as standard_of_kind, IsInRange, HasStandard};

use wire_base::MAX_PACKET;

/// Most cells of 256 octets for streams.
const MAX_CELLS: u64 = 262_144;

/// An option of `run`.
#[derive(Clone, Copy, Debug, PartialEq, Eq)]
pub enum Choice {
    Hops,
    Flows,
    Cells,
    Frags,
    FragCells,
    Idle,
    FragTime,
    Seed,
    Quota,
    Mtu,
    Inside,
    Offload,
    Both,
}

/// The kind of value that an option takes.
#[derive(Clone, Copy, Debug, PartialEq, Eq)]
pub enum Kind {
    /// A number from `least` to `greatest`; `standard` is the default.
    Number {
        least: u64,
        greatest: u64,
        standard: u64,
    },
    /// A limit from `least` to `greatest`; there is no limit if the option is not given.
    Limit {
        least: u64,
        greatest: u64,
    },
    /// A name of 1 to 64 octets that does not begin with `-`.
    Name,
    Alone,
}

/// An entry of the table of options.
#[derive(Clone, Copy)]
pub struct Row<'a> {
    /// The name of the option, without `--`.
    pub name: &'a str,
    pub kind: Kind,
}

impl<'a> Row<'a> {
    fn new(name: &'a str, kind: Kind) -> Row<'a>
        ensures name { result.name.now ≡ name.entry.now }
        ensures kind { result.kind ≡ kind }
    {
        Row { name, kind }
    }
}

fn number(least: u64, greatest: u64, standard: u64) -> Kind
    ensures { result ≡ Kind.Number least greatest standard }
{
    Kind::Number {
        least,
        greatest,
        standard,
    }
}

fn limit(least: u64, greatest: u64) -> Kind
    ensures { result ≡ Kind.Limit least greatest }
{
    Kind::Limit { least, greatest }
}

impl Choice {
    const ALL: [Choice; 13] = [
        Choice::Hops,
        Choice::Flows,
        Choice::Cells,
        Choice::Frags,
        Choice::FragCells,
        Choice::Idle,
        Choice::FragTime,
        Choice::Seed,
        Choice::Quota,
        Choice::Mtu,
        Choice::Inside,
        Choice::Offload,
        Choice::Both,
    ];

    /// Returns the option's entry of the table.
    pub fn row<'a>(self) -> Row<'a>
        ensures name { result.name.now ≡ name_of self }
        ensures kind { result.kind ≡ kind_of self }
    {
        match self {
            Choice::Hops => Row::new("hops", number(0, 254, 30)),
            Choice::Flows => Row::new("flows", number(1, 65_536, 4_096)),
            Choice::Cells => Row::new("cells", number(1, MAX_CELLS, 65_536)),
            Choice::Frags => Row::new("frags", number(1, 4_096, 256)),
            Choice::FragCells => Row::new("frag-cells", number(256, 65_536, 4_096)),
            Choice::Idle => Row::new("idle", number(1, 1_000_000, 3_600)),
            Choice::FragTime => Row::new("frag-time", number(1, 3_600, 30)),
            Choice::Seed => Row::new("seed", number(0, u64::MAX, 0)),
            Choice::Quota => Row::new("quota", limit(1, MAX_CELLS)),
            Choice::Mtu => Row::new("mtu", limit(576, MAX_PACKET as u64)),
            Choice::Inside => Row::new("inside", Kind::Name),
            Choice::Offload => Row::new("offload", Kind::Alone),
            Choice::Both => Row::new("both", Kind::Alone),
        }
    }

    /// Returns the default number of the option.
    pub fn standard(self) -> u64
        requires { HasStandard (kind_of self) }
        ensures exact { result ≡ standard_of_kind (kind_of self) }
        ensures in_range { IsInRange (kind_of self) result }
    {
        standard_of(self.row().kind)
    }

    /// Returns all options, in the order of the table.
    pub fn all() -> [Choice; 13]
        ensures { result ≡ all_choices }
    {
        Choice::ALL
    }
}

// Returns the default number of an option of this kind.
fn standard_of(kind: Kind) -> u64
    requires { HasStandard kind }
    ensures exact { result ≡ standard_of_kind kind }
    ensures in_range { IsInRange kind result }
{
    match kind {
        Kind::Number {
            least: _,
            greatest: _,
            standard,
        } => standard,
        _ => 0,
    }
}
