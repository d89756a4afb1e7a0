//! The settings of a run.
ghost use Rattle.std.specs.Prelude.{◌≡◌, option_map};
ghost use Rattle.norm_settings.specs.SettingValues.{plain_settings, standard};

use crate::Choice;
use arrayvec::ArrayVec;
use wire_base::Prefix;

/// The settings of a run.
#[derive(Debug, Drop)]
pub struct Settings {
    /// The prefixes of the trusted addresses; each has at most 32 bits.
    pub prefixes: ArrayVec<Prefix, 16>,
    /// Maximum number of routers between norm and a trusted host, from 0 to 254.
    pub hops: u8,
    /// Maximum number of live eras, from 1 to 65,536.
    pub flows: u32,
    /// Number of cells of 256 octets for streams, from 1 to 262,144.
    pub cells: u32,
    /// Maximum number of datagrams with held fragments, from 1 to 4,096.
    pub frags: u32,
    /// Number of cells of 256 octets for fragments, from 256 to 65,536.
    pub frag_cells: u32,
    /// Seconds until an idle era ends, from 1 to 1,000,000.
    pub idle: u32,
    /// Seconds until the held fragments of a datagram are discarded, from 1 to 3,600.
    pub frag_time: u32,
    /// The seed of the tables' hashes.
    pub seed: u64,
    /// Whether wrong checksums of outbound packets are rewritten.
    pub offload: bool,
    /// Maximum number of cells of 256 octets that one era may hold, from 1 to 262,144; None for no
    /// limit.
    pub quota: Option<u32>,
    /// Whether a second engine, with exchanged sides, reads the frames that the first writes.
    pub both: bool,
    /// Whether the addresses in no prefix are the trusted ones. No word of the command line sets
    /// it.
    pub mirror: bool,
    /// The name of the inside interface, of at most 64 octets.
    pub inside: Option<ArrayVec<u8, 64>>,
    /// Maximum length of a written packet in octets, from 576 to 65,535; None for no limit.
    pub mtu: Option<u16>,
}

impl Settings {
    /// Returns the settings of these prefixes, with the default values of the table of options.
    pub fn standard(prefixes: ArrayVec<Prefix, 16>) -> Settings
        ensures { plain_settings result ≡ standard prefixes.items }
    {
        Settings {
            prefixes,
            hops: Choice::Hops.standard() as u8,
            flows: Choice::Flows.standard() as u32,
            cells: Choice::Cells.standard() as u32,
            frags: Choice::Frags.standard() as u32,
            frag_cells: Choice::FragCells.standard() as u32,
            idle: Choice::Idle.standard() as u32,
            frag_time: Choice::FragTime.standard() as u32,
            seed: Choice::Seed.standard(),
            offload: false,
            quota: None,
            both: false,
            mirror: false,
            inside: None,
            mtu: None,
        }
    }

    /// Returns a copy of the settings; allocates no memory.
    pub fn copied(&self) -> Settings
        ensures { plain_settings result ≡ plain_settings self.now }
    {
        let mut prefixes = ArrayVec::new();
        prefixes.try_extend_from_slice(&self.prefixes).unwrap();
        let inside = copied_name(&self.inside);
        Settings {
            prefixes,
            hops: self.hops,
            flows: self.flows,
            cells: self.cells,
            frags: self.frags,
            frag_cells: self.frag_cells,
            idle: self.idle,
            frag_time: self.frag_time,
            seed: self.seed,
            offload: self.offload,
            quota: self.quota,
            both: self.both,
            mirror: self.mirror,
            inside,
            mtu: self.mtu,
        }
    }
}

// Returns a copy of the name.
fn copied_name(name: &Option<ArrayVec<u8, 64>>) -> Option<ArrayVec<u8, 64>>
    ensures { option_map (λ octets. octets.items) result ≡ option_map (λ octets. octets.items) name.now }
{
    let Some(name) = name else {
        return None;
    };
    let mut copy = ArrayVec::new();
    copy.try_extend_from_slice(name).unwrap();
    Some(copy)
}
