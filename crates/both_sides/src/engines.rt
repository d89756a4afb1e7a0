//! One engine, or two if both sides are protected.
ghost use Rattle.std.specs.Prelude.{◌≡◌, IfOk};
ghost use Rattle.wire_base.specs.declared.address.Link.TheVariants.{Raw};
ghost use Rattle.norm_settings.specs.SettingValues.{plain_settings, AreInRange, GoTogether};
ghost use Rattle.both_sides.specs.RelayState.{StandsForRun, link_of, settings_of};
ghost use Rattle.both_sides.specs.RunTraces.{empty_run};

use crate::Both;
use edge_io::NoMemory;
use norm_engine::Engine;
use norm_settings::Settings;
use std::alloc::Global;
use wire_base::Link;

/// Engines of a run.
#[derive(Drop)]
pub enum Engines {
    One(Engine),
    Two(Both),
}

impl Engines {
    /// Creates the engines for these settings, for records of a raw link, before the first of them.
    pub fn open(alloc: Global, settings: Settings) -> Result<Engines, NoMemory>
        requires range { AreInRange (plain_settings settings) }
        requires together { GoTogether (plain_settings settings) }
        ensures settings { IfOk result (λ engines. settings_of engines ≡ plain_settings settings) }
        ensures link { IfOk result (λ engines. link_of engines ≡ Raw) }
        ensures stands { IfOk result (λ engines. StandsForRun engines (empty_run settings.both)) }
    {
        if settings.both {
            let both = Both::open(alloc, settings)?;
            return Ok(Engines::Two(both));
        }
        let engine = Engine::open(alloc, settings)?;
        Ok(Engines::One(engine))
    }
}
