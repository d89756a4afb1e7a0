//! The eras that a report names.
ghost use Rattle.std.specs.Prelude.{◌≡◌, ◌++◌, ◌∷◌, [], map, nat_eq, IfOk};
ghost use Rattle.std.specs.Option.{option_to_list};
ghost use Rattle.indexmap.specs.IndexMap.{keys};
ghost use Rattle.rule_book.specs.Entries.{plain};
ghost use Rattle.run_audit.specs.working.EraTable.{AllStandFor};
ghost use Rattle.run_audit.specs.NamedEras as spec;

use crate::ledger::Ledger;
use edge_io::NoMemory;
use indexmap::IndexMap;
use rule_book::{Ended, Entry};
use std::alloc::Global;

/// The state of each era, by the number of the era.
pub(crate) type Eras = IndexMap<u32, Ledger>;

/// Returns the eras that the entries name after `@`, `+` or `-`, in the order of their first names,
/// without segments.
pub(crate) fn eras_named(alloc: Global, entries: &[Entry]) -> Result<Eras, NoMemory>
    ensures named { IfOk result (λ eras. keys eras ≡ spec.eras_named (map plain entries.now)) }
    ensures fresh { IfOk result (λ eras. AllStandFor eras []) }
{
    let mut eras = IndexMap::new(alloc);
    for entry in entries {
        name_all(alloc, &mut eras, entry)?;
    }
    Ok(eras)
}

// Adds the eras that an entry names.
fn name_all(alloc: Global, eras: &mut Eras, entry: &Entry) -> Result<(), NoMemory>
    ensures named { IfOk result (λ _. keys eras.new ≡ spec.all_noted (keys eras.old) (spec.named_in (plain entry.now))) }
    ensures fresh { IfOk result (λ _. AllStandFor eras.old [] → AllStandFor eras.new []) }
{
    name_one(alloc, eras, entry.era)?;
    name_one(alloc, eras, entry.begun)?;
    name_ended(alloc, eras, entry.ended.as_slice())?;
    Ok(())
}

// Adds the eras that ended.
fn name_ended(alloc: Global, eras: &mut Eras, ended: &[Ended]) -> Result<(), NoMemory>
    ensures named { IfOk result (λ _. keys eras.new ≡ spec.all_noted (keys eras.old) (spec.numbers_of ended.now)) }
    ensures fresh { IfOk result (λ _. AllStandFor eras.old [] → AllStandFor eras.new []) }
{
    for one in ended {
        name(alloc, eras, one.era)?;
    }
    Ok(())
}

// Adds an era, if there is one.
fn name_one(alloc: Global, eras: &mut Eras, era: Option<u32>) -> Result<(), NoMemory>
    ensures named { IfOk result (λ _. keys eras.new ≡ spec.all_noted (keys eras.old) (option_to_list era)) }
    ensures fresh { IfOk result (λ _. AllStandFor eras.old [] → AllStandFor eras.new []) }
{
    if let Some(era) = era {
        name(alloc, eras, era)?;
    }
    Ok(())
}

// Adds an era, unless it is present.
fn name(alloc: Global, eras: &mut Eras, era: u32) -> Result<(), NoMemory>
    ensures named { IfOk result (λ _. keys eras.new ≡ spec.noted (keys eras.old) era) }
    ensures fresh { IfOk result (λ _. AllStandFor eras.old [] → AllStandFor eras.new []) }
{
    if eras.contains_key(&era) {
        return Ok(());
    }
    eras.insert(era, Ledger::new(alloc))?;
    Ok(())
}
