//! The law of all that was written so far.
ghost use Rattle.live_norm.specs.Live.{RepresentedIsNormal};

use norm_engine::laws::{
    items_are_counted, lawful_invents_nothing, lawful_is_written_soundly, written_clashes_are_real,
    written_reads_records,
};

/// Proves of each history that is represented that all that was written of it keeps what a finished
/// run promises.
pub fn represented_is_normal()
    ensures { RepresentedIsNormal }
{
    items_are_counted();
    lawful_is_written_soundly();
    lawful_invents_nothing();
    written_clashes_are_real();
    written_reads_records();
}
