//! Laws of the audit.
ghost use Rattle.run_audit.specs.AnswerMeanings.{AnswersAreOne};
ghost use Rattle.run_audit.specs.EmittedFrames.{EmittedHasNoFault};
ghost use Rattle.run_audit.specs.LawfulFiles.{EntriesFit, ItemsAreWrittenInOrder, LawfulHasNoFault, LawfulIsYes, ResetsAreLast, WrittenIsYes};
ghost use Rattle.run_audit.specs.SoundFiles.{EachIsReadFromBase, FaultlessAgrees, FaultlessMissesNothing, FaultlessReadsOneStream};

use era_state::laws::{
    acked_grows_near, emitted_is_told, emitted_joins, emitted_octets_are_places,
    inwards_acknowledge_nothing, offsets_are_read, silence_changes_nothing, written_remains,
};
use ip_rules::laws::datagrams_are_known;
use norm_engine::laws::{
    items_are_certain, items_are_counted, items_go_out, lawful_calls_are_made, lawful_is_emitted,
};
use pcap_file::laws::{head_is_read_back, record_is_read_back};
use receiver_model::laws::{members_agree, members_read_parts, monitors_miss_nothing};
use tcp_codec::laws::mended_say_the_same;
use tcp_norm::laws::{
    calls_are_emitted, lives_are_last, packets_are_its_own, packets_are_plain, probes_are_silent,
};

/// States that the segments of an era that are counted have the base of all its segments, and that
/// they acknowledge nothing before a base is fixed.
pub fn eras_are_read_from_the_base()
    ensures { EachIsReadFromBase }
{}

/// States that all receivers agree on the frames that went inwards in each era, whoever wrote them,
/// if no frame has a fault.
pub fn faultless_agrees()
    ensures { FaultlessAgrees }
{
    offsets_are_read();
    inwards_acknowledge_nothing();
    written_remains();
    emitted_joins();
    emitted_is_told();
    silence_changes_nothing();
    members_agree();
}

/// States that in each era every receiver reads a part of one stream of these frames, from
/// whichever offset it starts, by the same premise.
pub fn faultless_reads_one_stream()
    ensures { FaultlessReadsOneStream }
{
    offsets_are_read();
    inwards_acknowledge_nothing();
    written_remains();
    emitted_joins();
    emitted_is_told();
    silence_changes_nothing();
    members_read_parts();
}

/// States that before the first of these frames and after each a monitor which heard those so far
/// in time misses nothing in each era, by the same premise.
pub fn faultless_misses_nothing()
    ensures { FaultlessMissesNothing }
{
    offsets_are_read();
    inwards_acknowledge_nothing();
    written_remains();
    emitted_joins();
    emitted_is_told();
    silence_changes_nothing();
    monitors_miss_nothing();
}

/// States that if an answer holds whose sources have known octets, no other answer holds, except
/// that a source failed or that memory could not be allocated.
pub fn answers_are_one()
    ensures { AnswersAreOne }
{}

/// States that frames whose segments are emitted, each after those before it, have no fault;
/// between them there may be frames without SYN, FIN and octets. It requires that in no era a
/// segment follows one that acknowledges before the base is fixed.
pub fn emitted_has_no_fault()
    ensures { EmittedHasNoFault }
{
    offsets_are_read();
    inwards_acknowledge_nothing();
    written_remains();
    emitted_joins();
    emitted_is_told();
    emitted_octets_are_places();
    silence_changes_nothing();
}

/// States that in each era of a lawful trace nothing is written after an outbound RST.
pub fn resets_are_last()
    ensures { ResetsAreLast }
{
    datagrams_are_known();
    packets_are_its_own();
    packets_are_plain();
    probes_are_silent();
    mended_say_the_same();
    lawful_calls_are_made();
}

/// States that the frames of a lawful trace are those of its entries, and that none of them has a
/// fault. A run with `--mtu` cuts these frames before it writes them, so it is not covered.
pub fn lawful_has_no_fault()
    ensures { LawfulHasNoFault }
{
    items_are_counted();
    items_are_certain();
    lawful_is_emitted();
    resets_are_last();
    emitted_has_no_fault();
}

/// States that the answer `yes` applies to a capture of the frames of a lawful trace and a finished
/// report of its entries.
pub fn lawful_is_yes()
    ensures { LawfulIsYes }
{
    lawful_has_no_fault();
}

/// States that the written capture of a trace has the records of its items' frames in the order of
/// the items.
pub fn items_are_written_in_order()
    ensures { ItemsAreWrittenInOrder }
{}

/// States that the numbers of the entries of a lawful trace are in the ranges of a report's text,
/// if frames and records are fewer than 2^32.
pub fn entries_fit()
    ensures { EntriesFit }
{
    items_are_counted();
    items_go_out();
    lawful_calls_are_made();
    lives_are_last();
    calls_are_emitted();
    acked_grows_near();
}

/// States that the answer `yes` applies to the two files written for a lawful trace, if the trace
/// fits their formats.
pub fn written_is_yes()
    ensures { WrittenIsYes }
{
    head_is_read_back();
    record_is_read_back();
    items_are_counted();
    entries_fit();
    lawful_is_yes();
}
