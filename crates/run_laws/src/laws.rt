//! Laws of what a finished run wrote.
ghost use Rattle.run_laws.specs.AuditedRuns.{RunsAreAuditedYes};
ghost use Rattle.run_laws.specs.ViewEvidence.{ViewsFindEvidence};
ghost use Rattle.run_laws.specs.MeetingReceivers.{ReceiversOfRunsMeet};
ghost use Rattle.run_laws.specs.CaptureReadBack.{RunsAreReadBack};
ghost use Rattle.run_laws.specs.ViewedRuns.{RunsAreViewedWhole};

use both_sides::laws::{one_puts_its_trace, two_put_their_mirror};
use bridge_run::laws::unchanged_captures_were_read_so;
use emit_mtu::laws::{plain_packets_go_out, segments_fit};
use norm_engine::laws::{
    items_are_counted, items_go_out, lawful_keeps_clean, unbounded_is_written_whole,
};
use pcap_file::laws::{head_is_read_back, record_is_read_back};
use receiver_model::laws::parts_meet;
use run_audit::laws::{answers_are_one, entries_fit, items_are_written_in_order, written_is_yes};
use run_view::laws::{conditions_choose, items_are_one, runs_are_viewed};

/// Proves that what a finished run wrote to its capture is read back as the head and one record for
/// each frame, in order.
pub fn runs_are_read_back()
    ensures { RunsAreReadBack }
{
    head_is_read_back();
    record_is_read_back();
}

/// Proves that an audit of the capture and the report of a finished run by one engine without an
/// MTU can answer only `yes`, if the report is not longer than an audit reads.
pub fn runs_are_audited_yes()
    ensures { RunsAreAuditedYes }
{
    unbounded_is_written_whole();
    one_puts_its_trace();
    items_are_counted();
    items_are_written_in_order();
    written_is_yes();
    answers_are_one();
}

/// Proves that the capture that a finished run read, and the capture and the report that it wrote,
/// are those of one list of items. So a view of them, if its words are accepted and nothing fails,
/// returns 0, 10 or 11, or 8 if memory could not be allocated. All options are covered. The items
/// have the records of the run, without the sides that `--inside` gives them.
pub fn runs_are_viewed_whole()
    ensures { RunsAreViewedWhole }
{
    runs_are_read_back();
    lawful_keeps_clean();
    items_are_counted();
    items_go_out();
    entries_fit();
    plain_packets_go_out();
    segments_fit();
    two_put_their_mirror();
    runs_are_viewed();
}

/// Proves what evidence means for each run by one engine without an MTU. Let a view of its three
/// files with `--evidence`, and without conditions other than `--host`, end with status 0. Then
/// each record that it is about and that does not go outwards was written as it was recorded. So
/// hosts that had the recorded packets, if they are receivers of the family, read what receivers of
/// the written ones read.
pub fn views_find_evidence()
    ensures { ViewsFindEvidence }
{
    runs_are_read_back();
    lawful_keeps_clean();
    items_are_counted();
    items_go_out();
    entries_fit();
    plain_packets_go_out();
    segments_fit();
    two_put_their_mirror();
    runs_are_viewed();
    items_are_one();
    conditions_choose();
    unchanged_captures_were_read_so();
}

/// Proves that any two receivers of what a finished run wrote inwards in an era have the same octet
/// wherever both have read, from whichever offsets they start. None has one at or past the offset
/// at which the other has ended, and two that have ended did so at one offset.
pub fn receivers_of_runs_meet()
    ensures { ReceiversOfRunsMeet }
{
    parts_meet();
}
