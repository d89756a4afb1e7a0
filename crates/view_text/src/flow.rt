//! What the headers of a packet say, as values.

use crate::value::{Value, Word, number_if};
use frame_view::{Flow, IcmpMarks, Ports, TcpMarks};

// Returns the ports of a flow, where it has them.
fn ports_in(flow: Option<Flow>) -> Option<Ports> {
    flow?.ports
}

// Returns the marks of a flow's segment, where there is one.
fn marks_of(flow: Option<Flow>) -> Option<TcpMarks> {
    flow?.tcp
}

// Returns the marks of a flow's ICMP message, where there is one.
fn icmp_in(flow: Option<Flow>) -> Option<IcmpMarks> {
    flow?.icmp
}

/// Returns the source address.
pub(crate) fn source_of(flow: Option<Flow>) -> Value<'static> {
    flow.map_or(Value::Absent, |flow| Value::Word(Word::Address(flow.src)))
}

/// Returns the destination address.
pub(crate) fn destination_of(flow: Option<Flow>) -> Value<'static> {
    flow.map_or(Value::Absent, |flow| Value::Word(Word::Address(flow.dst)))
}

/// Returns the port that a packet comes from.
pub(crate) fn source_port(flow: Option<Flow>) -> Value<'static> {
    number_if(ports_in(flow).map(|ports| u64::from(ports.src)))
}

/// Returns the port that a packet goes to.
pub(crate) fn destination_port(flow: Option<Flow>) -> Value<'static> {
    number_if(ports_in(flow).map(|ports| u64::from(ports.dst)))
}

/// Returns the protocol.
pub(crate) fn proto_of(flow: Option<Flow>) -> Value<'static> {
    flow.map_or(
        Value::Absent,
        |flow| Value::Word(Word::Protocol(flow.protocol)),
    )
}

/// Returns the flags of a segment.
pub(crate) fn flags_of(flow: Option<Flow>) -> Value<'static> {
    marks_of(flow).map_or(
        Value::Absent,
        |marks| Value::Word(Word::Flags(u32::from(marks.flags.0))),
    )
}

/// Returns the sequence number of a segment.
pub(crate) fn seq_of(flow: Option<Flow>) -> Value<'static> {
    number_if(marks_of(flow).map(|marks| u64::from(marks.seq)))
}

/// Returns the acknowledgment of a segment.
pub(crate) fn ack_of(flow: Option<Flow>) -> Value<'static> {
    number_if(marks_of(flow).map(|marks| u64::from(marks.ack)))
}

/// Returns the window in the header of a segment.
pub(crate) fn window_of(flow: Option<Flow>) -> Value<'static> {
    number_if(marks_of(flow).map(|marks| u64::from(marks.window)))
}

/// Returns the type of an ICMP message.
pub(crate) fn icmp_type_of(flow: Option<Flow>) -> Value<'static> {
    number_if(icmp_in(flow).map(|marks| u64::from(marks.kind)))
}

/// Returns the code of an ICMP message.
pub(crate) fn icmp_code_of(flow: Option<Flow>) -> Value<'static> {
    number_if(icmp_in(flow).map(|marks| u64::from(marks.code)))
}

/// Returns the identification of a packet.
pub(crate) fn id_of(flow: Option<Flow>) -> Value<'static> {
    number_if(flow.map(|flow| u64::from(flow.identification)))
}

/// Returns the fragment offset of a packet.
pub(crate) fn offset_of(flow: Option<Flow>) -> Value<'static> {
    number_if(flow.map(|flow| u64::from(flow.offset)))
}

/// Returns whether more fragments follow a packet.
pub(crate) fn more_of(flow: Option<Flow>) -> Value<'static> {
    flow.map_or(Value::Absent, |flow| Value::Mark(flow.more))
}
