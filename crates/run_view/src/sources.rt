//! The records of the input and the frames of the output, read one by one.
ghost use Rattle.std.specs.Prelude.{◌≡◌, ◌≤◌, ℕ, true, List, [], length, IfErr, IfOk, IfSome};
ghost use Rattle.std.specs.declared.option.Option.{Option};
ghost use Rattle.edge_io.specs.working.FaultCounts.{RisesOnlyAtErr};
ghost use Rattle.pcap_file.specs.Records.{Packet};
ghost use Rattle.pcap_file.specs.declared.head.Head.{Head};
ghost use Rattle.capture_input.specs.ReaderState.{is_open_in};
ghost use Rattle.run_view.specs.working.StopCauses as spec;
ghost use Rattle.run_view.specs.working.ReaderPositions.{InputAt, InputOpened, InputReads, InputStop, IsBehind, OutputAt, OutputHeadStop, OutputReads, OutputStop};
ghost use Rattle.wire_base.specs.declared.limits.TheConstants.{MAX_CAPTURED};

use crate::Stop;
use capture_input::laws::whole_is_input;
use capture_input::{Input, InputFault, OpenFault};
use edge_io::Source;
use pcap_file::{Reader, Record, read_head};
use wire_base::Link;

/// Reads the head of the input.
pub(crate) fn open_input<I: Source>(source: &mut I) -> Result<Input, Stop>
    ensures opened { IfOk result (λ input. InputOpened input (I.left source.old) (I.left source.new)) }
    ensures stops { IfErr result (InputStop (I.left source.old) (I.fault_count source.old) (I.fault_count source.new)) }
    ensures faults { RisesOnlyAtErr (I.fault_count source.old) (I.fault_count source.new) result }
{
    match Input::open(None, source) {
        Ok(input) => Ok(input),
        Err(stop) => Err(input_stop(stop.fault, stop.offset)),
    }
}

/// Reads the next record of the input.
#[inline(always)]
pub(crate) fn next_record<'a, I: Source>(
    input: &mut Input,
    source: &mut I,
    buffer: &'a mut [u8],
) -> Result<Option<Record<'a>>, Stop>
    requires open { is_open_in input.old ≡ true }
    requires behind { IsBehind input.old }
    requires room { MAX_CAPTURED ≤ length buffer.old }
    ensures reads { IfOk result (λ given. (head : Head) (all : Option (List ℕ)) (packets : List Packet) →
        InputAt input.old head all (I.left source.old) packets → InputReads input.new head all (I.left source.new) packets given) }
    ensures goes_on { IfOk result (λ given. IfSome given (λ _. is_open_in input.new ≡ true)) }
    ensures behind { IfOk result (λ given. IfSome given (λ _. IsBehind input.new)) }
    ensures stops { IfErr result (λ stop. (head : Head) (all : Option (List ℕ)) (packets : List Packet) →
        InputAt input.old head all (I.left source.old) packets →
        InputStop all (I.fault_count source.old) (I.fault_count source.new) stop) }
    ensures faults { RisesOnlyAtErr (I.fault_count source.old) (I.fault_count source.new) result }
{
    whole_is_input();
    match input.next(source, buffer) {
        Ok(given) => Ok(given),
        Err(fault) => Err(input_stop(fault, input.offset())),
    }
}

// Returns the stop at a fault of the input.
fn input_stop(fault: InputFault, offset: u64) -> Stop
    ensures { result ≡ spec.input_stop fault offset }
{
    match fault {
        InputFault::ReadFault => Stop::Unread,
        InputFault::Cut
        | InputFault::Magic
        | InputFault::Version
        | InputFault::Link
        | InputFault::Block
        | InputFault::Long
        | InputFault::Many => Stop::Input { fault, offset },
    }
}

/// Reads the head of the output, which has the link of the input.
pub(crate) fn open_output<O: Source>(link: Link, source: &mut O) -> Result<Reader, Stop>
    ensures opened { IfOk result (λ reader. OutputAt reader reader.head (O.left source.old) (O.left source.new) []) }
    ensures goes_on { IfOk result (λ reader. reader.is_open ≡ true) }
    ensures same { IfOk result (λ reader. reader.head.link ≡ link) }
    ensures stops { IfErr result (OutputHeadStop link (O.left source.old) (O.fault_count source.old) (O.fault_count source.new)) }
    ensures faults { RisesOnlyAtErr (O.fault_count source.old) (O.fault_count source.new) result }
{
    match read_head(source) {
        Ok(head) => {
            if head.link == link {
                return Ok(Reader::new(head));
            }
            Err(Stop::Output {
                fault: InputFault::Link,
                offset: 0,
            })
        }
        Err(fault) => {
            let stop = OpenFault::from(fault);
            Err(output_stop(stop.fault, stop.offset))
        }
    }
}

/// Reads the next frame of the output.
pub(crate) fn next_frame<'a, O: Source>(
    reader: &mut Reader,
    source: &mut O,
    buffer: &'a mut [u8],
) -> Result<Option<Record<'a>>, Stop>
    requires open { reader.old.is_open ≡ true }
    requires room { MAX_CAPTURED ≤ length buffer.old }
    ensures reads { IfOk result (λ given. (head : Head) (all : Option (List ℕ)) (frames : List Packet) →
        OutputAt reader.old head all (O.left source.old) frames → OutputReads reader.new head all (O.left source.new) frames given) }
    ensures goes_on { IfOk result (λ given. IfSome given (λ _. reader.new.is_open ≡ true)) }
    ensures stops { IfErr result (λ stop. (head : Head) (all : Option (List ℕ)) (frames : List Packet) →
        OutputAt reader.old head all (O.left source.old) frames →
        OutputStop all (O.fault_count source.old) (O.fault_count source.new) stop) }
    ensures faults { RisesOnlyAtErr (O.fault_count source.old) (O.fault_count source.new) result }
{
    match reader.next(source, buffer) {
        Ok(given) => Ok(given),
        Err(fault) => Err(output_stop(InputFault::from(fault), reader.offset())),
    }
}

// Returns the stop at a fault of the output.
fn output_stop(fault: InputFault, offset: u64) -> Stop
    ensures { result ≡ spec.output_stop fault offset }
{
    match fault {
        InputFault::ReadFault => Stop::Unread,
        InputFault::Cut
        | InputFault::Magic
        | InputFault::Version
        | InputFault::Link
        | InputFault::Block
        | InputFault::Long
        | InputFault::Many => Stop::Output { fault, offset },
    }
}
