//! Laws over the definitions alone.
ghost use Rattle.capture_input.specs.InputLaws.{InputIsOne, BeginningIsOne, FaultIsOne, FaultExcludesEnd, EachInputEnds, HeadStopsAreFaults, HeadStopsLeaveNone, InputHasAll, StopsAreFaults, StopsLeaveNone, WholeIsInput};

/// States that an input has one head and one list of records.
pub fn input_is_one()
    ensures { InputIsOne }
{}

/// States that octets begin in one way with a given number of records and nothing after the newest.
pub fn beginning_is_one()
    ensures { BeginningIsOne }
{}

/// States that octets have at most one first fault, at one offset.
pub fn fault_is_one()
    ensures { FaultIsOne }
{}

/// States that octets with a first fault are not an input.
pub fn fault_excludes_end()
    ensures { FaultExcludesEnd }
{}

/// States that all octets are an input or have a first fault.
pub fn each_input_ends()
    ensures { EachInputEnds }
{}

/// States that a fault at which opening fails is the first fault of the octets, unless the source
/// failed.
pub fn head_stops_are_faults()
    ensures { HeadStopsAreFaults }
{}

/// States that a fault at which reading fails is the first fault of the octets, unless the source
/// failed.
pub fn stops_are_faults()
    ensures { StopsAreFaults }
{}

/// States that octets read to their end are an input.
pub fn whole_is_input()
    ensures { WholeIsInput }
{}

/// States that nothing more can be read after the end, or after the first fault: octets begin with
/// no more records than were read before it.
pub fn nothing_is_left()
    ensures input { InputHasAll }
    ensures head { HeadStopsLeaveNone }
    ensures stops { StopsLeaveNone }
{}
