//! Laws over definitions.
ghost use Rattle.pcap_file.specs.FileLaws.{HeadIsReadBack, RecordIsReadBack, CaptureIsOne, FlawIsOne, FlawExcludesEnd, EachFileEnds};

/// States that what `write_head` appends is read as that head.
pub fn head_is_read_back()
    ensures { HeadIsReadBack }
{}

/// States that what `write_record` appends is read as that record.
pub fn record_is_read_back()
    ensures { RecordIsReadBack }
{}

/// States that a capture has one head and one list of records.
pub fn capture_is_one()
    ensures { CaptureIsOne }
{}

/// States that octets have at most one first flaw, at one offset.
pub fn flaw_is_one()
    ensures { FlawIsOne }
{}

/// States that octets with a first flaw are no capture.
pub fn flaw_excludes_end()
    ensures { FlawExcludesEnd }
{}

/// States that any octets are a capture or have a first flaw.
pub fn each_file_ends()
    ensures { EachFileEnds }
{}
