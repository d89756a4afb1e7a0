//! Laws over the definitions alone.
ghost use Rattle.tcp_codec.specs.CleanedOptions.{CleansOctets, CleansOnce, KeepsScale, LosesScale, StaysWellFormed};
ghost use Rattle.tcp_codec.specs.MendedSegment.{MendedSayTheSame};
ghost use Rattle.tcp_codec.specs.WrittenSegment.{AreReadBack};

/// States that cleaning cleaned options again changes nothing, and that well-formed options stay
/// well formed. Each octet before the end option is unchanged or a no-operation, and each from
/// there on 0.
pub fn options_are_cleaned()
    ensures once { CleansOnce }
    ensures formed { StaysWellFormed }
    ensures octets { CleansOctets }
{}

/// States that cleaning keeps the window scale of a SYN.
pub fn cleaned_keep_the_scale()
    ensures { KeepsScale }
{}

/// States that cleaning removes the window scale of a segment without SYN.
pub fn cleaned_lose_the_scale()
    ensures { LosesScale }
{}

/// States that parsing a written segment returns the parts that it was written from.
pub fn segments_are_read_back()
    ensures { AreReadBack }
{}

/// States that rewriting the checksum of a segment changes neither its ports, sequence and
/// acknowledgment numbers, flags, window, options and payload, nor its length.
pub fn mended_say_the_same()
    ensures { MendedSayTheSame }
{}
