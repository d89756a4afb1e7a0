//! Laws over the definitions alone.
ghost use Rattle.frame_view.specs.ReadingLaws.{NothingDiffersIfEqual, SayTheSameIfEqual};

/// States that two frames say the same in each field exactly if they have the same octets, so
/// nothing differs between a record and a frame exactly if their octets are the same.
pub fn fields_determine_frames()
    ensures same { SayTheSameIfEqual }
    ensures nothing { NothingDiffersIfEqual }
{}
