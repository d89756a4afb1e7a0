//! Laws over the definitions alone.
ghost use Rattle.wire_base.specs.OptionLaws.{AreTheArea, FollowEachOther, WorkedAreas};

/// States that the list of the options of an area has all octets of the area, and that each option
/// begins where the one before it ends. The definitions over this list give the results of cases
/// worked by hand.
pub fn options_are_listed()
    ensures octets { AreTheArea }
    ensures places { FollowEachOther }
    ensures rows { WorkedAreas }
{}
