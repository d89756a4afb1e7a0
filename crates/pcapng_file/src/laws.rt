//! Laws over the definitions alone.
ghost use Rattle.pcapng_file.specs.FileLaws.{SectionsAreOne, FaultIsOne, FaultExcludesEnd, EachFileEnds, LinkStays, WalksOn};

/// States that octets that are sections are one list of blocks.
pub fn sections_are_one()
    ensures { SectionsAreOne }
{}

/// States that octets have at most one first fault, at one offset.
pub fn fault_is_one()
    ensures { FaultIsOne }
{}

/// States that octets with a first fault are not sections.
pub fn fault_excludes_end()
    ensures { FaultExcludesEnd }
{}

/// States that all octets are sections or have a first fault.
pub fn each_file_ends()
    ensures { EachFileEnds }
{}

/// States that the link of the first interface stays the link of the file.
pub fn link_stays()
    ensures { LinkStays }
{}

/// States that blocks read by several calls are the blocks of one list.
pub fn walks_on()
    ensures { WalksOn }
{}
