//! The state of a file up to a block.
ghost use Rattle.std.specs.Prelude.{◌≡◌, ◌<◌, length};
ghost use Rattle.pcapng_file.specs.Blocks.{after_found};
ghost use Rattle.pcapng_file.specs.working.BlockFronts.{IsInterface};
ghost use Rattle.pcapng_file.specs.SectionState.{known, counted, no_section};

use crate::content::Found;
use crate::interface::Interface;
use arrayvec::ArrayVec;
use pcap_file::Order;
use wire_base::Link;

/// The state after the blocks read so far.
#[derive(Debug, Drop)]
pub struct Standing {
    /// The byte order of the section; None before the first one.
    pub order: Option<Order>,
    /// The interfaces that the section has described.
    pub interfaces: ArrayVec<Interface, 64>,
    /// The link of the file's first interface.
    pub link: Option<Link>,
    /// The time of the last packet: seconds since 1970, and nanoseconds.
    pub seconds: u32,
    pub fraction: u32,
    /// The number of blocks so far.
    pub blocks: u32,
}

impl Standing {
    /// Returns the state before the first block.
    pub(crate) fn new() -> Standing
        ensures { known result ≡ no_section }
    {
        Standing {
            order: None,
            interfaces: ArrayVec::new(),
            link: None,
            seconds: 0,
            fraction: 0,
            blocks: 0,
        }
    }

    /// Updates the state with one more block, of this byte order.
    pub(crate) fn settle(&mut self, order: Order, found: Found)
        requires few { self.old.blocks < 4294967295 }
        requires room { IsInterface found → length self.old.interfaces.items < 64 }
        ensures { known self.new ≡ after_found (counted (known self.old)) order found }
    {
        self.blocks += 1;
        match found {
            Found::Fails(_) | Found::Passed => {}
            Found::Section => {
                self.order = Some(order);
                self.interfaces.clear();
            }
            Found::Interface(link, interface) => {
                self.link = Some(link);
                self.interfaces.push(interface);
            }
            Found::Packet(stamp) => {
                self.seconds = stamp.seconds;
                self.fraction = stamp.fraction;
            }
        }
    }
}
