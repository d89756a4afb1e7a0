//! Hosts of the receiver family.

/// Host behind the bridge, `distance` routers away. A packet reaches it if its TTL is above that
/// number, and the host reads a plain packet by its fields (this project's profile).
#[derive(Clone, Copy, Debug, PartialEq, Eq)]
pub struct Member {
    pub distance: u8,
}
