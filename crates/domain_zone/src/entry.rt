//! Records on their way into a zone.

use crate::names::Owner;

/// A record of the zone's class.
#[derive(Drop)]
pub(crate) struct Entry {
    /// Who owns it.
    pub owner: Owner,
    /// Its type.
    pub rtype: u16,
    /// How many seconds it may be kept.
    pub ttl: u32,
    /// Its data, in which names aren't compressed.
    pub octets: Vec<u8>,
}
