//! What fields of record data write to a hasher.
ghost use Rattle.std.specs.Prelude.{◌≡◌, true};
ghost use Rattle.domain_fields.specs.Orders.{hashed};

use crate::field::DataField;
use crate::name_field::{DataName, NameField, UncompressedNameField};
use crate::sequence::Sequence;
use domain_wire::net::{Ipv4Addr, Ipv6Addr};
use std::hash::Hasher;

/// Writes octets to the hasher, each as one `u8`.
pub fn hash_octets<H: Hasher>(octets: &[u8], state: &mut H)
    ensures { state.new ≡ hashed H.write octets.now state.old }
{
    for octet in octets {
        state.write_u8(*octet);
    }
}

/// A field that is hashed as its octets with no name compressed and names in lowercase, so that fields write the same
/// exactly where these octets are the same.
pub trait HashedField: DataField {
    /// Writes these octets to the hasher, each as one `u8`.
    fn hash_field<H: Hasher>(&self, state: &mut H)
        ensures { state.new ≡ hashed H.write (Self.uncompressed self.now true) state.old };
}

impl HashedField for u8 {
    fn hash_field<H: Hasher>(&self, state: &mut H) {
        hash_octets(&self.to_be_bytes(), state);
    }
}

impl HashedField for u16 {
    fn hash_field<H: Hasher>(&self, state: &mut H) {
        hash_octets(&self.to_be_bytes(), state);
    }
}

impl HashedField for u32 {
    fn hash_field<H: Hasher>(&self, state: &mut H) {
        hash_octets(&self.to_be_bytes(), state);
    }
}

impl HashedField for Ipv4Addr {
    fn hash_field<H: Hasher>(&self, state: &mut H) {
        hash_octets(&self.octets(), state);
    }
}

impl HashedField for Ipv6Addr {
    fn hash_field<H: Hasher>(&self, state: &mut H) {
        hash_octets(&self.octets(), state);
    }
}

impl<N: DataName> HashedField for NameField<N> {
    fn hash_field<H: Hasher>(&self, state: &mut H) {
        self.name.hash_lowercase(state);
    }
}

impl<N: DataName> HashedField for UncompressedNameField<N> {
    fn hash_field<H: Hasher>(&self, state: &mut H) {
        self.name.hash_lowercase(state);
    }
}

/// The first field, and then the rest.
impl<A: HashedField, B: HashedField> HashedField for Sequence<A, B> {
    fn hash_field<H: Hasher>(&self, state: &mut H) {
        self.first.hash_field(state);
        self.rest.hash_field(state);
    }
}
