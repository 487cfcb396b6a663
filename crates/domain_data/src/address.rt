//! Addresses of hosts.
ghost use Rattle.std.specs.Prelude.{◌≡◌};

use crate::fields::FieldsData;
use domain_wire::net::{Ipv4Addr, Ipv6Addr};

/// An IPv4 address (RFC 1035, 3.4.1).
pub type A = FieldsData<1, Ipv4Addr>;

/// An IPv6 address (RFC 3596, 2.2).
pub type Aaaa = FieldsData<28, Ipv6Addr>;

impl A {
    ghost use Rattle.domain_data.specs.Views.{fields_of, type_of};

    /// Data that is this address.
    pub fn new(addr: Ipv4Addr) -> A
        ensures addr { fields_of result ≡ addr }
        ensures of_type { type_of result ≡ 1 }
    {
        FieldsData { fields: addr }
    }

    /// The address.
    pub fn addr(&self) -> Ipv4Addr
        ensures { result ≡ fields_of self.now }
    {
        self.fields
    }
}

impl Aaaa {
    ghost use Rattle.domain_data.specs.Views.{fields_of, type_of};

    /// Data that is this address.
    pub fn new(addr: Ipv6Addr) -> Aaaa
        ensures addr { fields_of result ≡ addr }
        ensures of_type { type_of result ≡ 28 }
    {
        FieldsData { fields: addr }
    }

    /// The address.
    pub fn addr(&self) -> Ipv6Addr
        ensures { result ≡ fields_of self.now }
    {
        self.fields
    }
}
