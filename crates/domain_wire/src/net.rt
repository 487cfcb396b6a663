//! Addresses of hosts.
ghost use Rattle.std.specs.Prelude.{◌≡◌, [], ◌∷◌};
ghost use Rattle.domain_wire.specs.Addresses.{ipv4_octets, ipv6_octets, ipv4_of, ipv6_of, ipv6_of_segments};
ghost use Rattle.domain_wire.specs.declared.net.IpAddr.TheVariants.{V4, V6};

/// An IPv4 address: 32 bits (RFC 1035, 3.4.1).
#[derive(Clone, Copy, Debug, PartialEq, Eq)]
pub struct Ipv4Addr {
    octets: [u8; 4],
}

impl Ipv4Addr {
    /// The address that is written `a.b.c.d`.
    pub fn new(a: u8, b: u8, c: u8, d: u8) -> Ipv4Addr
        ensures { ipv4_octets result ≡ a ∷ b ∷ c ∷ d ∷ [] }
    {
        Ipv4Addr {
            octets: [a, b, c, d],
        }
    }

    /// The four octets, in the order in which they are written.
    pub fn octets(&self) -> [u8; 4]
        ensures { result ≡ ipv4_octets self.now }
    {
        self.octets
    }
}

impl From<[u8; 4]> for Ipv4Addr {
    ghost from_gives = { λ octets addr. (ipv4_octets addr ≡ octets) × (addr ≡ ipv4_of octets) };

    fn from(octets: [u8; 4]) -> Ipv4Addr {
        Ipv4Addr { octets }
    }
}

/// An IPv6 address: 128 bits (RFC 3596, 2.2).
#[derive(Clone, Copy, Debug, PartialEq, Eq)]
pub struct Ipv6Addr {
    octets: [u8; 16],
}

impl Ipv6Addr {
    /// The address that is written `a:b:c:d:e:f:g:h`: eight segments of 16 bits.
    pub fn new(a: u16, b: u16, c: u16, d: u16, e: u16, f: u16, g: u16, h: u16) -> Ipv6Addr
        ensures { result ≡ ipv6_of_segments (a ∷ b ∷ c ∷ d ∷ e ∷ f ∷ g ∷ h ∷ []) }
    {
        let [a_high, a_low] = a.to_be_bytes();
        let [b_high, b_low] = b.to_be_bytes();
        let [c_high, c_low] = c.to_be_bytes();
        let [d_high, d_low] = d.to_be_bytes();
        let [e_high, e_low] = e.to_be_bytes();
        let [f_high, f_low] = f.to_be_bytes();
        let [g_high, g_low] = g.to_be_bytes();
        let [h_high, h_low] = h.to_be_bytes();
        Ipv6Addr {
            octets: [
                a_high, a_low, b_high, b_low, c_high, c_low, d_high, d_low, e_high, e_low, f_high,
                f_low, g_high, g_low, h_high, h_low,
            ],
        }
    }

    /// The sixteen octets, in the order in which the segments are written.
    pub fn octets(&self) -> [u8; 16]
        ensures { result ≡ ipv6_octets self.now }
    {
        self.octets
    }
}

impl From<[u8; 16]> for Ipv6Addr {
    ghost from_gives = { λ octets addr. (ipv6_octets addr ≡ octets) × (addr ≡ ipv6_of octets) };

    fn from(octets: [u8; 16]) -> Ipv6Addr {
        Ipv6Addr { octets }
    }
}

/// The address of these eight segments of 16 bits.
impl From<[u16; 8]> for Ipv6Addr {
    ghost from_gives = { λ segments addr. addr ≡ ipv6_of_segments segments };

    fn from(segments: [u16; 8]) -> Ipv6Addr {
        let [a, b, c, d, e, f, g, h] = segments;
        Ipv6Addr::new(a, b, c, d, e, f, g, h)
    }
}

/// An address of either kind.
#[derive(Clone, Copy, Debug, PartialEq, Eq)]
pub enum IpAddr {
    /// An IPv4 address.
    V4(Ipv4Addr),
    /// An IPv6 address.
    V6(Ipv6Addr),
}

impl From<[u8; 4]> for IpAddr {
    ghost from_gives = { λ octets addr. addr ≡ V4 (ipv4_of octets) };

    fn from(octets: [u8; 4]) -> IpAddr {
        IpAddr::V4(Ipv4Addr::from(octets))
    }
}

impl From<[u8; 16]> for IpAddr {
    ghost from_gives = { λ octets addr. addr ≡ V6 (ipv6_of octets) };

    fn from(octets: [u8; 16]) -> IpAddr {
        IpAddr::V6(Ipv6Addr::from(octets))
    }
}

/// The IPv6 address of these eight segments of 16 bits.
impl From<[u16; 8]> for IpAddr {
    ghost from_gives = { λ segments addr. addr ≡ V6 (ipv6_of_segments segments) };

    fn from(segments: [u16; 8]) -> IpAddr {
        IpAddr::V6(Ipv6Addr::from(segments))
    }
}
