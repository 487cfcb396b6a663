//! Addresses of octets and of segments.

use crate::answer::{Answer, Fail};
use crate::numbers::put_composed;
use domain_wire::{IpAddr, Ipv4Addr, Ipv6Addr};

/// `address OCTETS`
pub fn put_address(out: &Answer, octets: &[u8]) {
    if let Ok(four) = <[u8; 4]>::try_from(octets) {
        return put_ipv4(out, four);
    }
    match <[u8; 16]>::try_from(octets) {
        Ok(sixteen) => put_ipv6(out, sixteen),
        Err(_) => out.fail(Fail::Bad),
    }
}

fn put_ipv4(out: &Answer, octets: [u8; 4]) {
    let [a, b, c, d] = octets;
    let address = Ipv4Addr::new(a, b, c, d);
    out.put(b"v4 ");
    put_composed(out, &address, 4);
    out.agree_all(
        b"octets;from;from",
        &[
            address.octets() == octets,
            Ipv4Addr::from(octets) == address,
            IpAddr::from(octets) == IpAddr::V4(address),
        ],
    );
}

/// The segments of an address, from its octets.
fn segments_of(octets: [u8; 16]) -> [u16; 8] {
    let mut segments = [0u16; 8];
    let mut left = u128::from_be_bytes(octets);
    for segment in &mut segments {
        left = left.rotate_left(16);
        *segment = (left % 0x1_0000) as u16;
    }
    segments
}

fn put_ipv6(out: &Answer, octets: [u8; 16]) {
    let segments = segments_of(octets);
    out.put(b"v6 ");
    put_segments(out, segments, octets);
    out.agree_all(
        b"from;from",
        &[
            Ipv6Addr::from(octets) == Ipv6Addr::from(segments),
            IpAddr::from(octets) == IpAddr::from(segments),
        ],
    );
}

/// The address of segments, which has these octets.
fn put_segments(out: &Answer, segments: [u16; 8], octets: [u8; 16]) {
    let address = of_segments(&segments);
    put_composed(out, &address, 16);
    out.agree_all(
        b"octets;from;from",
        &[
            address.octets() == octets,
            Ipv6Addr::from(segments) == address,
            IpAddr::from(segments) == IpAddr::V6(address),
        ],
    );
}

fn of_segments(segments: &[u16; 8]) -> Ipv6Addr {
    Ipv6Addr::new(
        segments[0],
        segments[1],
        segments[2],
        segments[3],
        segments[4],
        segments[5],
        segments[6],
        segments[7],
    )
}
