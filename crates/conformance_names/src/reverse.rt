//! The names of addresses.

use arrayvec::ArrayVec;
use conformance_labels::{Answer, Fail};
use domain_builder::PushError;
use domain_name::Name;
use domain_wire::IpAddr;

/// `rev OCTETS`: the name of an address.
pub fn put_rev(out: &Answer, octets: &[u8]) {
    if let Ok(four) = <[u8; 4]>::try_from(octets) {
        return put_reverse(out, IpAddr::from(four));
    }
    match <[u8; 16]>::try_from(octets) {
        Ok(sixteen) => put_reverse(out, IpAddr::from(sixteen)),
        Err(_) => out.fail(Fail::Bad),
    }
}

fn put_reverse(out: &Answer, address: IpAddr) {
    let made: Result<Name<Vec<u8>>, PushError> = Name::reverse_from_addr(out.alloc(), address);
    let Ok(name) = made else {
        return out.fail(Fail::Memory);
    };
    out.put_hex_after(b"ok ", name.as_slice());
    out.put_shown_after(b" ", &name);
    out.asked_once(name.as_octets(), b"memory of reverse_from_addr");
    let held: Result<Name<ArrayVec<u8, 28>>, PushError> = Name::reverse_from_addr(
        out.alloc(),
        address,
    );
    match held {
        Ok(held) => out.same(held.as_slice(), name.as_slice(), b"reverse_from_addr"),
        Err(error) => out.agree(
            error == PushError::ShortBuf && name.len() > 28,
            b"reverse_from_addr",
        ),
    }
}
