//! OPT records that are read: octets as the standards draw them (RFC 6891, 6.1; RFC 7871, 6; RFC 7873, 4; RFC 8914,
//! 2).

use crate::messages::joined;
use domain_header::Rcode;
use domain_message::{Message, OptError, OptIter, opt_of};
use domain_wire::ParseError;
use std::process::Abort;

/// A header that counts one record of the additional section, and no other entry.
const HEADER: [u8; 12] = [0x12, 0x34, 0x81, 0x80, 0, 0, 0, 0, 0, 0, 0, 1];

/// The OPT record of a sender that takes 1,232 octets, with the upper bits 1 of a response code, version 0 and DO, up
/// to the length of its data.
const OPT: [u8; 9] = [0, 0, 41, 0x04, 0xd0, 1, 0, 0x80, 0];

/// Three options: the subnet 192.0.2.0/24 of a client, a client's cookie, and the extended error 18, with text.
const OPTIONS: [u8; 31] = [
    0, 8, 0, 7, 0, 1, 24, 0, 192, 0, 2, //
    0, 10, 0, 8, 0x24, 0x64, 0xc4, 0xab, 0xcf, 0x10, 0xc9, 0x57, //
    0, 15, 0, 4, 0, 18, b'n', b'o',
];

/// The next option has this code and these octets.
fn gives(rt: &impl Abort, options: &mut OptIter<'_>, code: u16, data: &[u8]) {
    let Some(Ok(option)) = options.next() else {
        panic!(rt; "no option");
    };
    assert!(rt; option.code == code);
    assert!(rt; option.data == data);
}

#[test]
fn an_opt_record_and_its_options(rt: HostRuntime) {
    let octets = joined(
        &rt,
        Vec::new(rt.alloc()),
        &[&HEADER, &OPT, &[0, 31], &OPTIONS],
    );
    let Ok(message) = Message::from_octets(octets.as_slice()) else {
        panic!(rt; "no message");
    };
    let Ok(Some(opt)) = opt_of(&message) else {
        panic!(rt; "no OPT record");
    };
    assert!(rt; opt.udp_payload_size() == 1232);
    assert!(rt; opt.version() == 0);
    assert!(rt; opt.dnssec_ok());
    assert!(rt; opt.rcode(Rcode::masked_from_int(0)) == 16);
    let mut options = opt.options();
    gives(&rt, &mut options, 8, &[0, 1, 24, 0, 192, 0, 2]);
    gives(&rt, &mut options, 10, &OPTIONS[15..23]);
    gives(&rt, &mut options, 15, &[0, 18, b'n', b'o']);
    assert!(rt; options.next().is_none());
}

/// An option of which two octets are missing is reported once.
#[test]
fn an_option_that_is_cut_off(rt: HostRuntime) {
    let octets = joined(
        &rt,
        Vec::new(rt.alloc()),
        &[&HEADER, &OPT, &[0, 9], &OPTIONS[..9]],
    );
    let Ok(message) = Message::from_octets(octets.as_slice()) else {
        panic!(rt; "no message");
    };
    let Ok(Some(opt)) = opt_of(&message) else {
        panic!(rt; "no OPT record");
    };
    let mut options = opt.options();
    let Some(Err(e)) = options.next() else {
        panic!(rt; "an option");
    };
    assert!(rt; e == ParseError::ShortInput);
    assert!(rt; options.next().is_none());
}

/// Why a message has no OPT record: more than one, or one that isn't there.
fn fault(rt: &impl Abort, octets: &[u8]) -> OptError {
    let Ok(message) = Message::from_octets(octets) else {
        panic!(rt; "no message");
    };
    let Err(e) = opt_of(&message) else {
        panic!(rt; "read");
    };
    e
}

#[test]
fn two_opt_records_and_a_missing_one(rt: HostRuntime) {
    let mut header = HEADER;
    header[11] = 2;
    let two = joined(
        &rt,
        Vec::new(rt.alloc()),
        &[&header, &OPT, &[0, 0], &OPT, &[0, 0]],
    );
    assert!(rt; fault(&rt, two.as_slice()) == OptError::Another);
    let one = joined(&rt, Vec::new(rt.alloc()), &[&header, &OPT, &[0, 0]]);
    assert!(rt; fault(&rt, one.as_slice()) == OptError::Parse(ParseError::ShortInput));
}

/// A record of the answer section isn't looked for.
#[test]
fn an_opt_record_elsewhere_is_none(rt: HostRuntime) {
    let mut header = HEADER;
    header[7] = 1;
    header[11] = 0;
    let octets = joined(&rt, Vec::new(rt.alloc()), &[&header, &OPT, &[0, 0]]);
    let Ok(message) = Message::from_octets(octets.as_slice()) else {
        panic!(rt; "no message");
    };
    let Ok(found) = opt_of(&message) else {
        panic!(rt; "not read");
    };
    assert!(rt; found.is_none());
}
