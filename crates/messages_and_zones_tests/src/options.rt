//! Options that are written and read by name: octets as the standards draw them (RFC 5001, 2.3; RFC 7871, 6; RFC 7873,
//! 4; RFC 7828, 3.1; RFC 7830, 3; RFC 8914, 2).

use crate::messages::{begun, question};
use arrayvec::ArrayVec;
use domain_message::{
    ClientSubnet, Cookie, ExtendedError, Message, Nsid, OptRecord, Padding, TcpKeepalive, opt_of,
};
use domain_message_builder::{MessageBuilder, OptBuilder, PushError, PushOptionError};
use domain_wire::ParseError;
use std::process::Abort;

type Options = ArrayVec<u8, 64>;

/// An identifier, a subnet of 20 bits, two cookies, a timeout of a minute, and the extended error 18 with text.
const WRITTEN: [u8; 52] = [
    0, 3, 0, 3, b'n', b's', b'1', //
    0, 8, 0, 7, 0, 1, 20, 0, 192, 0, 32, //
    0, 10, 0, 16, b'c', b'l', b'i', b'e', b'n', b't', b'c', b'k', b's', b'e', b'r', b'v', b'e',
    b'r', b'c', b'k', //
    0, 11, 0, 2, 0x02, 0x58, //
    0, 15, 0, 4, 0, 18, b'n', b'o',
];

/// An OPT record without options, whose options have room for 64 octets.
fn empty(rt: &impl Abort) -> OptBuilder<Options> {
    match OptBuilder::new(ArrayVec::new()) {
        Ok(opt) => opt,
        Err(_) => panic!(rt; "too long"),
    }
}

/// A message that has these options, and the length of it.
fn message(rt: &impl Abort, opt: &OptBuilder<Options>) -> ArrayVec<u8, 128> {
    let mut builder = begun(rt, ArrayVec::<u8, 128>::new(), 128);
    assert!(rt; builder.push_question(&question()).is_ok());
    assert!(rt; builder.push_opt(opt).is_ok());
    builder.finish()
}

/// The OPT record of a message.
fn opt_in<'a>(rt: &impl Abort, octets: &'a Message<&'a [u8]>) -> OptRecord<'a> {
    let Ok(Some(opt)) = opt_of(octets) else {
        panic!(rt; "no OPT record");
    };
    opt
}

#[test]
fn each_option_is_read_as_it_was_written(rt: HostRuntime) {
    let nsid = Nsid { identifier: b"ns1" };
    let subnet = ClientSubnet {
        family: 1,
        source_prefix_len: 20,
        scope_prefix_len: 0,
        address: &[192, 0, 47, 9],
    };
    let cookie = Cookie {
        client: b"clientck",
        server: Some(b"serverck"),
    };
    let keepalive = TcpKeepalive { timeout: Some(600) };
    let error = ExtendedError {
        info_code: 18,
        text: b"no",
    };
    let mut opt = empty(&rt);
    assert!(rt; opt.push_nsid(nsid).is_ok());
    assert!(rt; opt.push_client_subnet(subnet).is_ok());
    assert!(rt; opt.push_cookie(cookie).is_ok());
    assert!(rt; opt.push_tcp_keepalive(keepalive).is_ok());
    assert!(rt; opt.push_extended_error(error).is_ok());
    let octets = message(&rt, &opt);
    let all = octets.as_slice();
    assert!(rt; all.len() >= 28);
    assert!(rt; &all[28..] == WRITTEN.as_slice());
    let Ok(made) = Message::from_octets(octets.as_slice()) else {
        panic!(rt; "no message");
    };
    let read = opt_in(&rt, &made);
    assert!(rt; read.nsid() == Ok(Some(nsid)));
    let cut = ClientSubnet {
        address: &[192, 0, 32],
        ..subnet
    };
    assert!(rt; read.client_subnet() == Ok(Some(cut)));
    assert!(rt; read.cookie() == Ok(Some(cookie)));
    assert!(rt; read.tcp_keepalive() == Ok(Some(keepalive)));
    assert!(rt; read.extended_error() == Ok(Some(error)));
    assert!(rt; read.padding() == Ok(None));
}

/// A value that no reader takes isn't written.
#[test]
fn options_that_are_not_written(rt: HostRuntime) {
    let mut opt = empty(&rt);
    let cookie = Cookie {
        client: b"clientck",
        server: Some(b"server"),
    };
    let refused = opt.push_cookie(cookie);
    assert!(rt; matches!(refused, Err(PushOptionError::Form(ParseError::Form(_)))));
    let subnet = ClientSubnet {
        family: 1,
        source_prefix_len: 25,
        scope_prefix_len: 0,
        address: &[192, 0, 2],
    };
    let refused = opt.push_client_subnet(subnet);
    assert!(rt; matches!(refused, Err(PushOptionError::Form(ParseError::ShortInput))));
    let error = ExtendedError {
        info_code: 0,
        text: &[0xff],
    };
    let refused = opt.push_extended_error(error);
    assert!(rt; matches!(refused, Err(PushOptionError::Form(_))));
    let nsid = Nsid {
        identifier: &[0; 61],
    };
    assert!(rt; matches!(opt.push_nsid(nsid), Err(PushOptionError::Append(_))));
    assert!(rt; opt.record_len() == 11);
}

/// With what follows it, the message has whole blocks, or it isn't padded.
#[test]
fn messages_are_padded_to_a_block(rt: HostRuntime) {
    let opt = empty(&rt);
    let mut builder = begun(&rt, ArrayVec::<u8, 200>::new(), 128);
    assert!(rt; builder.push_question(&question()).is_ok());
    assert!(rt;
        matches!(
            builder.push_padded_opt(&opt, 128, 97),
            Err(PushError::Limit)
        )
    );
    assert!(rt; builder.len() == 17);
    assert!(rt; builder.push_padded_opt(&opt, 128, 30).is_ok());
    assert!(rt; builder.len() == 98);
    assert!(rt; builder.reserved() == 30);
    let octets = builder.finish();
    let Ok(made) = Message::from_octets(octets.as_slice()) else {
        panic!(rt; "no message");
    };
    let read = opt_in(&rt, &made);
    let zeros = [0; 66];
    assert!(rt; read.padding() == Ok(Some(Padding { octets: &zeros })));
}
