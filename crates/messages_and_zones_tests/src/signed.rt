//! TSIG and SIG(0) records: octets as the standards draw them (RFC 8945, 4.2; RFC 2535, 4.1). Answers that repeat the
//! case of their question, and others.

use crate::messages::joined;
use domain_message::{Message, Sig0, TsigError, sig0_of, tsig_of};
use std::process::Abort;

/// A header that counts one record of the additional section, and no other entry.
const ONE: [u8; 12] = [0x12, 0x34, 0x81, 0x80, 0, 0, 0, 0, 0, 0, 0, 1];

/// A header that counts two.
const TWO: [u8; 12] = [0x12, 0x34, 0x81, 0x80, 0, 0, 0, 0, 0, 0, 0, 2];

/// A TSIG record of the key `k.`: the algorithm `h.`, a time, a fudge of 300 seconds, a MAC of two octets, the
/// original identifier, no error and no other data.
const TSIG: [u8; 34] = [
    1, b'k', 0, 0, 250, 0, 255, 0, 0, 0, 0, 0, 21, //
    1, b'h', 0, 0, 1, 0, 0, 0, 2, 1, 44, 0, 2, 0xab, 0xcd, 0x56, 0x78, 0, 0, 0, 0,
];

/// A SIG(0) record of the root: the algorithm 8, its times, the tag 7, the signer `s.`, and a signature of an octet.
const SIG0: [u8; 33] = [
    0, 0, 24, 0, 255, 0, 0, 0, 0, 0, 22, //
    0, 0, 8, 0, 0, 0, 0, 0, 0, 0, 0, 2, 0, 0, 0, 1, 0, 7, 1, b's', 0, 0xee,
];

/// A message of these parts.
fn made<'a>(rt: &impl Abort, octets: &'a [u8]) -> Message<&'a [u8]> {
    let Ok(message) = Message::from_octets(octets) else {
        panic!(rt; "no message");
    };
    message
}

#[test]
fn a_tsig_record_and_its_fields(rt: HostRuntime) {
    let octets = joined(&rt, Vec::new(rt.alloc()), &[&ONE, &TSIG]);
    let message = made(&rt, octets.as_slice());
    let Ok(Some(record)) = tsig_of(&message) else {
        panic!(rt; "no TSIG record");
    };
    let Ok(tsig) = record.data().fields() else {
        panic!(rt; "not read");
    };
    assert!(rt; tsig.algorithm.as_slice() == b"\x01h\0".as_slice());
    assert!(rt; tsig.time_signed == 0x1_0000_0002);
    assert!(rt; tsig.fudge == 300);
    assert!(rt; tsig.mac == [0xab, 0xcd].as_slice());
    assert!(rt; tsig.original_id == 0x5678);
    assert!(rt; tsig.error == 0);
    assert!(rt; tsig.other.is_empty());
}

/// Two TSIG records, or one that another record follows, are no TSIG record.
#[test]
fn a_tsig_record_that_is_not_last(rt: HostRuntime) {
    let two = joined(&rt, Vec::new(rt.alloc()), &[&TWO, &TSIG, &TSIG]);
    let followed = joined(&rt, Vec::new(rt.alloc()), &[&TWO, &TSIG, &SIG0]);
    let last = joined(&rt, Vec::new(rt.alloc()), &[&TWO, &SIG0, &TSIG]);
    assert!(rt; matches!(tsig_of(&made(&rt, two.as_slice())), Err(TsigError::NotLast)));
    assert!(rt;
        matches!(
            tsig_of(&made(&rt, followed.as_slice())),
            Err(TsigError::NotLast)
        )
    );
    assert!(rt; matches!(tsig_of(&made(&rt, last.as_slice())), Ok(Some(_))));
    assert!(rt; matches!(sig0_of(&made(&rt, last.as_slice())), Ok(None)));
    assert!(rt; TsigError::NotLast.rcode().to_int() == 1);
}

#[test]
fn a_sig0_record_and_its_fields(rt: HostRuntime) {
    let octets = joined(&rt, Vec::new(rt.alloc()), &[&ONE, &SIG0]);
    let message = made(&rt, octets.as_slice());
    assert!(rt; matches!(tsig_of(&message), Ok(None)));
    let Ok(Some(record)) = sig0_of(&message) else {
        panic!(rt; "no SIG(0) record");
    };
    let Ok(sig) = Sig0::from_octets(record.data_octets()) else {
        panic!(rt; "not read");
    };
    assert!(rt; sig.algorithm == 8);
    assert!(rt; sig.expiration == 2);
    assert!(rt; sig.inception == 1);
    assert!(rt; sig.key_tag == 7);
    assert!(rt; sig.signer.as_slice() == b"\x01s\0".as_slice());
    assert!(rt; sig.signature == [0xee].as_slice());
}

/// A response whose question has another case answers the query, and not where the spelling counts.
#[test]
fn answers_and_the_case_of_the_question(rt: HostRuntime) {
    let asked = [0, 7, 0, 0, 0, 1, 0, 0, 0, 0, 0, 0, 1, b'a', 0, 0, 1, 0, 1];
    let same = [
        0, 7, 0x80, 0, 0, 1, 0, 0, 0, 0, 0, 0, 1, b'a', 0, 0, 1, 0, 1,
    ];
    let other = [
        0, 7, 0x80, 0, 0, 1, 0, 0, 0, 0, 0, 0, 1, b'A', 0, 0, 1, 0, 1,
    ];
    let query = made(&rt, asked.as_slice());
    let same = made(&rt, same.as_slice());
    let other = made(&rt, other.as_slice());
    assert!(rt; same.is_answer(&query));
    assert!(rt; other.is_answer(&query));
    assert!(rt; same.is_spelled_answer(&query));
    assert!(rt; !other.is_spelled_answer(&query));
}
