//! Serial numbers of instants, which no contract gives for a part of a second.

use domain_serial::Serial;
use jiff::Timestamp;
use std::process::Abort;

/// The instant so many nanoseconds after the start of 1970 has this number.
fn assert_number(rt: &impl Abort, nanosecond: i128, number: u32) {
    match Timestamp::from_nanosecond(nanosecond) {
        Ok(instant) => assert!(rt; Serial::from(instant).into_int() == number),
        Err(_) => panic!(rt; "no instant"),
    }
}

#[test]
fn instants_have_the_number_of_their_second(rt: HostRuntime) {
    assert_number(&rt, 0, 0);
    assert_number(&rt, 1_999_999_999, 1);
    assert_number(&rt, -500_000_000, 0);
    assert_number(&rt, -1_000_000_000, 4_294_967_295);
    assert_number(&rt, -1_999_999_999, 4_294_967_295);
    assert_number(&rt, 4_294_967_296_000_000_000, 0);
}
