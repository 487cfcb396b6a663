//! Data with the octets that the RFCs have as examples.
use crate::{DataFault, FieldKind, Rdata, check_data, compresses_names, fields_of};
use domain_reading::fault::NameFault;

/// The class of CHAOS (RFC 1035, 3.2.4).
const CHAOS: u16 = 3;

/// What is wrong with octets that are to be data of class IN.
fn fault_of(rtype: u16, octets: &[u8]) -> Option<DataFault> {
    check_data(rtype, 1, octets, 0).err()
}

/// An address has four octets in class IN; in another class nothing is known of them.
#[test]
fn addresses_are_of_class_in(rt: HostRuntime) {
    assert_eq!(rt; fault_of(1, &[192, 0, 2, 1]), None);
    assert_eq!(rt; fault_of(1, &[192, 0, 2]), Some(DataFault::ShortInput));
    assert_eq!(rt;
        fault_of(1, &[192, 0, 2, 1, 0]),
        Some(DataFault::TrailingData)
    );
    assert_eq!(rt; check_data(1, CHAOS, &[192, 0, 2, 1, 0], 0), Ok(()));
    assert!(rt; fields_of(1, CHAOS).is_none());
    assert!(rt; fields_of(2, CHAOS).is_some());
}

/// A preference and a name (RFC 1035, 3.3.9).
#[test]
fn mail_exchange(rt: HostRuntime) {
    let octets = b"\x00\x0a\x04mail\x07example\x03com\x00";
    assert_eq!(rt; fault_of(15, octets), None);
    let Ok(data) = Rdata::parse(15, 1, octets, 0) else {
        return assert!(rt; false);
    };
    let Some(name) = data.field(1) else {
        return assert!(rt; false);
    };
    assert_eq!(rt; name.kind(), FieldKind::Name);
    assert_eq!(rt; name.begin(), 2);
    assert_eq!(rt; name.end(), 20);
    assert!(rt; name.name().is_some());
    assert_eq!(rt; name.number(), None);
    assert!(rt; data.field(2).is_none());
    let Some(preference) = data.field(0) else {
        return assert!(rt; false);
    };
    assert_eq!(rt; preference.number(), Some(10));
    assert!(rt; preference.name().is_none());
    assert!(rt; compresses_names(15));
    assert!(rt; !compresses_names(33));
}

/// The number that the first field of data of class IN is.
fn number_of(rtype: u16, octets: &[u8]) -> Option<u64> {
    let Ok(data) = Rdata::parse(rtype, 1, octets, 0) else {
        return None;
    };
    data.field(0)?.number()
}

/// The examples of RFC 7043, 3.2 and 4.2, and an algorithm's number (RFC 4255, 3.1).
#[test]
fn numbers(rt: HostRuntime) {
    assert_eq!(rt;
        number_of(108, b"\x00\x00\x5e\x00\x53\x2a"),
        Some(0x00005e00532a)
    );
    assert_eq!(rt;
        number_of(109, b"\x00\x00\x5e\xef\x10\x00\x00\x2a"),
        Some(0x00005eef1000002a)
    );
    assert_eq!(rt; number_of(44, b"\x02\x01\x12"), Some(2));
}

/// A pointer that leads to itself (RFC 1035, 4.1.4).
#[test]
fn names_are_read_whole(rt: HostRuntime) {
    let fault = DataFault::Name(NameFault::TooManyPointers);
    assert_eq!(rt; fault_of(15, b"\x00\x0a\xc0\x02"), Some(fault));
    assert_eq!(rt;
        check_data(15, 1, b"\x03com\x00\x00\x0a\xc0\x00", 5),
        Ok(())
    );
}

/// The example of RFC 4034, 4.3: A, MX, RRSIG, NSEC and TYPE1234.
#[test]
fn denial(rt: HostRuntime) {
    let octets = b"\x04host\x07example\x03com\x00\x00\x06\x40\x01\x00\x00\x00\x03\x04\x1b\
        \x00\x00\x00\x00\x00\x00\x00\x00\x00\x00\x00\x00\x00\x00\x00\x00\x00\x00\x00\x00\x00\x00\x00\x00\x00\x00\x20";
    assert_eq!(rt; fault_of(47, octets), None);
    assert_eq!(rt; fault_of(47, b"\x00"), Some(DataFault::ShortInput));
    assert_eq!(rt;
        fault_of(47, b"\x00\x01\x01\x40\x00\x01\x40"),
        Some(DataFault::WindowOrder)
    );
    assert_eq!(rt;
        fault_of(47, b"\x00\x01\x00"),
        Some(DataFault::BitmapLength)
    );
}

/// `1 0 12 aabbccdd`, a hash of two octets without types, one of none, and no hash (RFC 5155, 3.2 and 4.2).
#[test]
fn hashed_denial(rt: HostRuntime) {
    assert_eq!(rt; fault_of(51, b"\x01\x00\x00\x0c\x04\xaa\xbb\xcc\xdd"), None);
    assert_eq!(rt;
        fault_of(51, b"\x01\x00\x00\x0c\x05\xaa\xbb\xcc\xdd"),
        Some(DataFault::ShortInput)
    );
    assert_eq!(rt; fault_of(50, b"\x01\x00\x00\x0c\x00\x02\xaa\xbb"), None);
    assert_eq!(rt;
        fault_of(50, b"\x01\x00\x00\x0c\x00\x00"),
        Some(DataFault::EmptyHash)
    );
    assert_eq!(rt;
        fault_of(50, b"\x01\x00\x00\x0c\x00"),
        Some(DataFault::ShortInput)
    );
}

/// The example with a port of RFC 9460, appendix D.2.
#[test]
fn service(rt: HostRuntime) {
    assert_eq!(rt;
        fault_of(
            64,
            b"\x00\x10\x03foo\x07example\x03com\x00\x00\x03\x00\x02\x00\x35"
        ),
        None
    );
    assert_eq!(rt;
        fault_of(64, b"\x00\x01\x00\x00\x03\x00\x00\x00\x01\x00\x00"),
        Some(DataFault::KeyOrder)
    );
}

/// A property (RFC 8659, 4.1), and text (RFC 1035, 3.3.14).
#[test]
fn strings(rt: HostRuntime) {
    assert_eq!(rt; fault_of(257, b"\x00\x05issueca.example.net"), None);
    assert_eq!(rt; fault_of(257, b"\x00\x03a-b"), Some(DataFault::InvalidTag));
    assert_eq!(rt; fault_of(16, b"\x01a\x02bc"), None);
    assert_eq!(rt; fault_of(16, b""), Some(DataFault::ShortInput));
    assert_eq!(rt; fault_of(16, b"\x01a\x03bc"), Some(DataFault::ShortInput));
    assert_eq!(rt; fault_of(20, b"\x01a"), None);
}
