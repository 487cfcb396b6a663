//! Record data whose memory is refused.
//!
//! As `memory` has it, at most one request of a test is refused, whichever it is, and none where `MOST_REFUSED` is 0.

use crate::memory::MOST_REFUSED;
use domain_rdata::{ComposeRdataError, ComposeRecordData, Rtype, UnknownRecordData};
use domain_txt::Txt;
use octseq::{Octets, OctetsFrom, Parser, ShortBuf};
use std::alloc::Global;
use std::process::Abort;

const PRIVATE: u16 = 65280;

const OCTETS: &[u8] = b"\x01\x02\xff";

fn data<'a>(rt: &impl Abort, octets: &'a [u8]) -> UnknownRecordData<&'a [u8]> {
    match UnknownRecordData::from_octets(Rtype::from_int(PRIVATE), octets) {
        Ok(data) => data,
        Err(_) => panic!(rt; "too long"),
    }
}

/// Copies record data twice, and tells whether a copy was refused.
fn copy_data(rt: &impl Abort, alloc: Global) -> bool {
    let lent = data(rt, OCTETS);
    let held: Result<UnknownRecordData<Vec<u8>>, ShortBuf> = UnknownRecordData::try_octets_from(
        alloc, lent,
    );
    let Ok(held) = held else {
        return true;
    };
    match held.clone(alloc) {
        Ok(copy) => {
            assert!(rt; copy.data().as_slice() == OCTETS);
            assert!(rt; copy.rtype().to_int() == PRIVATE);
            false
        }
        Err(ShortBuf) => true,
    }
}

#[test]
fn record_data_is_copied_or_refused(rt: HostRuntime) {
    assert!(rt; u8::from(copy_data(&rt, rt.alloc())) <= MOST_REFUSED);
}

/// Whether the text of two strings was refused.
fn text_is_refused(rt: &impl Abort, alloc: Global) -> bool {
    let mut parser = Parser::from_ref(b"\x02ab\x01c".as_slice());
    let txt = match Txt::parse(&mut parser) {
        Ok(txt) => txt,
        Err(_) => panic!(rt; "no strings"),
    };
    match txt.text(alloc) {
        Ok(text) => {
            assert!(rt; text.as_slice() == b"abc".as_slice());
            false
        }
        Err(_) => true,
    }
}

#[test]
fn text_of_strings_is_given_or_refused(rt: HostRuntime) {
    assert!(rt; u8::from(text_is_refused(&rt, rt.alloc())) <= MOST_REFUSED);
}

/// Record data is appended with its length to the same octets again where it was refused, which leaves them.
#[test]
fn record_data_is_composed_or_refused(rt: HostRuntime) {
    let data = data(&rt, OCTETS);
    let mut target = Vec::new(rt.alloc());
    match data.compose_len_rdata(&mut target) {
        Ok(()) => {}
        Err(ComposeRdataError::Append(ShortBuf)) => {
            assert!(rt; MOST_REFUSED == 1 && target.is_empty());
            assert!(rt; data.compose_len_rdata(&mut target).is_ok());
        }
        Err(ComposeRdataError::Long(_)) => panic!(rt; "too long"),
    }
    assert!(rt; target.as_slice() == b"\0\x03\x01\x02\xff".as_slice());
}
