//! Record data of a type that doesn't know its length, and targets that are full.
ghost use Rattle.std.specs.Prelude.{◌≡◌, ◌++◌, Some, false, refl};

use arrayvec::ArrayVec;
use domain_header::{Class, Ttl};
use domain_message::Record;
use domain_name::Name;
use domain_rdata::{
    CanonicalError, CanonicalRecordData, ComposeRdataError, ComposeRecordData, Composer,
    RecordData, Rtype, UnknownRecordData,
};
use octseq::OctetsBuilder;
use std::alloc::Global;
use std::process::Abort;

const PRIVATE: u16 = 65280;

/// Record data that doesn't know its length before it is composed.
#[derive(Clone, Copy)]
pub struct Unmeasured<'a> {
    octets: &'a [u8],
}

impl<'a> Unmeasured<'a> {
    pub fn new(octets: &'a [u8]) -> Unmeasured<'a> {
        Unmeasured { octets }
    }
}

impl<'a> RecordData for Unmeasured<'a> {
    ghost type_number = { λ _. 65280 };

    fn rtype(&self) -> Rtype {
        Rtype::from_int(PRIVATE)
    }
}

impl<'a> ComposeRecordData for Unmeasured<'a> {
    ghost use Rattle.domain_rdata.specs.OctetsAlone.{octets_written};

    ghost composed = { λ it _ _ s. s ≡ it.octets.now };

    ghost written = { λ it _ extends _ old new. extends old it.octets.now new };

    ghost uncompressed = { λ it. it.octets.now };

    ghost lowercase = { λ it. Some it.octets.now };

    ghost knows_len = { λ _ _. false };

    fn rdlen(&self, _compress: bool) -> Option<u16> {
        None
    }

    fn compose_rdata<Target: Composer>(
        &self,
        target: &mut Target,
    ) -> Result<(), Target::AppendError> {
        target.append_slice(self.octets)
    }

    fn compose_canonical_rdata<Target: Composer>(
        &self,
        target: &mut Target,
    ) -> Result<(), Target::AppendError> {
        target.append_slice(self.octets)
    }

    ghost plain = { λ _ _ _. refl };

    ghost flat = { λ _ _ _ all. all };

    ghost writes_composed = { λ it. octets_written it.octets.now };
}

/// Its octets are those of no name.
impl<'a> CanonicalRecordData for Unmeasured<'a> {
    fn knows_names(&self) -> bool {
        true
    }
}

/// Returns `len` octets that are zero.
fn zeros(rt: &impl Abort, alloc: Global, len: usize) -> Vec<u8> {
    let mut octets = Vec::new(alloc);
    assert!(rt; octets.resize(len, 0).is_ok());
    octets
}

#[test]
fn data_that_is_too_long_leaves_the_target(rt: HostRuntime) {
    let octets = zeros(&rt, rt.alloc(), 65536);
    let data = Unmeasured {
        octets: octets.as_slice(),
    };
    let mut target = zeros(&rt, rt.alloc(), 1);
    let composed = data.compose_len_rdata(&mut target);
    assert!(rt; matches!(composed, Err(ComposeRdataError::Long(_))));
    assert!(rt; target.as_slice() == [0].as_slice());
    let composed = data.compose_canonical_len_rdata(&mut target);
    assert!(rt; matches!(composed, Err(ComposeRdataError::Long(_))));
    assert!(rt; target.as_slice() == [0].as_slice());
    assert!(rt; UnknownRecordData::from_octets(Rtype::from_int(PRIVATE), octets).is_err());
}

#[test]
fn the_longest_data_has_its_length(rt: HostRuntime) {
    let octets = zeros(&rt, rt.alloc(), 65535);
    let data = Unmeasured {
        octets: octets.as_slice(),
    };
    let mut target = Vec::new(rt.alloc());
    assert!(rt; data.compose_len_rdata(&mut target).is_ok());
    assert!(rt; target.len() == 65537);
    assert!(rt; target.as_slice().starts_with(&[255, 255, 0]));
}

/// The owner's name in lowercase, the type, the class, the TTL that was given, and the data unchanged: its type has no
/// names (RFC 4034, 6.2).
#[test]
fn a_canonical_record_has_the_original_ttl(rt: HostRuntime) {
    let Ok(owner) = Name::from_slice(b"\x03WWW\x02eX\0") else {
        panic!(rt; "no name");
    };
    let data = Unmeasured {
        octets: &[0xC0, 0x41],
    };
    let found = Record::new(owner, Class::from_int(1), Ttl::from_secs(7), data);
    let mut target = Vec::new(rt.alloc());
    let original_ttl = Ttl::from_secs(3600);
    assert!(rt; found.compose_canonical(original_ttl, &mut target).is_ok());
    let expected = b"\x03www\x02ex\0\xFF\0\0\x01\0\0\x0E\x10\0\x02\xC0\x41".as_slice();
    assert!(rt; target.as_slice() == expected);
}

/// Where data is held as octets, it isn't known which of them are names. The type NS has its names in lowercase. The
/// octets of the data are appended unchanged, but a record of it has no canonical form (RFC 4034, 6.2).
#[test]
fn a_canonical_record_of_unknown_names_leaves_the_target(rt: HostRuntime) {
    let (Ok(owner), Ok(data)) = (
        Name::from_slice(b"\x02eX\0"),
        UnknownRecordData::from_octets(Rtype::from_int(2), b"\x02NS\0".as_slice()),
    ) else {
        panic!(rt; "no name or no data");
    };
    let mut target = Vec::new(rt.alloc());
    assert!(rt; data.compose_canonical_rdata(&mut target).is_ok());
    assert!(rt; target.as_slice() == b"\x02NS\0".as_slice());
    assert!(rt; data.compose_canonical_len_rdata(&mut target).is_ok());
    assert!(rt; target.as_slice() == b"\x02NS\0\0\x04\x02NS\0".as_slice());
    let record = Record::new(owner, Class::from_int(1), Ttl::from_secs(7), data);
    let composed = record.compose_canonical(Ttl::from_secs(7), &mut target);
    assert!(rt; matches!(composed, Err(CanonicalError::UnknownNames)));
    assert!(rt; target.as_slice() == b"\x02NS\0\0\x04\x02NS\0".as_slice());
}

#[test]
fn data_that_does_not_fit_leaves_the_target(rt: HostRuntime) {
    let data = Unmeasured { octets: &[1, 2, 3] };
    let mut target = ArrayVec::<u8, 5>::new();
    assert!(rt; target.append_slice(&[9]).is_ok());
    let composed = data.compose_len_rdata(&mut target);
    assert!(rt; matches!(composed, Err(ComposeRdataError::Append(_))));
    assert!(rt; target.as_slice() == [9].as_slice());
    let composed = data.compose_canonical_len_rdata(&mut target);
    assert!(rt; matches!(composed, Err(ComposeRdataError::Append(_))));
    assert!(rt; target.as_slice() == [9].as_slice());
}
