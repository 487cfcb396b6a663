//! Record data with strings, keys, digests and signatures, by its type.

use crate::data::{Read, read};
use conformance_labels::Answer;
use domain_data::{Caa, Dnskey, Ds, Hinfo, Naptr, Nsec, Rrsig, Sshfp, Tlsa};
use domain_rdata::{CanonicalRecordData, ParseRecordData, Rtype};
use octseq::Parser;
use std::fmt;

/// Asks each of these types for the data.
pub fn put_typed(out: &Answer, rtype: Rtype, parser: &Parser<'_>) {
    put_shown::<Hinfo<&[u8]>>(out, rtype, parser);
    put_shown::<Naptr<&[u8], Read<'_>>>(out, rtype, parser);
    put_shown::<Ds<&[u8]>>(out, rtype, parser);
    put_shown::<Sshfp<&[u8]>>(out, rtype, parser);
    put_shown::<Rrsig<&[u8], Read<'_>>>(out, rtype, parser);
    put_shown::<Nsec<&[u8], Read<'_>>>(out, rtype, parser);
    put_shown::<Dnskey<&[u8]>>(out, rtype, parser);
    put_shown::<Tlsa<&[u8]>>(out, rtype, parser);
    put_shown::<Caa<&[u8]>>(out, rtype, parser);
    if out.len() == 0 {
        out.put(b"none");
    }
}

/// Reads data as of one type, and puts its forms and its text.
fn put_shown<'a, D: ParseRecordData<'a> + CanonicalRecordData + fmt::Display + Drop>(
    out: &Answer,
    rtype: Rtype,
    parser: &Parser<'a>,
) {
    if let Some(data) = read::<D>(out, rtype, parser) {
        out.put_text_after(b"", data);
    }
}
