//! Record data from its presentation format.

use conformance_labels::{Answer, Fail, Fields};
use domain_rdata_text::{ReadError, read};

/// `text CLASS TYPE OCTETS`: the data that the text is, or what is wrong and at which offset.
pub fn put_from_text(out: &Answer, fields: &Fields<'_>) {
    let (class, rtype) = (fields.number16(1, out), fields.number16(2, out));
    let text = fields.octets(3, out);
    match read(out.alloc(), rtype, class, text.as_slice()) {
        Ok(data) => out.put_hex_after(b"ok ", data.as_slice()),
        Err(ReadError::Refused(fault)) => {
            let (at, reason) = (fault.at, fault.reason);
            match format!(in out.alloc(); "{at} {reason:?}") {
                Ok(told) => out.put_text_after(b"err ", told),
                Err(_) => out.fail(Fail::Memory),
            }
        }
        Err(ReadError::Memory) => out.fail(Fail::Memory),
    }
}
