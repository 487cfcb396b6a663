//! The sections of a response, as text.

use conformance_labels::Answer;
use domain_list::DisplayWithDot;
use domain_zone_answer::{Response, SectionRrset};

/// The type of RRSIG records, which have TTLs of their own.
pub const RRSIG: u16 = 46;

/// Appends the TTL of an RRset of a section, or those of RRSIG records with `+` between.
fn put_ttls(out: &Answer, set: SectionRrset<'_>) {
    if set.rtype() != RRSIG {
        return out.put_text_after(b"/", set.ttl());
    }
    let mut before = b"/".as_slice();
    for octets in set.rdata() {
        out.put_text_after(before, set.record_ttl(octets.as_slice()));
        before = b"+".as_slice();
    }
}

/// Appends an RRset of a section: its owner, type and TTL, and how many records it has.
fn put_set(out: &Answer, before: &[u8], set: SectionRrset<'_>) {
    out.put_text_after(before, DisplayWithDot::new(&set.owner()));
    out.put_text_after(b"/", set.rtype());
    put_ttls(out, set);
    out.put_number_after(b"/", set.rdata().len());
}

/// Appends a section of one RRset at most.
fn put_section(out: &Answer, word: &[u8], section: Option<SectionRrset<'_>>) {
    match section {
        Some(set) => put_set(out, word, set),
        None => {
            out.put(word);
            out.put(b"-");
        }
    }
}

/// Appends the sections of a response.
pub fn put_sections(out: &Answer, response: &Response<'_>) {
    put_section(out, b" an=", response.answer());
    if let Some(cname) = response.synthesized_cname() {
        out.put_text_after(b",", DisplayWithDot::new(&cname.owner()));
        out.put_text_after(b"/5/", cname.ttl());
        out.put_text_after(b"/", DisplayWithDot::new(&cname.target()));
    }
    put_section(out, b" ns=", response.authority());
    let mut before = b" ar=".as_slice();
    for set in response.additional() {
        put_set(out, before, set);
        before = b",".as_slice();
    }
    if before.len() > 1 {
        out.put(b" ar=-");
    }
}
