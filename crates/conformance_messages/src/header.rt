//! The header, and the mnemonics of classes.

use conformance_labels::{Answer, Fail, Fields, decimal, is, split_once};
use domain_header::{Class, Header, HeaderCounts, HeaderSection, Opcode, Rcode, ShortMessage};

/// `header OCTETS`
pub fn put_header(out: &Answer, octets: &[u8]) {
    if octets.len() < 12 {
        return out.put_text_after(b"err ", ShortMessage);
    }
    let header = Header::for_message_slice(octets);
    let counts = HeaderCounts::for_message_slice(octets);
    out.put_text_after(b"", header.id());
    out.put_text_after(b" ", header.opcode());
    out.put_text_after(b" ", header.rcode());
    out.put_text_after(b" ", counts.qdcount());
    out.put_text_after(b" ", counts.ancount());
    out.put_text_after(b" ", counts.nscount());
    out.put_text_after(b" ", counts.arcount());
    put_flag(out, b" qr", header.qr());
    put_flag(out, b" aa", header.aa());
    put_flag(out, b" tc", header.tc());
    put_flag(out, b" rd", header.rd());
    put_flag(out, b" ra", header.ra());
    put_flag(out, b" z", header.z());
    put_flag(out, b" ad", header.ad());
    put_flag(out, b" cd", header.cd());
    is_written_back(out, octets, header, counts);
}

fn put_flag(out: &Answer, word: &[u8], is_set: bool) {
    if is_set {
        out.put(word);
    }
}

/// What was read is written as the octets that it was read from, part by part and at once.
fn is_written_back(out: &Answer, octets: &[u8], header: Header, counts: HeaderCounts) {
    let mut parts = [0u8; 12];
    header.write(&mut parts);
    counts.write(&mut parts);
    out.agree(octets.starts_with(&parts), b"write");
    let mut whole = [255u8; 12];
    let written = HeaderSection::new(header, counts).write(&mut whole);
    out.agree(written.is_ok() && whole == parts, b"HeaderSection::write");
}

/// `write OCTETS CALLS`: the octets, with these parts of their header set.
pub fn put_written_header(out: &Answer, fields: &Fields<'_>) {
    let mut octets = fields.octets(1, out);
    if octets.len() < 12 {
        let section = HeaderSection::new(Header::new(), HeaderCounts::new());
        match section.write(octets.as_mut_slice()) {
            Ok(()) => out.agree(false, b"HeaderSection::write"),
            Err(error) => out.put_text_after(b"err ", error),
        }
        return;
    }
    let mut header = Header::for_message_slice(octets.as_slice());
    let mut counts = HeaderCounts::for_message_slice(octets.as_slice());
    for call in fields.at(2).split(|octet| *octet == b';') {
        let (word, digits) = split_once(call, b':');
        match decimal(digits.unwrap_or(b"")) {
            Ok(number) if number <= 65535 => {
                set(out, &mut header, &mut counts, word, number as u16);
            }
            _ => out.fail(Fail::Bad),
        }
    }
    let written = HeaderSection::new(header, counts).write(octets.as_mut_slice());
    out.agree(written.is_ok(), b"HeaderSection::write");
    out.put_hex(octets.as_slice());
}

fn set(out: &Answer, header: &mut Header, counts: &mut HeaderCounts, word: &[u8], number: u16) {
    if is(word, b"qdcount") {
        counts.set_qdcount(number);
    } else if is(word, b"ancount") {
        counts.set_ancount(number);
    } else if is(word, b"nscount") {
        counts.set_nscount(number);
    } else if is(word, b"arcount") {
        counts.set_arcount(number);
    } else if is(word, b"id") {
        header.set_id(number);
    } else if is(word, b"opcode") && number < 256 {
        match Opcode::checked_from_int(number as u8) {
            Some(opcode) => header.set_opcode(opcode),
            None => out.fail(Fail::Bad),
        }
    } else if is(word, b"rcode") && number < 256 {
        match Rcode::checked_from_int(number as u8) {
            Some(rcode) => header.set_rcode(rcode),
            None => out.fail(Fail::Bad),
        }
    } else if number < 2 {
        set_flag(out, header, word, number == 1);
    } else {
        out.fail(Fail::Bad);
    }
}

fn set_flag(out: &Answer, header: &mut Header, word: &[u8], is_set: bool) {
    if is(word, b"qr") {
        header.set_qr(is_set);
    } else if is(word, b"aa") {
        header.set_aa(is_set);
    } else if is(word, b"tc") {
        header.set_tc(is_set);
    } else if is(word, b"rd") {
        header.set_rd(is_set);
    } else if is(word, b"ra") {
        header.set_ra(is_set);
    } else if is(word, b"z") {
        header.set_z(is_set);
    } else if is(word, b"ad") {
        header.set_ad(is_set);
    } else if is(word, b"cd") {
        header.set_cd(is_set);
    } else {
        out.fail(Fail::Bad);
    }
}

/// `class TEXT`: the number of the class with this mnemonic.
pub fn put_class(out: &Answer, text: &[u8]) {
    let Ok(word) = str::from_utf8(text) else {
        return out.fail(Fail::Bad);
    };
    match Class::from_mnemonic(word) {
        Some(class) => out.put_text_after(b"", class.to_int()),
        None => out.put(b"none"),
    }
}
