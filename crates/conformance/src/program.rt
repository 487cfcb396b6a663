//! What the program `dnsnames` does with the words after its name.

use conformance_labels::{Answer, Fail, is, octets_of};
use domain_tool::tool::run;

/// `run WORDS INPUT`: the status, what is written, and the reason that it gives.
pub fn put_run(out: &Answer, words: &[u8], input: &[u8]) {
    let words = words_of(out, words);
    let mut texts: Vec<&str> = Vec::new(out.alloc());
    for word in words.as_slice() {
        match str::from_utf8(word.as_slice()) {
            Ok(text) => {
                if texts.push(text).is_err() {
                    out.fail(Fail::Memory);
                }
            }
            Err(_) => out.fail(Fail::Bad),
        }
    }
    match octets_of(input, out.alloc()) {
        Ok(octets) => put_done(out, texts.as_slice(), octets.as_slice()),
        Err(fail) => out.fail(fail),
    }
}

/// The octets of each word, with commas between, `none` where there is no word.
fn words_of(out: &Answer, field: &[u8]) -> Vec<Vec<u8>> {
    let mut words = Vec::new(out.alloc());
    if is(field, b"none") {
        return words;
    }
    for digits in field.split(|octet| *octet == b',') {
        match octets_of(digits, out.alloc()) {
            Ok(octets) => {
                if words.push(octets).is_err() {
                    out.fail(Fail::Memory);
                }
            }
            Err(fail) => out.fail(fail),
        }
    }
    words
}

fn put_done(out: &Answer, words: &[&str], octets: &[u8]) {
    let mut input = octets;
    let mut written: Vec<u8> = Vec::new(out.alloc());
    let mut told: Vec<u8> = Vec::new(out.alloc());
    let status = run(out.alloc(), words, &mut input, &mut written, &mut told);
    out.put_number(usize::from(status));
    out.put_hex_after(b" ", written.as_slice());
    out.put_hex_after(b" ", told.as_slice());
}
