//! Names in messages: read, passed over, and walked.

use arrayvec::ArrayVec;
use conformance_labels::{Answer, Fail, parser_at};
use conformance_names::{put_mixture as put_mixed, put_orders};
use domain_list::{NameLabels, ToLabelIter};
use domain_name::Name;
use domain_parsed::ParsedName;
use domain_traits::{FlattenInto, ToName};
use domain_wire::ParseError;
use octseq::Octets;

/// The name at an offset of a message.
pub fn name_at(message: &[u8], offset: usize) -> Option<ParsedName<&[u8]>> {
    let mut parser = parser_at(message, offset, message.len())?;
    match ParsedName::parse(&mut parser) {
        Ok(name) => Some(name),
        Err(_) => None,
    }
}

/// The same name as a `Name`. If memory is refused, that is noted, and there is none.
///
/// A call that is generic over names is expensive to check, so it stands here once.
pub fn flat_of(out: &Answer, name: &ParsedName<&[u8]>) -> Option<Name<Vec<u8>>> {
    match name.to_vec(out.alloc()) {
        Ok(flat) => Some(flat),
        Err(_) => {
            out.fail(Fail::Memory);
            None
        }
    }
}

/// A name and the offset behind it, or why there is none and where the parser stands.
fn put_answer(out: &Answer, read: Result<ParsedName<&[u8]>, ParseError>, offset: usize) {
    match read {
        Ok(name) => put_read(out, &name, offset),
        Err(error) => put_refusal(out, offset, error),
    }
}

fn put_refusal(out: &Answer, offset: usize, error: ParseError) {
    out.put_number_after(b"err ", offset);
    out.put_text_after(b" ", error);
}

pub fn put_parse(out: &Answer, message: &[u8], offset: usize, end: usize) {
    let Some(mut parser) = parser_at(message, offset, end) else {
        return out.fail(Fail::Bad);
    };
    let mut twin = parser;
    let read = ParsedName::parse(&mut parser);
    let again = ParsedName::parse_ref(&mut twin);
    out.agree_all(
        b"parse_ref;parse_ref",
        &[is_same_read(&again, &read), twin.pos() == parser.pos()],
    );
    put_answer(out, read, parser.pos());
}

/// By `parse_with_limit`: as `put_parse`, with so many pointers at most.
pub fn put_limited(out: &Answer, message: &[u8], offset: usize, limit: usize) {
    if limit > 255 {
        return out.fail(Fail::Bad);
    }
    let Some(mut parser) = parser_at(message, offset, message.len()) else {
        return out.fail(Fail::Bad);
    };
    let read = ParsedName::parse_with_limit(&mut parser, limit as u8);
    put_answer(out, read, parser.pos());
}

fn is_same_read(
    one: &Result<ParsedName<&[u8]>, ParseError>,
    other: &Result<ParsedName<&[u8]>, ParseError>,
) -> bool {
    match (one, other) {
        (Ok(a), Ok(b)) => is_same_name(a, b),
        (Err(a), Err(b)) => a == b,
        _ => false,
    }
}

/// The same labels without case, and the same flag.
fn is_same_name(a: &ParsedName<&[u8]>, b: &ParsedName<&[u8]>) -> bool {
    a == b && a.is_compressed() == b.is_compressed()
}

fn put_read(out: &Answer, name: &ParsedName<&[u8]>, offset: usize) {
    let Some(flat) = flat_of(out, name) else {
        return;
    };
    out.put_hex_after(b"ok ", flat.as_slice());
    out.put(if name.is_compressed() { b" c " } else { b" f " });
    out.put_number(offset);
    let lent = flat.for_slice();
    is_measured_as(out, name, &lent);
    has_parts_of(out, name, &lent);
    is_made_of_others(out, name, lent);
    is_flattened(out, *name, flat.as_slice());
}

/// What a name in a message says of its octets is what the same name as a `Name` says.
fn is_measured_as(out: &Answer, name: &ParsedName<&[u8]>, flat: &Name<&[u8]>) {
    let len = flat.len();
    let lent = name.as_flat_slice();
    out.agree_all(
        b"compose_len;is_root;is_absolute;as_flat_slice",
        &[
            name.compose_len() as usize == len,
            name.is_root() == (len == 1),
            name.is_absolute(),
            name.is_compressed() == lent.is_none(),
        ],
    );
    if let Some(lent) = lent {
        out.same(lent, flat.as_slice(), b"as_flat_slice");
    }
}

/// The first label of a name in a message is that of the same name as a `Name`, and the last one is the root label.
fn has_parts_of(out: &Answer, name: &ParsedName<&[u8]>, flat: &Name<&[u8]>) {
    out.agree_all(
        b"first;last",
        &[
            name.first().as_slice() == flat.first().as_slice(),
            name.last().is_root(),
        ],
    );
}

/// The name is made of the `Name`, and of a name that lends its octets.
fn is_made_of_others(out: &Answer, name: &ParsedName<&[u8]>, flat: Name<&[u8]>) {
    let twin = ParsedName::from(flat);
    let lent = name.ref_octets();
    out.agree_all(
        b"from;from;deref_octets",
        &[
            twin == *name,
            !twin.is_compressed(),
            is_same_name(&lent.deref_octets(), name),
        ],
    );
}

/// A name in a message is flattened over a `Vec` and over an array of 255 octets.
fn is_flattened(out: &Answer, name: ParsedName<&[u8]>, wire: &[u8]) {
    let flattened: Result<Name<Vec<u8>>, _> = name.flatten_into(out.alloc());
    match flattened {
        Ok(made) => {
            out.same(made.as_slice(), wire, b"flatten_into");
            out.asked_once(made.as_octets(), b"memory of flatten_into");
        }
        Err(_) => out.fail(Fail::Memory),
    }
    let held: Result<Name<ArrayVec<u8, 255>>, _> = name.try_flatten_into(out.alloc());
    match held {
        Ok(made) => out.same(made.as_slice(), wire, b"try_flatten_into"),
        Err(_) => out.wrong(b"try_flatten_into"),
    }
}

pub fn put_skip(out: &Answer, message: &[u8], offset: usize, end: usize) {
    let Some(mut parser) = parser_at(message, offset, end) else {
        return out.fail(Fail::Bad);
    };
    match ParsedName::skip(&mut parser) {
        Ok(()) => {
            out.put_number_after(b"ok ", parser.pos());
        }
        Err(error) => put_refusal(out, parser.pos(), error),
    }
}

pub fn put_nparse(out: &Answer, message: &[u8], offset: usize, end: usize) {
    let Some(mut parser) = parser_at(message, offset, end) else {
        return out.fail(Fail::Bad);
    };
    match Name::parse(&mut parser) {
        Ok(name) => {
            out.put_hex_after(b"ok ", name.as_slice());
            out.put_number_after(b" ", parser.pos());
        }
        Err(error) => put_refusal(out, parser.pos(), error),
    }
}

pub fn put_walk(out: &Answer, message: &[u8], offset: usize, end: usize) {
    let Some(mut parser) = parser_at(message, offset, end) else {
        return out.fail(Fail::Bad);
    };
    match ParsedName::parse(&mut parser) {
        Ok(name) => put_walked(out, &name),
        Err(_) => out.put(b"err"),
    }
}

fn put_walked(out: &Answer, name: &ParsedName<&[u8]>) {
    put_orders(out, name.iter());
    out.put(b" ");
    put_suffixes(out, name);
    out.put(b" ");
    put_parents(out, name);
    out.put(b" ");
    put_firsts(out, name);
    out.put(b" ");
    put_numbers(out, name);
}

/// The flag and the flat wire format of a name in a message, which has as many octets as the name tells.
fn put_part_of(out: &Answer, name: &ParsedName<&[u8]>) {
    let Some(flat) = flat_of(out, name) else {
        return;
    };
    out.agree(name.compose_len() as usize == flat.len(), b"compose_len");
    out.put(if name.is_compressed() { b"c" } else { b"f" });
    out.put_hex(flat.as_slice());
}

fn put_suffixes(out: &Answer, name: &ParsedName<&[u8]>) {
    let mut suffixes = name.iter_suffixes();
    let mut is_first = true;
    for _time in 0..1000u32 {
        let Some(suffix) = suffixes.next() else {
            break;
        };
        out.put_comma(&mut is_first);
        put_part_of(out, &suffix);
    }
    out.agree(suffixes.next().is_none(), b"iter_suffixes");
}

fn put_parents(out: &Answer, name: &ParsedName<&[u8]>) {
    let mut rest = *name;
    let mut is_first = true;
    for _time in 0..1000u32 {
        if !rest.parent() {
            break;
        }
        out.put_comma(&mut is_first);
        put_part_of(out, &rest);
    }
    out.put_none(is_first);
    out.agree(rest.is_root() && !rest.parent(), b"parent");
}

fn put_firsts(out: &Answer, name: &ParsedName<&[u8]>) {
    let mut rest = *name;
    let mut is_first = true;
    for _time in 0..1000u32 {
        let Some(first) = rest.split_first() else {
            break;
        };
        out.put_comma(&mut is_first);
        out.put_hex(first.as_slice());
    }
    out.put_comma(&mut is_first);
    put_part_of(out, &rest);
    out.agree(
        rest.is_root() && rest.split_first().is_none(),
        b"split_first",
    );
}

/// The counts, the texts and the canonical wire format.
fn put_numbers(out: &Answer, name: &ParsedName<&[u8]>) {
    out.put_number(name.label_count());
    out.put_text_after(b" ", name.rrsig_label_count());
    out.put_shown_after(b" ", name);
    out.put_shown_after(b" ", name.fmt_with_dot());
    out.put(b" ");
    put_canonical(out, name);
}

fn put_canonical(out: &Answer, name: &ParsedName<&[u8]>) {
    let made: Result<Name<Vec<u8>>, _> = name.to_canonical_name(out.alloc());
    match made {
        Ok(canonical) => out.put_hex(canonical.as_slice()),
        Err(_) => out.fail(Fail::Memory),
    }
}

/// `rest MSG PLACE N`: the labels of what is left of a name without its first labels, from both ends.
pub fn put_rest(out: &Answer, message: &[u8], offset: usize, labels: usize) {
    let Some(name) = name_at(message, offset) else {
        return out.fail(Fail::Bad);
    };
    let mut rest = name;
    for _label in 0..labels.min(1000) {
        if rest.split_first().is_none() {
            break;
        }
    }
    put_orders(out, rest.iter());
    out.put(b" ");
    put_part_of(out, &rest);
}

/// `parentswalk MSG PLACE`: the labels from both ends, of the name and of what each `parent` leaves.
pub fn put_parentswalk(out: &Answer, message: &[u8], offset: usize) {
    let Some(mut rest) = name_at(message, offset) else {
        return out.fail(Fail::Bad);
    };
    put_orders(out, rest.iter());
    for _label in 0..1000u32 {
        if !rest.parent() {
            break;
        }
        out.put(b" / ");
        put_orders(out, rest.iter());
    }
}

/// Leaves out the first labels of a name, down to the root.
pub fn leave_out<Octs: Octets>(name: &mut ParsedName<Octs>, labels: usize) {
    for _label in 0..labels.min(1000) {
        if !name.parent() {
            break;
        }
    }
}

/// `mixture MSG PLACE N CALLS`: without the first N labels, what calls on either end give, also on the same name as a
/// `Name`.
pub fn put_mixture(out: &Answer, message: &[u8], offset: usize, labels: usize, calls: &[u8]) {
    let Some(mut rest) = name_at(message, offset) else {
        return out.fail(Fail::Bad);
    };
    leave_out(&mut rest, labels);
    put_taken(out, &rest, calls);
}

/// What calls on either end give, also on the same name as a `Name`.
fn put_taken(out: &Answer, name: &ParsedName<&[u8]>, calls: &[u8]) {
    if let Some(flat) = flat_of(out, name) {
        put_mixed(out, name.iter(), flat.iter(), calls);
    }
}

/// Leaves out the first label of a name, unless that is the root, by the call that a step names.
fn step_down(out: &Answer, name: &mut ParsedName<&[u8]>, step: u8) {
    match step {
        b'-' => {}
        b'p' => {
            let _is_less = name.parent();
        }
        b's' => {
            let _first = name.split_first();
        }
        _ => out.fail(Fail::Bad),
    }
}

/// `after MSG PLACE STEPS CALLS`: as `mixture`, after one call for each step, `p` for `parent` and `s` for
/// `split_first`.
pub fn put_after(out: &Answer, message: &[u8], offset: usize, steps: &[u8], calls: &[u8]) {
    let Some(mut rest) = name_at(message, offset) else {
        return out.fail(Fail::Bad);
    };
    for step in steps {
        step_down(out, &mut rest, *step);
    }
    put_taken(out, &rest, calls);
}
