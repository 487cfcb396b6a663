//! The labels of a name from either end.

use conformance_labels::{Answer, Fail};
use domain_label::Label;
use domain_list::LabelIterator;

/// Labels taken from two ends in turn, until there is none at the one nor at the other.
fn put_taken<'a, I: LabelIterator<'a>>(out: &Answer, labels: I, one: End, other: End) {
    let mut labels = labels;
    let mut is_first = true;
    for time in 0..1000u32 {
        let end = if time % 2 == 0 { one } else { other };
        let Some(label) = take(&mut labels, end) else {
            break;
        };
        out.put_comma(&mut is_first);
        out.put_hex(label.as_slice());
    }
    out.put_none(is_first);
    let is_over = labels.next().is_none() && labels.next_back().is_none();
    out.agree(is_over, b"next after the last label");
}

/// Labels from the back.
pub fn put_turned<'a, I: LabelIterator<'a>>(out: &Answer, labels: I) {
    put_taken(out, labels, End::Back, End::Back);
}

/// The labels from the front, from the back and from both ends in turn.
pub fn put_orders<'a, I: LabelIterator<'a>>(out: &Answer, labels: I) {
    put_taken(out, labels, End::Front, End::Front);
    out.put(b" ");
    put_turned(out, labels);
    out.put(b" ");
    put_taken(out, labels, End::Front, End::Back);
}

/// What calls give one after another, `f` at the front and `b` at the back. The labels of the other name must be the
/// same.
pub fn put_mixture<'a, I: LabelIterator<'a>, J: LabelIterator<'a>>(
    out: &Answer,
    labels: I,
    twins: J,
    calls: &[u8],
) {
    let mut labels = labels;
    let mut twins = twins;
    let mut is_first = true;
    for call in calls {
        let Some(end) = end_of(*call) else {
            return out.fail(Fail::Bad);
        };
        out.put_comma(&mut is_first);
        match (take(&mut labels, end), take(&mut twins, end)) {
            (Some(label), Some(twin)) => {
                out.put_hex(label.as_slice());
                out.same(label.as_slice(), twin.as_slice(), b"next");
            }
            (None, None) => out.put(b"none"),
            _ => out.wrong(b"next"),
        }
    }
}

/// Labels in wire format, one after the other.
pub fn wire_of<'a, I: LabelIterator<'a>>(out: &Answer, labels: I) -> Vec<u8> {
    let mut octets: Vec<u8> = Vec::new(out.alloc());
    let mut labels = labels;
    for _time in 0..1000u32 {
        let Some(label) = labels.next() else {
            break;
        };
        let is_taken = label.compose(&mut octets).is_ok();
        out.took(is_taken);
    }
    octets
}

/// An end of a name.
#[derive(Clone, Copy)]
enum End {
    Front,
    Back,
}

fn end_of(call: u8) -> Option<End> {
    match call {
        b'f' => Some(End::Front),
        b'b' => Some(End::Back),
        _ => None,
    }
}

/// The next label from an end.
fn take<'a, I: LabelIterator<'a>>(labels: &mut I, end: End) -> Option<Label<'a>> {
    match end {
        End::Front => labels.next(),
        End::Back => labels.next_back(),
    }
}
