//! Errors of labels and names, and what they become where they are handed on.

use crate::answer::Answer;
use domain_flat::{NameError, NameErrorKind, RelativeNameError, RelativeNameErrorKind};
use domain_label::{Label, LabelTypeError, SplitLabelError};
use domain_wire::ParseError;

/// `labelerrors OCTETS`: what a refusal becomes where it is handed on.
pub fn put_labelerrors(out: &Answer, octets: &[u8]) {
    match Label::split_from(octets) {
        Ok(_) => out.put(b"ok"),
        Err(error) => {
            out.put(b"parse=");
            put_parse_error(out, ParseError::from(error));
            out.put(b" name=");
            put_name_error(out, NameError::from(error));
            out.put(b" relative=");
            put_relative_name_error(out, RelativeNameError::from(error));
            if let SplitLabelError::BadType(kind) = error {
                out.agree(NameError::from(kind) == NameError::from(error), b"from");
                let relative = RelativeNameError::from(error);
                out.agree(RelativeNameError::from(kind) == relative, b"from");
            }
        }
    }
}

pub fn put_parse_error(out: &Answer, error: ParseError) {
    match error {
        ParseError::ShortInput => out.put(b"ShortInput"),
        ParseError::Form(form) => {
            out.put_text_after(b"Form ", form);
            out.agree(ParseError::from(form) == error, b"from");
        }
    }
}

pub fn put_name_error(out: &Answer, error: NameError) {
    match error.kind() {
        NameErrorKind::BadLabel(kind) => put_label_type(out, kind),
        NameErrorKind::CompressedName => out.put(b"CompressedName"),
        NameErrorKind::LongName => out.put(b"LongName"),
        NameErrorKind::RelativeName => out.put(b"RelativeName"),
        NameErrorKind::TrailingData => out.put(b"TrailingData"),
        NameErrorKind::ShortInput => out.put(b"ShortInput"),
    }
    out.put_text_after(b" ", error);
}

pub fn put_relative_kind(out: &Answer, kind: RelativeNameErrorKind) {
    match kind {
        RelativeNameErrorKind::BadLabel(kind) => put_label_type(out, kind),
        RelativeNameErrorKind::CompressedName => out.put(b"CompressedName"),
        RelativeNameErrorKind::ShortInput => out.put(b"ShortInput"),
        RelativeNameErrorKind::LongName => out.put(b"LongName"),
        RelativeNameErrorKind::AbsoluteName => out.put(b"AbsoluteName"),
    }
}

pub fn put_relative_name_error(out: &Answer, error: RelativeNameError) {
    put_relative_kind(out, error.kind());
    out.put_text_after(b" ", error);
    out.agree(RelativeNameError::from(error.kind()) == error, b"from");
}

pub fn put_label_type(out: &Answer, kind: LabelTypeError) {
    out.put(b"BadLabel(");
    put_label_type_alone(out, kind);
    out.put(b")");
}

pub fn put_label_type_alone(out: &Answer, kind: LabelTypeError) {
    match kind {
        LabelTypeError::Undefined => out.put(b"Undefined"),
        LabelTypeError::Extended(head) => {
            out.put_text_after(b"Extended(", head);
            out.put(b")");
        }
    }
}
