//! Texts of errors.

use conformance_labels::{Answer, Fail};
use domain_builder::{
    FromStrError, PresentationError, PresentationErrorKind, PushError, PushNameError,
    RelativeFromStrError,
};
use domain_flat::{NameError, RelativeNameError, RelativeNameErrorKind};
use domain_label::scan::{BadSymbol, SymbolCharsError};
use domain_label::{
    LabelFromStrError, LabelFromStrErrorKind, LabelTypeError, LongLabelError, SplitLabelError,
};
use domain_list::LongChainError;
use domain_name::StripSuffixError;
use domain_rdata::{ComposeRdataError, LongRecordData};
use domain_serial::IllegalSignatureTime;
use domain_wire::{FormError, ParseError};
use octseq::{ShortBuf, ShortInput};
use std::error::Error;
use std::fmt::{Debug, Display};

/// What an error is shown as, and a semicolon. It is shown for debugging, too, by a text that nothing promises.
fn put_error<E: Error + Display + Debug>(out: &Answer, error: E) {
    match format!(in out.alloc(); "{error:?}") {
        Ok(_text) => {}
        Err(_) => out.fail(Fail::Memory),
    }
    out.put_text(error);
    out.put(b";");
}

/// `errors`: each text, and what the errors become where they are handed on.
pub fn put_errors(out: &Answer) {
    put_push_errors(out);
    put_symbol_errors(out);
    put_label_errors(out);
    put_presentation_errors(out);
    put_data_errors(out);
    put_name_errors(out);
    put_other_errors(out);
}

fn put_push_errors(out: &Answer) {
    for error in [
        PushError::LongLabel,
        PushError::LongName,
        PushError::ShortBuf,
    ] {
        put_error(out, error);
        put_error(out, FromStrError::from(error));
    }
    for error in [PushNameError::LongName, PushNameError::ShortBuf] {
        put_error(out, error);
        put_error(out, FromStrError::from(error));
    }
    out.agree_all(
        b"from;from",
        &[
            PushError::from(ShortBuf) == PushError::ShortBuf,
            PushNameError::from(ShortBuf) == PushNameError::ShortBuf,
        ],
    );
}

fn put_symbol_errors(out: &Answer) {
    for error in [SymbolCharsError::ShortInput, SymbolCharsError::BadEscape] {
        put_error(out, error);
        put_error(out, LabelFromStrError::from(error));
        put_error(out, PresentationError::from(error));
        put_error(out, FromStrError::from(error));
    }
    put_error(out, BadSymbol);
    put_error(out, LabelFromStrError::from(BadSymbol));
    put_error(out, PresentationError::from(BadSymbol));
    put_error(out, FromStrError::from(BadSymbol));
}

fn put_label_errors(out: &Answer) {
    for kind in [
        LabelFromStrErrorKind::BinaryLabel,
        LabelFromStrErrorKind::LongLabel,
    ] {
        let error = LabelFromStrError::from(kind);
        put_error(out, error);
        put_error(out, PresentationError::from(error));
        put_error(out, FromStrError::from(error));
    }
}

fn put_presentation_errors(out: &Answer) {
    for kind in [
        PresentationErrorKind::EmptyLabel,
        PresentationErrorKind::LongName,
    ] {
        let error = PresentationError::from(kind);
        put_error(out, error);
        put_error(out, FromStrError::from(error));
        put_error(out, RelativeFromStrError::from(FromStrError::from(error)));
    }
    put_error(out, FromStrError::from(ShortBuf));
    put_error(out, RelativeFromStrError::AbsoluteName);
}

fn put_data_errors(out: &Answer) {
    put_error(out, LongRecordData);
    put_error(out, ParseError::from(LongRecordData));
    put_error(out, ComposeRdataError::<ShortBuf>::Append(ShortBuf));
    put_error(out, ComposeRdataError::<ShortBuf>::Long(LongRecordData));
    put_error(out, IllegalSignatureTime::new());
}

/// Errors of octets that are no label, or no name.
fn put_name_errors(out: &Answer) {
    for error in [LabelTypeError::Undefined, LabelTypeError::Extended(127)] {
        put_error(out, error);
        put_error(out, SplitLabelError::from(error));
        put_error(out, NameError::from(error));
        put_error(out, RelativeNameError::from(error));
    }
    for error in [SplitLabelError::Pointer(0), SplitLabelError::ShortInput] {
        put_error(out, error);
        put_error(out, NameError::from(error));
        put_error(out, RelativeNameError::from(error));
    }
    for kind in [
        RelativeNameErrorKind::LongName,
        RelativeNameErrorKind::AbsoluteName,
    ] {
        put_error(out, RelativeNameError::from(kind));
    }
}

/// Errors that have one text, and those that have the text of their maker.
fn put_other_errors(out: &Answer) {
    put_error(out, LongLabelError);
    put_error(out, LongChainError);
    put_error(out, StripSuffixError);
    put_error(out, ShortBuf);
    put_error(out, ShortInput);
    put_error(out, ParseError::from(ShortInput));
    put_error(out, FormError::new("another form"));
    put_error(out, ParseError::from(FormError::new("another form")));
}
