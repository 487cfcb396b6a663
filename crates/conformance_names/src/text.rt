//! Names and labels from text.

use arrayvec::ArrayVec;
use conformance_labels::{Answer, Fail};
use domain_builder::{FromStrError, PresentationErrorKind, RelativeFromStrError};
use domain_label::scan::{Symbol, SymbolCharsError, Symbols};
use domain_label::{LabelFromStrError, LabelFromStrErrorKind, OwnedLabel};
use domain_name::{Name, RelativeName};
use octseq::{EmptyBuilder, FromBuilder, Octets};

/// The octets of the name that was read, or the fault of its text. Those of absolute names are among those of relative
/// ones.
type Read<'r> = Result<&'r [u8], RelativeFromStrError>;

fn absolute_read<Octs: Octets>(read: &Result<Name<Octs>, FromStrError>) -> Read<'_> {
    match read {
        Ok(name) => Ok(name.as_slice()),
        Err(error) => Err(RelativeFromStrError::from(*error)),
    }
}

fn relative_read<Octs: Octets>(
    read: &Result<RelativeName<Octs>, RelativeFromStrError>,
) -> Read<'_> {
    match read {
        Ok(name) => Ok(name.as_slice()),
        Err(error) => Err(*error),
    }
}

/// The text that octets are in UTF-8. If they are none, that is noted, and there is no text.
fn text_of<'a>(out: &Answer, octets: &'a [u8]) -> &'a str {
    match str::from_utf8(octets) {
        Ok(text) => text,
        Err(_) => {
            out.fail(Fail::Bad);
            ""
        }
    }
}

fn put_read(out: &Answer, read: Read<'_>) {
    match read {
        Ok(octets) => out.put_hex_after(b"ok ", octets),
        Err(error) => {
            out.put(b"err ");
            put_relative_text_error(out, error);
        }
    }
}

/// `text TEXT`
pub fn put_text(out: &Answer, octets: &[u8]) {
    let text = text_of(out, octets);
    let read: Result<Name<Vec<u8>>, FromStrError> = Name::from_chars(out.alloc(), text.chars());
    put_read(out, absolute_read(&read));
    is_asked_once(out, &read, b"memory of from_chars");
    is_read_alike(out, text, absolute_read(&read));
}

/// Memory for a name that was read was asked for once.
fn is_asked_once(out: &Answer, read: &Result<Name<Vec<u8>>, FromStrError>, call: &[u8]) {
    if let Ok(name) = read {
        out.asked_once(name.as_octets(), call);
    }
}

/// The other calls that read an absolute name answer the same.
fn is_read_alike(out: &Answer, text: &str, wanted: Read<'_>) {
    let read = Name::vec_from_str(out.alloc(), text);
    out.agree(absolute_read(&read) == wanted, b"vec_from_str");
    is_asked_once(out, &read, b"memory of vec_from_str");
    let read: Result<Name<ArrayVec<u8, 255>>, FromStrError> = text.parse();
    out.agree(absolute_read(&read) == wanted, b"from_str");
    if let Some(symbols) = symbols_of(out, text) {
        is_read_of_symbols(out, symbols.as_slice(), wanted);
    }
}

fn is_read_of_symbols(out: &Answer, symbols: &[Symbol], wanted: Read<'_>) {
    let read: Result<Name<Vec<u8>>, FromStrError> = Name::from_symbols(
        out.alloc(),
        symbols.iter().copied(),
    );
    out.agree(absolute_read(&read) == wanted, b"from_symbols");
    is_asked_once(out, &read, b"memory of from_symbols");
}

/// The symbols of a text, where no escape is broken. A broken one is the last item.
pub fn symbols_of(out: &Answer, text: &str) -> Option<Vec<Symbol>> {
    let mut symbols = Vec::new(out.alloc());
    let mut is_broken = false;
    for item in Symbols::new(text.chars()) {
        out.agree(!is_broken, b"next of symbols after an error");
        match item {
            Ok(symbol) => {
                let is_taken = symbols.push(symbol).is_ok();
                out.took(is_taken);
            }
            Err(_) => is_broken = true,
        }
    }
    if is_broken {
        return None;
    }
    Some(symbols)
}

/// `reltext TEXT`
pub fn put_reltext(out: &Answer, octets: &[u8]) {
    let text = text_of(out, octets);
    let read: Result<RelativeName<Vec<u8>>, RelativeFromStrError> = RelativeName::from_chars(
        out.alloc(),
        text.chars(),
    );
    put_read(out, relative_read(&read));
    is_relative_read_alike(out, text, relative_read(&read));
}

/// The other calls that read a relative name answer the same.
fn is_relative_read_alike(out: &Answer, text: &str, wanted: Read<'_>) {
    let read = RelativeName::vec_from_str(out.alloc(), text);
    out.agree(relative_read(&read) == wanted, b"vec_from_str");
    if let Ok(name) = &read {
        out.asked_once(name.as_octets(), b"memory of vec_from_str");
    }
    let read: Result<RelativeName<ArrayVec<u8, 254>>, RelativeFromStrError> = text.parse();
    out.agree(relative_read(&read) == wanted, b"from_str");
}

/// `labeltext TEXT`
pub fn put_labeltext(out: &Answer, octets: &[u8]) {
    let text = text_of(out, octets);
    let twin: Result<OwnedLabel, LabelFromStrError> = text.parse();
    match OwnedLabel::from_chars(text.chars()) {
        Ok(label) => {
            out.put_hex_after(b"ok ", label.as_wire_slice());
            out.put_shown_after(b" ", label);
            out.agree(twin == Ok(label), b"from_str");
        }
        Err(error) => {
            out.put(b"err ");
            put_label_text_error(out, error);
            out.agree(twin == Err(error), b"from_str");
        }
    }
}

pub fn put_text_error(out: &Answer, error: FromStrError) {
    match error {
        FromStrError::Presentation(error) => put_presentation(out, error.kind()),
        FromStrError::ShortBuf => out.put(b"ShortBuf"),
    }
}

fn put_relative_text_error(out: &Answer, error: RelativeFromStrError) {
    match error {
        RelativeFromStrError::FromStr(error) => put_text_error(out, error),
        RelativeFromStrError::AbsoluteName => out.put(b"AbsoluteName"),
    }
}

fn put_presentation(out: &Answer, kind: PresentationErrorKind) {
    match kind {
        PresentationErrorKind::BadLabel(error) => {
            out.put(b"BadLabel(");
            put_label_text_error(out, error);
            out.put(b")");
        }
        PresentationErrorKind::EmptyLabel => out.put(b"EmptyLabel"),
        PresentationErrorKind::LongName => out.put(b"LongName"),
    }
}

fn put_label_text_error(out: &Answer, error: LabelFromStrError) {
    match error.kind() {
        LabelFromStrErrorKind::SymbolChars(SymbolCharsError::ShortInput) => {
            out.put(b"SymbolChars(ShortInput)");
        }
        LabelFromStrErrorKind::SymbolChars(SymbolCharsError::BadEscape) => {
            out.put(b"SymbolChars(BadEscape)");
        }
        LabelFromStrErrorKind::BadSymbol(_) => out.put(b"BadSymbol"),
        LabelFromStrErrorKind::BinaryLabel => out.put(b"BinaryLabel"),
        LabelFromStrErrorKind::LongLabel => out.put(b"LongLabel"),
    }
}

/// A text read over octets of a kind, and what another call read.
fn put_in_room<Octs: FromBuilder + Drop>(
    out: &Answer,
    text: &str,
    twin: Result<Name<Octs>, FromStrError>,
)
where
    Octs::Builder: EmptyBuilder + Drop,
{
    let read: Result<Name<Octs>, FromStrError> = Name::from_chars(out.alloc(), text.chars());
    put_read(out, absolute_read(&read));
    out.agree(absolute_read(&twin) == absolute_read(&read), b"from_str");
}

/// `textroom TEXT OCTETS`
pub fn put_textroom(out: &Answer, octets: &[u8], room: usize) {
    let text = text_of(out, octets);
    match room {
        0 => put_in_room::<ArrayVec<u8, 0>>(out, text, text.parse()),
        2 => put_in_room::<ArrayVec<u8, 2>>(out, text, text.parse()),
        4 => put_in_room::<ArrayVec<u8, 4>>(out, text, text.parse()),
        255 => put_in_room::<ArrayVec<u8, 255>>(out, text, text.parse()),
        _ => out.fail(Fail::Bad),
    }
}

fn put_relative_in_room<Octs: FromBuilder + Drop>(
    out: &Answer,
    text: &str,
    twin: Result<RelativeName<Octs>, RelativeFromStrError>,
)
where
    Octs::Builder: EmptyBuilder + Drop,
{
    let read: Result<RelativeName<Octs>, RelativeFromStrError> = RelativeName::from_chars(
        out.alloc(),
        text.chars(),
    );
    put_read(out, relative_read(&read));
    out.agree(relative_read(&twin) == relative_read(&read), b"from_str");
}

/// `reltextroom TEXT OCTETS`
pub fn put_reltextroom(out: &Answer, octets: &[u8], room: usize) {
    let text = text_of(out, octets);
    match room {
        0 => put_relative_in_room::<ArrayVec<u8, 0>>(out, text, text.parse()),
        2 => put_relative_in_room::<ArrayVec<u8, 2>>(out, text, text.parse()),
        254 => put_relative_in_room::<ArrayVec<u8, 254>>(out, text, text.parse()),
        _ => out.fail(Fail::Bad),
    }
}
