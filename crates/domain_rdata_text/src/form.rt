//! How fields are written as text.
ghost use Rattle.std.specs.Prelude.{◌≡◌};
ghost use Rattle.domain_rdata_text.specs.Forms.{text_form, may_be_absent};

use domain_descriptor::FieldKind;

/// How a field is written as text. Data with a field that is `Generic` is written as `\#` and its octets (RFC 3597,
/// 5).
#[derive(Clone, Copy, Debug, PartialEq, Eq)]
pub enum TextForm {
    /// A number of 8 bits in decimal digits.
    Number8,
    /// A number of 16 bits in decimal digits.
    Number16,
    /// A number of 32 bits in decimal digits.
    Number32,
    /// Decimal digits of seconds, or numbers with units such as `1h30m`.
    Ttl,
    /// The seconds since 1970 began in decimal digits (RFC 4034, 3.2).
    Time,
    /// The mnemonic of a type, or `TYPE` and its number (RFC 3597, 5).
    Rtype,
    /// Four numbers with dots between them (RFC 1035, 3.4.1).
    Ipv4,
    /// Groups of hexadecimal digits with colons between them (RFC 5952, 4).
    Ipv6,
    /// An absolute name, with its final dot (RFC 1035, 5.1).
    Name,
    /// A character string between quotes.
    CharString,
    /// The same, or nothing (RFC 1183, 3.2).
    OptionalString,
    /// Character strings, each between quotes.
    CharStrings,
    /// Letters and digits (RFC 8659, 4.1).
    Tag,
    /// Octets between quotes.
    QuotedText,
    /// Octets in hexadecimal digits (RFC 4648, 8).
    Base16,
    /// Octets in base64 (RFC 4648, 4).
    Base64,
    /// Octets in hexadecimal digits, or a hyphen where there is none (RFC 5155, 3.3).
    CountedBase16,
    /// Octets in base32hex without padding (RFC 5155, 3.3).
    CountedBase32,
    /// The mnemonics of types, in ascending order of their numbers (RFC 4034, 4.2).
    Types,
    /// The same, or nothing (RFC 5155, 3.3).
    OptionalTypes,
    /// No form of its own.
    Generic,
}

/// How a field of a kind is written.
pub fn text_form(kind: FieldKind) -> TextForm
    ensures { result ≡ text_form kind }
{
    match kind {
        FieldKind::Number8 => TextForm::Number8,
        FieldKind::Number16 => TextForm::Number16,
        FieldKind::Number32 => TextForm::Number32,
        FieldKind::Number48 => TextForm::Generic,
        FieldKind::Number64 => TextForm::Generic,
        FieldKind::Ttl => TextForm::Ttl,
        FieldKind::Serial => TextForm::Number32,
        FieldKind::Time => TextForm::Time,
        FieldKind::Rtype => TextForm::Rtype,
        FieldKind::Ipv4 => TextForm::Ipv4,
        FieldKind::Ipv6 => TextForm::Ipv6,
        FieldKind::Name => TextForm::Name,
        FieldKind::CharString => TextForm::CharString,
        FieldKind::OptionalString => TextForm::OptionalString,
        FieldKind::CharStrings => TextForm::CharStrings,
        FieldKind::Tag => TextForm::Tag,
        FieldKind::QuotedText => TextForm::QuotedText,
        FieldKind::CountedBase16 => TextForm::CountedBase16,
        FieldKind::CountedBase32 => TextForm::CountedBase32,
        FieldKind::CountedBase64 => TextForm::Generic,
        FieldKind::TypeBitmaps => TextForm::Types,
        FieldKind::OptionalTypeBitmaps => TextForm::OptionalTypes,
        FieldKind::SvcParams => TextForm::Generic,
        FieldKind::Base16 => TextForm::Base16,
        FieldKind::Base64 => TextForm::Base64,
        FieldKind::Octets => TextForm::Generic,
    }
}

/// Whether a field that is written so may have no word.
pub(crate) fn may_be_absent(form: TextForm) -> bool
    ensures { result ≡ may_be_absent form }
{
    match form {
        TextForm::OptionalTypes => true,
        TextForm::Number8 => false,
        TextForm::Number16 => false,
        TextForm::Number32 => false,
        TextForm::Ttl => false,
        TextForm::Time => false,
        TextForm::Rtype => false,
        TextForm::Ipv4 => false,
        TextForm::Ipv6 => false,
        TextForm::Name => false,
        TextForm::CharString => false,
        TextForm::OptionalString => true,
        TextForm::CharStrings => false,
        TextForm::Tag => false,
        TextForm::QuotedText => false,
        TextForm::Base16 => false,
        TextForm::Base64 => false,
        TextForm::CountedBase16 => false,
        TextForm::CountedBase32 => false,
        TextForm::Types => false,
        TextForm::Generic => false,
    }
}
