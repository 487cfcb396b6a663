//! Why a text isn't read.
ghost use Rattle.std.specs.Prelude.{◌≡◌};
ghost use Rattle.domain_rdata_text.specs.Outcome.{fault};

/// Why a text isn't the data of a record.
#[derive(Clone, Copy, Debug, PartialEq, Eq)]
pub enum Reason {
    /// A quote is open at the end of the text.
    OpenQuote,
    /// The text ends in a backslash.
    LoneBackslash,
    /// A parenthesis is neither between quotes nor after a backslash.
    Parenthesis,
    /// The text ends where a word is due.
    MissingWord,
    /// A word follows the last field.
    ExtraWord,
    /// The word isn't a number in decimal digits, or one of too many bits. In a TTL, it isn't numbers with units
    /// either.
    Number,
    /// The word isn't the mnemonic of a type, or `TYPE` and a number of 16 bits (RFC 3597, 5).
    Rtype,
    /// The word isn't a number of 32 bits, or 14 digits that are a date from 1970 on and a time of day (RFC 4034,
    /// 3.2).
    Time,
    /// The word isn't four numbers below 256 with dots between them.
    Ipv4,
    /// The word isn't an IPv6 address (RFC 4291, 2.2).
    Ipv6,
    /// The word isn't a name of at most 255 octets (RFC 1035, 2.3.4), with those of the origin if it is relative.
    /// Without an origin no relative name is read.
    Name,
    /// The word isn't a character string of at most 255 octets.
    CharString,
    /// The word isn't 1 to 255 letters and digits.
    Tag,
    /// The word isn't the text of octets.
    QuotedText,
    /// The word isn't hexadecimal digits, two for each octet (RFC 4648, 8).
    Base16,
    /// The words from this one on aren't the base64 text of octets (RFC 4648, 4).
    Base64,
    /// The word isn't a hyphen, or hexadecimal digits of at most 255 octets (RFC 5155, 3.3).
    CountedBase16,
    /// The word isn't base32hex digits of 1 to 255 octets (RFC 5155, 3.3).
    CountedBase32,
    /// A field that has no form of its own: data of its type is read after `\#` alone.
    OnlyGeneric,
    /// After `\#` there aren't as many octets as this number says.
    OctetCount,
    /// The octets after `\#` aren't data of the type, or a name in it is compressed.
    NotData,
    /// The data has more than 65,535 octets.
    LongData,
}

/// What is wrong with a text, and where.
#[derive(Clone, Copy, Debug, PartialEq, Eq)]
pub struct Fault {
    /// The offset in the text: of a word, of a parenthesis, or the text's end.
    pub at: usize,
    /// What is wrong there.
    pub reason: Reason,
}

/// Why there is no data of a text.
#[derive(Clone, Copy, Debug, PartialEq, Eq)]
pub enum ReadError {
    /// The text isn't data of the type.
    Refused(Fault),
    /// There was no memory.
    Memory,
}

/// The error of a text that is refused at an offset.
pub(crate) fn refused(at: usize, reason: Reason) -> ReadError
    ensures { result ≡ ReadError.Refused (fault at reason) }
{
    ReadError::Refused(Fault { at, reason })
}
