//! Names and wire format, under the paths that callers use.

/// Reading from and writing to messages.
pub mod wire {
    pub use domain_rdata::Composer;
    pub use domain_wire::compose::{Compose, FixedLen, compose_vec};
    pub use domain_wire::error::{FormError, ParseError};
    pub use domain_wire::parse::{Parse, parse_slice};
}

/// Addresses of hosts.
pub mod net {
    pub use domain_wire::net::{IpAddr, Ipv4Addr, Ipv6Addr};
}

/// Symbols of presentation text.
pub mod scan {
    pub use domain_label::laws::scan_laws;
    pub use domain_label::scan::{BadSymbol, Symbol, SymbolCharsError, Symbols};
}

/// Labels and names.
///
/// A domain name is a list of labels, the most specific one first and the root label last, as `www`,
/// `example`, `com` and the root. A `Label` is one of them. A `Name` is a whole name in one piece. A
/// `RelativeName` is a name that another has to follow. A `ParsedName` is a name in a message, whose labels
/// may be in several places. A `Chain` is two names, one after the other. All have the calls of the traits
/// here, which one line imports: `use domain::base::name::*;`.
///
/// docs/NAMES.md says what names are, docs/CALLING.md how to use them.
pub mod name {
    pub use domain_builder::{
        FromStrError, PresentationError, PresentationErrorKind, PushError, PushNameError,
        RelativeFromStrError, text_laws,
    };
    pub use domain_flat::error::{
        NameError, NameErrorKind, RelativeNameError, RelativeNameErrorKind,
    };
    pub use domain_flat::iter::NameIter;
    pub use domain_label::label::{Label, LongLabelError};
    pub use domain_label::label_mut::LabelMut;
    pub use domain_label::label_text::{LabelFromStrError, LabelFromStrErrorKind};
    pub use domain_label::owned::OwnedLabel;
    pub use domain_label::slice_labels::SliceLabelsIter;
    pub use domain_label::split_error::{LabelTypeError, SplitLabelError};
    pub use domain_label::split_mut::{split_octets_mut, split_wire_mut};
    pub use domain_list::chain::{Chain, ChainIter, LongChainError};
    pub use domain_list::dotted::DisplayWithDot;
    pub use domain_list::labels::{
        Absolute, AbsoluteLabels, LabelIterator, NameLabels, Relative, RelativeLabels, ToLabelIter,
    };
    pub use domain_list::laws::order_laws;
    pub use domain_name::absolute::Name;
    pub use domain_name::builder::NameBuilder;
    pub use domain_name::calls::BuilderCall;
    pub use domain_name::relative::RelativeName;
    pub use domain_name::suffixes::SuffixIter;
    pub use domain_name::{StripSuffixError, builder_laws};
    pub use domain_parsed::{Heads, ParsedName, ParsedNameIter, ParsedSuffixIter};
    pub use domain_traits::{FlattenInto, FlattenName, ToName, ToRelativeName};
}

/// Laws of names, as the contracts of calls that do nothing.
pub mod laws {
    pub use domain_list::laws::order_laws;
    pub use domain_reading::{overwriting_laws, reads_laws};
}

/// Serial numbers.
pub mod serial {
    pub use domain_serial::laws::serial_laws;
    pub use domain_serial::{IllegalSignatureTime, Serial};
}

/// The canonical order of values.
pub mod cmp {
    pub use domain_wire::cmp::{CanonicalOrd, TotalCanonicalOrd};
}

/// Writing names shorter.
pub mod compress {
    pub use domain_compress::{CompressComposer, compress_laws};
}

/// Record data.
pub mod rdata {
    pub use domain_rdata::{
        CanonicalError, CanonicalRecordData, ComposeRdataError, ComposeRecordData, LongRecordData,
        ParseAnyRecordData, ParseRecordData, RecordData, Rtype, UnknownRecordData,
    };
}

/// What a message starts with: identifier, flags and counts (RFC 1035, 4.1.1).
pub mod header {
    pub use domain_header::{Header, HeaderCounts, HeaderSection};
}

/// Messages and their sections (RFC 1035, 4.1). The README.md of `domain_message` shows how to read one.
pub mod message {
    pub use domain_header::ShortMessage;
    pub use domain_message::{
        Message, Passes, QuestionSection, RecordIter, RecordSection, Section, entry_laws,
        reads_back_laws, section_laws,
    };
}

/// Messages that are written (RFC 1035, 4.1). crates/domain_message_builder/README.md shows how to write one, also
/// with a type for each section.
pub mod message_builder {
    pub use domain_message_builder::{
        AdditionalBuilder, AdditionalSection, AnswerBuilder, AnswerSection, AuthorityBuilder,
        AuthoritySection, MarkedBuilder, MessageBuilder, OptBuilder, PushError, PushOptionError,
        QuestionBuilder, RecordBuilder, RecordSection, SectionError, StartError, builder_laws,
        option_laws, pushed_data_reads_back,
    };
}

/// Messages in a stream, each after its length (RFC 1035, 4.2.2; RFC 7766, 8). crates/domain_stream/README.md shows
/// how to read them.
pub mod stream {
    pub use domain_stream::laws::stream_laws;
    pub use domain_stream::{CutOff, StreamError, StreamMessages, StreamReader, append_message};
}

/// OPT records that are read (RFC 6891).
pub mod opt {
    pub use domain_message::{
        ClientSubnet, Cookie, EdnsOption, ExtendedError, Nsid, OptData, OptError, OptIter,
        OptRecord, Padding, TcpKeepalive, opt_of,
    };
}

/// TSIG and SIG(0) records that are read (RFC 8945; RFC 2931).
pub mod tsig {
    pub use domain_message::{Sig0, Tsig, TsigData, TsigError, sig0_of, tsig_of};
}

/// Questions (RFC 1035, 4.1.2).
pub mod question {
    pub use domain_message::Question;
}

/// Records (RFC 1035, 4.1.3).
pub mod record {
    pub use domain_header::Ttl;
    pub use domain_message::{ParsedRecord, Record, RecordHeader};
}

/// Numbers that have mnemonics.
pub mod iana {
    pub use domain_header::{Class, Opcode, Rcode};
    pub use domain_message::{RtypeText, rtype_from_mnemonic, rtype_from_text, rtype_mnemonic};
    pub use domain_rdata::Rtype;
}
