//! Every public path of `domain`, by the names that callers use: a path that is gone doesn't compile.

pub mod wire {
    pub use domain::base::wire::{
        Compose, Composer, FixedLen, FormError, Parse, ParseError, compose_vec, parse_slice,
    };
}

pub mod net {
    pub use domain::base::net::{IpAddr, Ipv4Addr, Ipv6Addr};
}

pub mod scan {
    pub use domain::base::scan::{BadSymbol, Symbol, SymbolCharsError, Symbols, scan_laws};
}

pub mod name {
    pub use domain::base::name::{
        Absolute, AbsoluteLabels, BuilderCall, Chain, ChainIter, DisplayWithDot, FlattenInto,
        FlattenName, FromStrError, Heads, Label, LabelFromStrError, LabelFromStrErrorKind,
        LabelIterator, LabelMut, LabelTypeError, LongChainError, LongLabelError, Name, NameBuilder,
        NameError, NameErrorKind, NameIter, NameLabels, OwnedLabel, ParsedName, ParsedNameIter,
        ParsedSuffixIter, PresentationError, PresentationErrorKind, PushError, PushNameError,
        Relative, RelativeFromStrError, RelativeLabels, RelativeName, RelativeNameError,
        RelativeNameErrorKind, SliceLabelsIter, SplitLabelError, StripSuffixError, SuffixIter,
        ToLabelIter, ToName, ToRelativeName, builder_laws, order_laws, split_octets_mut,
        split_wire_mut, text_laws,
    };
}

pub mod laws {
    pub use domain::base::laws::{order_laws, overwriting_laws, reads_laws};
}

pub mod serial {
    pub use domain::base::serial::{IllegalSignatureTime, Serial, serial_laws};
}

pub mod cmp {
    pub use domain::base::cmp::{CanonicalOrd, TotalCanonicalOrd};
}

pub mod compress {
    pub use domain::base::compress::{CompressComposer, compress_laws};
}

pub mod rdata {
    pub use domain::base::rdata::{
        CanonicalError, CanonicalRecordData, ComposeRdataError, ComposeRecordData, LongRecordData,
        ParseAnyRecordData, ParseRecordData, RecordData, Rtype, UnknownRecordData,
    };
}

pub mod header {
    pub use domain::base::header::{Header, HeaderCounts, HeaderSection};
}

pub mod message {
    pub use domain::base::message::{
        Message, Passes, QuestionSection, RecordIter, RecordSection, Section, ShortMessage,
        entry_laws, reads_back_laws, section_laws,
    };
}

pub mod message_builder {
    pub use domain::base::message_builder::{
        AdditionalBuilder, AdditionalSection, AnswerBuilder, AnswerSection, AuthorityBuilder,
        AuthoritySection, MarkedBuilder, MessageBuilder, OptBuilder, PushError, PushOptionError,
        QuestionBuilder, RecordBuilder, RecordSection, SectionError, StartError, builder_laws,
        option_laws, pushed_data_reads_back,
    };
}

pub mod stream {
    pub use domain::base::stream::{
        CutOff, StreamError, StreamMessages, StreamReader, append_message, stream_laws,
    };
}

pub mod opt {
    pub use domain::base::opt::{
        ClientSubnet, Cookie, EdnsOption, ExtendedError, Nsid, OptData, OptError, OptIter,
        OptRecord, Padding, TcpKeepalive, opt_of,
    };
}

pub mod tsig {
    pub use domain::base::tsig::{Sig0, Tsig, TsigData, TsigError, sig0_of, tsig_of};
}

pub mod question {
    pub use domain::base::question::Question;
}

pub mod record {
    pub use domain::base::record::{ParsedRecord, Record, RecordHeader, Ttl};
}

pub mod iana {
    pub use domain::base::iana::{
        Class, Opcode, Rcode, Rtype, RtypeText, rtype_from_mnemonic, rtype_from_text,
        rtype_mnemonic,
    };
}

pub mod typed_data {
    pub use domain::rdata::{
        A, Aaaa, Afsdb, AllRecordData, Base16Octets, Base64Octets, Caa, CharString, Cname, Dname,
        Dnskey, Ds, Hinfo, Https, InvalidTag, Kx, LastOctets, LongCharString, Mb, Md, Mf, Mg,
        Minfo, Mr, Mx, Naptr, Ns, Nsec, OwnedRecordData, Ptr, Px, QuotedOctets, Refusals, Rp,
        Rrsig, Rt, ServiceData, Soa, Srv, Sshfp, SvcParam, SvcParams, SvcParamsError,
        SvcParamsIter, Svcb, Tag, Tlsa, Txt, TxtError, TxtIter, TypeBitmaps, TypeBitmapsError,
        TypesIter, UnknownRecordData,
    };
}

pub mod rfc1035 {
    pub use domain::rdata::rfc1035::{
        A, Cname, Hinfo, Mb, Md, Mf, Mg, Minfo, Mr, Mx, Ns, Ptr, Soa, Txt, TxtError, TxtIter,
    };
}

pub mod tool {
    pub use domain::tool::{ToolError, list, name_at, name_at_with_limit, name_text, run};
}

pub mod entry_kind {
    pub use domain::entry_kind::EntryKind;
}
