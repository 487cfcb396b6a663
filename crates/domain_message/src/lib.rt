//! Messages (RFC 1035, 4.1): a header, questions, and records in three sections; OPT records (RFC 6891).
#![tactic(auto)]

mod alias;
mod answering;
pub mod edns;
pub mod edns_data;
pub mod edns_options;
pub mod kept;
pub mod known_options;
pub mod laws;
pub mod message;
mod named_options;
pub mod option_codes;
pub mod passes;
pub mod question;
pub mod record;
pub mod resource_record;
pub mod rtype_text;
pub mod section;
pub mod sig0;
pub mod transport_options;
pub mod tsig;
pub mod tsig_fields;

pub use domain_header::{
    Class, Header, HeaderCounts, HeaderSection, Opcode, Rcode, ShortMessage, Ttl,
};
pub use edns::{OptError, OptRecord, opt_of};
pub use edns_data::OptData;
pub use edns_options::{EdnsOption, OptIter};
pub use kept::RecordIter;
pub use known_options::{ClientSubnet, Cookie, ExtendedError, Nsid};
pub use laws::{entry_laws, reads_back_laws, section_laws};
pub use message::Message;
pub use passes::Passes;
pub use question::Question;
pub use record::{ParsedRecord, RecordHeader};
pub use resource_record::Record;
pub use rtype_text::{RtypeText, rtype_from_mnemonic, rtype_from_text, rtype_mnemonic};
pub use section::{QuestionSection, RecordSection, Section};
pub use sig0::{Sig0, sig0_of};
pub use transport_options::{Padding, TcpKeepalive};
pub use tsig::{TsigData, TsigError, tsig_of};
pub use tsig_fields::Tsig;
