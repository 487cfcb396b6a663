//! Record data, and what it is composed into.
#![tactic(auto)]

pub mod composer;
pub mod long;
pub mod record_data;
pub mod rtype;
pub mod unknown;

pub use composer::Composer;
pub use long::LongRecordData;
pub use record_data::{
    CanonicalError, CanonicalRecordData, ComposeRdataError, ComposeRecordData, ParseAnyRecordData,
    ParseRecordData, RecordData,
};
pub use rtype::Rtype;
pub use unknown::UnknownRecordData;
