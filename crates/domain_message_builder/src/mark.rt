//! Places of a message, to which it is cut back.

use crate::section_starts::SectionStarts;
use domain_header::HeaderCounts;

/// How far a message was: the entries of each section, where its sections began, and how many octets it had.
#[derive(Clone, Copy, Debug)]
pub(crate) struct Mark {
    pub(crate) counts: HeaderCounts,
    pub(crate) starts: SectionStarts,
    pub(crate) len: usize,
}
