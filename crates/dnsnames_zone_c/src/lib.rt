//! A zone for callers that aren't Rattle: read from a text, and asked with queries.
//!
//! A zone is in memory that these calls allocate, behind a slot that the caller keeps. The header `dnsnames_zone.h`
//! names the numbers that calls answer.
#![tactic(auto)]

mod loose;
mod number;
mod put;
mod slot;
mod zone;
