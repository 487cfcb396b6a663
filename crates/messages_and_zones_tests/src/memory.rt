//! Memory that is refused.
//!
//! `.ci/refused-memory` runs each test whose name has the word `refused` once for each request for memory that it
//! makes, with that one refused. The run uses a copy of these sources that knows which request it is. So at most one
//! call of a test is refused. Where no request is refused, no call is.

/// Which request of each test is refused, the first being 1; 0 where none is. Only a test's own body names this and
/// `MOST_REFUSED`, since it stands in the copy once for each request.
pub const REFUSED_REQUEST: u32 = 0;

/// How many calls of a test may be refused.
pub const MOST_REFUSED: u8 = if REFUSED_REQUEST == 0 { 0 } else { 1 };
