//! The codes of the options that are read and written by name, of IANA's registry of EDNS option codes of 6 December
//! 2022: `evidence/compare/registries` compares them with a copy of that day.

/// RFC 5001, 2.3.
pub const NAME_SERVER_IDENTIFIER: u16 = 3;

/// RFC 7871, 6.
pub const CLIENT_SUBNET: u16 = 8;

/// RFC 7873, 4.
pub const COOKIE: u16 = 10;

/// RFC 7828, 3.1.
pub const TCP_KEEPALIVE: u16 = 11;

/// RFC 7830, 3.
pub const PADDING: u16 = 12;

/// RFC 8914, 2.
pub const EXTENDED_ERROR: u16 = 15;
