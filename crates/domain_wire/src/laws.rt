//! Laws that hold for the words of this crate's contracts.
ghost use Rattle.domain_wire.specs.Numbers.{UnsignedReadBack, SignedReadBack};

/// A number that is read from the octets that it is written as is the same number, whatever its
/// width.
pub fn numbers_are_read_back()
    ensures unsigned { UnsignedReadBack }
    ensures signed { SignedReadBack }
{}
