//! Laws that hold for the words of this crate's contracts.
ghost use Rattle.domain_serial.specs.Serials.{AddedIsLater, TurnsWithItsSides};

/// A serial number is less than what it becomes by adding, and the order of two numbers turns round
/// with its sides (RFC 1982, 3).
pub fn serial_laws()
    ensures later { AddedIsLater }
    ensures turned { TurnsWithItsSides }
{}
