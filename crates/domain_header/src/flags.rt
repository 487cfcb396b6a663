//! The identifier and the flags of a message.
ghost use Rattle.std.specs.Prelude.{◌≡◌, ◌≤◌, ◌<◌, ◌*◌, ◌%◌, ◌++◌, ◌↔◌, IsTrue, length, slice_index, drop};
ghost use Rattle.domain_header.specs.Numbers.{number16};
ghost use Rattle.domain_header.specs.Bits.{bit, bits, bit_of, SetsBits};

use crate::code::{Opcode, Rcode};
use crate::numbers::number_of_16_bits;

/// The octet with these bits set to a value, of as many as there are, and all others as they are.
fn with_bits(octet: u8, weight: u8, values: u8, value: u8) -> u8
    requires weight { 0 < weight }
    requires value { value < values }
    requires room { 256 % (weight * values) ≡ 0 }
    ensures { SetsBits weight values value octet result }
{
    let span = u16::from(weight) * u16::from(values);
    let octet = u16::from(octet);
    let above = octet / span * span;
    let below = octet % u16::from(weight);
    (above + u16::from(value) * u16::from(weight) + below) as u8
}

/// The first four octets of a message: its identifier and its flags (RFC 1035, 4.1.1; AD and CD RFC 4035, 3.1.6 and
/// 3.2).
#[derive(Clone, Copy, Debug, PartialEq, Eq)]
pub struct Header {
    id: u16,
    high: u8,
    low: u8,
}

impl Header {
    ghost use Rattle.domain_header.specs.Headers.{header_id, header_high, header_low, header_octets, SetsHigh, SetsLow};
    ghost use Rattle.domain_header.specs.Values.{opcode_number, rcode_number};

    /// A header of zeros: a standard query with the identifier 0 and no flag.
    pub fn new() -> Header
        ensures id { header_id result ≡ 0 }
        ensures high { header_high result ≡ 0 }
        ensures low { header_low result ≡ 0 }
    {
        Header {
            id: 0,
            high: 0,
            low: 0,
        }
    }

    /// The header that a message begins with.
    pub fn for_message_slice(message: &[u8]) -> Header
        requires { 12 ≤ length message.now }
        ensures id { header_id result ≡ number16 message.now 0 }
        ensures high { header_high result ≡ slice_index message.now 2 }
        ensures low { header_low result ≡ slice_index message.now 3 }
    {
        Header {
            id: number_of_16_bits(message, 0),
            high: message[2],
            low: message[3],
        }
    }

    /// Writes the four octets over those that a message begins with, and no others.
    pub fn write(self, message: &mut [u8])
        requires { 12 ≤ length message.old }
        ensures { message.new ≡ header_octets self ++ drop 4 message.old }
    {
        let [first, second] = self.id.to_be_bytes();
        message[..4].copy_from_slice(&[first, second, self.high, self.low]);
    }

    /// The identifier.
    pub fn id(self) -> u16
        ensures { result ≡ header_id self }
    {
        self.id
    }

    /// Sets the identifier.
    pub fn set_id(&mut self, id: u16)
        ensures id { header_id self.new ≡ id }
        ensures high { header_high self.new ≡ header_high self.old }
        ensures low { header_low self.new ≡ header_low self.old }
    {
        self.id = id;
    }

    /// Whether the message is a response: the bit QR.
    pub fn qr(self) -> bool
        ensures { IsTrue result ↔ (bit 128 (header_high self) ≡ 1) }
    {
        self.high / 128 % 2 == 1
    }

    /// Sets the bit QR, or clears it.
    pub fn set_qr(&mut self, on: bool)
        ensures { SetsHigh 128 2 (bit_of on) self.old self.new }
    {
        self.high = with_bits(self.high, 128, 2, u8::from(on));
    }

    /// The kind of query: the four bits OPCODE.
    pub fn opcode(self) -> Opcode
        ensures { opcode_number result ≡ bits 8 16 (header_high self) }
    {
        Opcode::masked_from_int(self.high / 8)
    }

    /// Sets the four bits OPCODE.
    pub fn set_opcode(&mut self, opcode: Opcode)
        ensures { SetsHigh 8 16 (opcode_number opcode) self.old self.new }
    {
        self.high = with_bits(self.high, 8, 16, opcode.to_int());
    }

    /// Whether the answer is from an authority: the bit AA.
    pub fn aa(self) -> bool
        ensures { IsTrue result ↔ (bit 4 (header_high self) ≡ 1) }
    {
        self.high / 4 % 2 == 1
    }

    /// Sets the bit AA, or clears it.
    pub fn set_aa(&mut self, on: bool)
        ensures { SetsHigh 4 2 (bit_of on) self.old self.new }
    {
        self.high = with_bits(self.high, 4, 2, u8::from(on));
    }

    /// Whether the message was cut: the bit TC.
    pub fn tc(self) -> bool
        ensures { IsTrue result ↔ (bit 2 (header_high self) ≡ 1) }
    {
        self.high / 2 % 2 == 1
    }

    /// Sets the bit TC, or clears it.
    pub fn set_tc(&mut self, on: bool)
        ensures { SetsHigh 2 2 (bit_of on) self.old self.new }
    {
        self.high = with_bits(self.high, 2, 2, u8::from(on));
    }

    /// Whether recursion is desired: the bit RD.
    pub fn rd(self) -> bool
        ensures { IsTrue result ↔ (bit 1 (header_high self) ≡ 1) }
    {
        self.high % 2 == 1
    }

    /// Sets the bit RD, or clears it.
    pub fn set_rd(&mut self, on: bool)
        ensures { SetsHigh 1 2 (bit_of on) self.old self.new }
    {
        self.high = with_bits(self.high, 1, 2, u8::from(on));
    }

    /// Whether recursion is available: the bit RA.
    pub fn ra(self) -> bool
        ensures { IsTrue result ↔ (bit 128 (header_low self) ≡ 1) }
    {
        self.low / 128 % 2 == 1
    }

    /// Sets the bit RA, or clears it.
    pub fn set_ra(&mut self, on: bool)
        ensures { SetsLow 128 2 (bit_of on) self.old self.new }
    {
        self.low = with_bits(self.low, 128, 2, u8::from(on));
    }

    /// Whether the reserved bit is set: the bit Z.
    pub fn z(self) -> bool
        ensures { IsTrue result ↔ (bit 64 (header_low self) ≡ 1) }
    {
        self.low / 64 % 2 == 1
    }

    /// Sets the bit Z, or clears it.
    pub fn set_z(&mut self, on: bool)
        ensures { SetsLow 64 2 (bit_of on) self.old self.new }
    {
        self.low = with_bits(self.low, 64, 2, u8::from(on));
    }

    /// Whether the data was verified: the bit AD.
    pub fn ad(self) -> bool
        ensures { IsTrue result ↔ (bit 32 (header_low self) ≡ 1) }
    {
        self.low / 32 % 2 == 1
    }

    /// Sets the bit AD, or clears it.
    pub fn set_ad(&mut self, on: bool)
        ensures { SetsLow 32 2 (bit_of on) self.old self.new }
    {
        self.low = with_bits(self.low, 32, 2, u8::from(on));
    }

    /// Whether verifying is left to the asker: the bit CD.
    pub fn cd(self) -> bool
        ensures { IsTrue result ↔ (bit 16 (header_low self) ≡ 1) }
    {
        self.low / 16 % 2 == 1
    }

    /// Sets the bit CD, or clears it.
    pub fn set_cd(&mut self, on: bool)
        ensures { SetsLow 16 2 (bit_of on) self.old self.new }
    {
        self.low = with_bits(self.low, 16, 2, u8::from(on));
    }

    /// The response code: the four bits RCODE, which are the lower four where an OPT record has eight more (RFC 6891,
    /// 6.1.3).
    pub fn rcode(self) -> Rcode
        ensures { rcode_number result ≡ bits 1 16 (header_low self) }
    {
        Rcode::masked_from_int(self.low)
    }

    /// Sets the four bits RCODE.
    pub fn set_rcode(&mut self, rcode: Rcode)
        ensures { SetsLow 1 16 (rcode_number rcode) self.old self.new }
    {
        self.low = with_bits(self.low, 1, 16, rcode.to_int());
    }
}
