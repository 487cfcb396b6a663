//! How many questions and records a message has.
ghost use Rattle.std.specs.Prelude.{◌≡◌, ◌≤◌, ◌++◌, length, take, drop};
ghost use Rattle.domain_header.specs.Numbers.{number16};

use crate::numbers::number_of_16_bits;

/// How many questions, and how many records in each section, a message has (RFC 1035, 4.1.1).
#[derive(Clone, Copy, Debug, PartialEq, Eq)]
pub struct HeaderCounts {
    qdcount: u16,
    ancount: u16,
    nscount: u16,
    arcount: u16,
}

impl HeaderCounts {
    ghost use Rattle.domain_header.specs.Headers.{question_count, answer_count, authority_count, additional_count, counts_octets};

    /// Four counts of zero.
    pub fn new() -> HeaderCounts
        ensures qdcount { question_count result ≡ 0 }
        ensures ancount { answer_count result ≡ 0 }
        ensures nscount { authority_count result ≡ 0 }
        ensures arcount { additional_count result ≡ 0 }
    {
        HeaderCounts {
            qdcount: 0,
            ancount: 0,
            nscount: 0,
            arcount: 0,
        }
    }

    /// The counts of a message.
    pub fn for_message_slice(message: &[u8]) -> HeaderCounts
        requires { 12 ≤ length message.now }
        ensures qdcount { question_count result ≡ number16 message.now 4 }
        ensures ancount { answer_count result ≡ number16 message.now 6 }
        ensures nscount { authority_count result ≡ number16 message.now 8 }
        ensures arcount { additional_count result ≡ number16 message.now 10 }
    {
        HeaderCounts {
            qdcount: number_of_16_bits(message, 4),
            ancount: number_of_16_bits(message, 6),
            nscount: number_of_16_bits(message, 8),
            arcount: number_of_16_bits(message, 10),
        }
    }

    /// Writes the counts over the octets 4 to 11 of a message, and no others.
    pub fn write(self, message: &mut [u8])
        requires { 12 ≤ length message.old }
        ensures { message.new ≡ take 4 message.old ++ (counts_octets self ++ drop 12 message.old) }
    {
        message[4..6].copy_from_slice(&self.qdcount.to_be_bytes());
        message[6..8].copy_from_slice(&self.ancount.to_be_bytes());
        message[8..10].copy_from_slice(&self.nscount.to_be_bytes());
        message[10..12].copy_from_slice(&self.arcount.to_be_bytes());
    }

    /// How many questions there are.
    pub fn qdcount(self) -> u16
        ensures { result ≡ question_count self }
    {
        self.qdcount
    }

    /// Sets how many questions there are.
    pub fn set_qdcount(&mut self, count: u16)
        ensures qdcount { question_count self.new ≡ count }
        ensures ancount { answer_count self.new ≡ answer_count self.old }
        ensures nscount { authority_count self.new ≡ authority_count self.old }
        ensures arcount { additional_count self.new ≡ additional_count self.old }
    {
        self.qdcount = count;
    }

    /// How many records of the answer section there are.
    pub fn ancount(self) -> u16
        ensures { result ≡ answer_count self }
    {
        self.ancount
    }

    /// Sets how many records of the answer section there are.
    pub fn set_ancount(&mut self, count: u16)
        ensures qdcount { question_count self.new ≡ question_count self.old }
        ensures ancount { answer_count self.new ≡ count }
        ensures nscount { authority_count self.new ≡ authority_count self.old }
        ensures arcount { additional_count self.new ≡ additional_count self.old }
    {
        self.ancount = count;
    }

    /// How many records of the authority section there are.
    pub fn nscount(self) -> u16
        ensures { result ≡ authority_count self }
    {
        self.nscount
    }

    /// Sets how many records of the authority section there are.
    pub fn set_nscount(&mut self, count: u16)
        ensures qdcount { question_count self.new ≡ question_count self.old }
        ensures ancount { answer_count self.new ≡ answer_count self.old }
        ensures nscount { authority_count self.new ≡ count }
        ensures arcount { additional_count self.new ≡ additional_count self.old }
    {
        self.nscount = count;
    }

    /// How many records of the additional section there are.
    pub fn arcount(self) -> u16
        ensures { result ≡ additional_count self }
    {
        self.arcount
    }

    /// Sets how many records of the additional section there are.
    pub fn set_arcount(&mut self, count: u16)
        ensures qdcount { question_count self.new ≡ question_count self.old }
        ensures ancount { answer_count self.new ≡ answer_count self.old }
        ensures nscount { authority_count self.new ≡ authority_count self.old }
        ensures arcount { additional_count self.new ≡ count }
    {
        self.arcount = count;
    }
}
