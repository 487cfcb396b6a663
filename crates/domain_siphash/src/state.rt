//! The four words that SipHash turns.
ghost use Rattle.std.specs.Prelude.{◌≡◌};
ghost use Rattle.domain_siphash.specs.SipHash.{sip_start, sip_round, sip_absorb, sip_finish};

/// The state between two words of the octets.
#[derive(Clone, Copy)]
pub(crate) struct State {
    v0: u64,
    v1: u64,
    v2: u64,
    v3: u64,
}

impl State {
    /// The state at the beginning, under the two words of the key.
    pub(crate) fn new(k0: u64, k1: u64) -> State
        ensures { result ≡ sip_start k0 k1 }
    {
        State {
            v0: k0 ^ 0x736f6d6570736575,
            v1: k1 ^ 0x646f72616e646f6d,
            v2: k0 ^ 0x6c7967656e657261,
            v3: k1 ^ 0x7465646279746573,
        }
    }

    /// One round.
    fn round(&mut self)
        ensures { self.new ≡ sip_round self.old }
    {
        self.v0 = self.v0.wrapping_add(self.v1);
        self.v1 = self.v1.rotate_left(13) ^ self.v0;
        self.v0 = self.v0.rotate_left(32);
        self.v2 = self.v2.wrapping_add(self.v3);
        self.v3 = self.v3.rotate_left(16) ^ self.v2;
        self.v0 = self.v0.wrapping_add(self.v3);
        self.v3 = self.v3.rotate_left(21) ^ self.v0;
        self.v2 = self.v2.wrapping_add(self.v1);
        self.v1 = self.v1.rotate_left(17) ^ self.v2;
        self.v2 = self.v2.rotate_left(32);
    }

    /// Takes in one word of the octets, by two rounds.
    pub(crate) fn absorb(&mut self, word: u64)
        ensures { self.new ≡ sip_absorb self.old word }
    {
        self.v3 ^= word;
        self.round();
        self.round();
        self.v0 ^= word;
    }

    /// The hash, by four rounds.
    pub(crate) fn finish(self) -> u64
        ensures { result ≡ sip_finish self }
    {
        let mut state = self;
        state.v2 ^= 0xff;
        state.round();
        state.round();
        state.round();
        state.round();
        state.v0 ^ state.v1 ^ state.v2 ^ state.v3
    }
}
