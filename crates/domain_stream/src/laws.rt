//! Laws of messages in a stream.
ghost use Rattle.std.specs.Prelude.{ℕ, List};
ghost use Rattle.domain_stream.specs.Laws.{AreInPieces, AreReadBack, AreAllRead};

/// What holds of messages in a stream. The call does nothing: its contract is the laws.
///
/// However octets are cut into pieces, the same messages come. Messages of at most 65,535 octets that are written are
/// read back, and octets of an incomplete message after them are the rest. And octets are their messages, as they are
/// written, and the rest: none is lost.
pub fn stream_laws()
    ensures pieces { (a b : List ℕ) → AreInPieces a b }
    ensures reads_back { (ms : List (List ℕ)) (r : List ℕ) → AreReadBack ms r }
    ensures all_read { (o : List ℕ) → AreAllRead o }
{}
