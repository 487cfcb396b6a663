//! Messages of a stream that arrives in pieces.
ghost use Rattle.std.specs.Prelude.{◌≡◌, ◌↔◌, ◌≤◌, ◌<◌, ◌++◌, [], length, IsOk, IfOk, IfErr, OnErr, MatchOption, MatchResult};
ghost use Rattle.domain_stream.specs.Errors.{missing_in};
ghost use Rattle.domain_stream.specs.Framing.{length_field, first_end, rest_in, IsIncomplete, HasNoMessage, IsOneMessage};
ghost use Rattle.domain_stream.specs.Readers.{count_taken};

use crate::error::{CutOff, StreamError};
use crate::messages::{StreamMessages, first_message, message_end, read_length};
use octseq::{Octets, OctetsBuilder, Truncate};

/// Returns the number in the length field that two parts of a stream begin with; 0 while an octet of it is missing.
fn read_length_across(held: &[u8], piece: &[u8]) -> u16
    ensures { result ≡ length_field (held.now ++ piece.now) }
{
    if held.len() >= 2 {
        return read_length(held);
    }
    if held.is_empty() {
        return read_length(piece);
    }
    if piece.is_empty() {
        return 0;
    }
    u16::from_be_bytes([held[0], piece[0]])
}

/// Returns how many octets of a piece belong to the message that the held octets begin. The error is the length of
/// that message, where it is above the limit.
fn count_octets(held: &[u8], piece: &[u8], limit: u16) -> Result<usize, u16>
    ensures { MatchResult result
        (λ n. (length_field (held.now ++ piece.now) ≤ limit) × (n ≡ count_taken held.now piece.now))
        (λ len. (limit < len) × (len ≡ length_field (held.now ++ piece.now))) }
{
    let len = read_length_across(held, piece);
    if len > limit {
        return Err(len);
    }
    let end = 2 + usize::from(len);
    Ok(end.saturating_sub(held.len()).min(piece.len()))
}

/// Takes the messages from a stream that arrives in pieces of any size.
///
/// It holds the octets of one message, with its length field, in a buffer of the caller's. `push` takes octets of a
/// piece up to the end of that message. `message` returns the message once it is complete, and `remove_message` makes
/// room for the next one. A buffer needs room for the limit and two octets; whatever is sent, no more is used.
#[derive(Drop)]
pub struct StreamReader<Octs: Octets> {
    buffer: Octs,
    limit: u16,
    ghost one: { length (Octs.octets buffer) ≤ first_end (Octs.octets buffer) },
}

impl<Octs: OctetsBuilder> StreamReader<Octs> {
    ghost use Rattle.domain_stream.specs.Views.{held_octets, most_octets_of, reader_room};
    ghost use Rattle.domain_stream.specs.Views.{TakesPiece, PieceNotTaken};

    /// Returns a reader at the start of a stream, for messages of at most `limit` octets.
    ///
    /// The limit doesn't count the length field. The octets in the buffer are removed; its capacity is used, and
    /// nothing is allocated.
    pub fn new(buffer: Octs, limit: u16) -> StreamReader<Octs>
        ensures held { held_octets result ≡ [] }
        ensures limit { most_octets_of result ≡ limit }
        ensures room { reader_room result ≡ Octs.capacity buffer }
    {
        let mut buffer = buffer;
        buffer.truncate(0);
        StreamReader { buffer, limit }
    }

    /// Takes the octets of a piece up to the end of the message that the reader holds, and returns how many.
    ///
    /// It returns 0 only for a piece without octets, and while the reader holds a complete message.
    ///
    /// # Errors
    ///
    /// - `Oversized` exactly when the length field states more octets than the limit: once both octets of the field
    ///   are held or in the piece. The stream can't be read on.
    /// - `Append` only if the octets exceed the spare capacity of the buffer: never if that has room for the limit and
    ///   two octets. No call makes the capacity smaller.
    ///
    /// No octet is then taken.
    pub fn push(&mut self, piece: &[u8]) -> Result<usize, StreamError<Octs::AppendError>>
        ensures ok { IfOk result (TakesPiece self.old piece.now self.new) }
        ensures some { IsIncomplete (held_octets self.old) → 0 < length piece.now →
            IfOk result (λ count. 0 < count) }
        ensures err { IfErr result (PieceNotTaken piece.now self.old) }
        ensures unchanged { OnErr result (held_octets self.new ≡ held_octets self.old) }
        ensures limit { most_octets_of self.new ≡ most_octets_of self.old }
        ensures room { reader_room self.old ≤ reader_room self.new }
    {
        let limit = self.limit;
        let count = match count_octets(self.buffer.as_slice(), piece, limit) {
            Ok(count) => count,
            Err(len) => return Err(StreamError::Oversized(usize::from(len))),
        };
        if let Err(e) = self.buffer.append_slice(&piece[..count]) {
            return Err(StreamError::Append(e));
        }
        Ok(count)
    }

    /// Returns the message that the reader holds, without its length field. `None` while it is incomplete.
    pub fn message(&self) -> Option<&[u8]>
        ensures { MatchOption result (HasNoMessage (held_octets self.now))
            (λ message. IsOneMessage (held_octets self.now) message.now) }
    {
        let (message, _) = first_message(self.buffer.as_slice())?;
        Some(message)
    }

    /// Removes the message that the reader holds. One that is incomplete stays. The capacity of the buffer stays, too.
    pub fn remove_message(&mut self)
        ensures held { held_octets self.new ≡ rest_in (held_octets self.old) }
        ensures incomplete { IsIncomplete (held_octets self.new) }
        ensures limit { most_octets_of self.new ≡ most_octets_of self.old }
        ensures room { reader_room self.new ≡ reader_room self.old }
    {
        let octets = self.buffer.as_slice();
        if octets.len() >= message_end(octets) {
            self.buffer.truncate(0);
        }
    }

    /// Checks that the stream may end here.
    ///
    /// # Errors
    ///
    /// Returns `CutOff` exactly when the reader holds octets of an incomplete message.
    pub fn finish(&self) -> Result<(), CutOff>
        ensures exact { IsOk result ↔ (rest_in (held_octets self.now) ≡ []) }
        ensures missing { IfErr result
            (λ e. e.missing ≡ missing_in (rest_in (held_octets self.now))) }
    {
        StreamMessages::new(self.buffer.as_slice()).finish()
    }
}
