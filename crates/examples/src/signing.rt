//! RRsets and their signatures (RFC 4035, 3.1.1).
ghost use Rattle.std.specs.Prelude.{true};
ghost use Rattle.domain_message_builder.specs.Builders.{state};
ghost use Rattle.domain_message_builder.specs.Ends.{MarksCut};
ghost use Rattle.domain_message_builder.specs.MarkedViews.{marked_state};
ghost use Rattle.examples.specs.Signed.{PushesSigned};

use domain_header::{Class, Ttl};
use domain_list::AbsoluteLabels;
use domain_message::Section;
use domain_message_builder::{MarkedBuilder, MessageBuilder};
use domain_rdata::{ComposeRecordData, Composer};

/// Pushes an RRset and its signatures, or neither. Then TC is set.
pub fn push_signed<'a, N, D, S, Target: Composer>(
    message: MessageBuilder<Target>,
    section: Section,
    owner: &'a N,
    class: Class,
    ttl: Ttl,
    rdata: &[D],
    signatures: &[S],
) -> MessageBuilder<Target>
where
    N: AbsoluteLabels<'a>,
    D: ComposeRecordData,
    S: ComposeRecordData,
    ensures { PushesSigned D.ComposeRecordData S.ComposeRecordData section (N.labels owner.now)
        class ttl rdata.now signatures.now message result }
{
    let mut marked = message.mark();
    if let Err(_refused) = marked.push_rrset(section, owner, class, ttl, rdata) {
        return cut(marked);
    }
    if let Err(_refused) = marked.push_rrset(section, owner, class, ttl, signatures) {
        return cut(marked);
    }
    marked.into_builder()
}

/// The message as it was at its mark, with TC set.
fn cut<Target: Composer>(marked: MarkedBuilder<Target>) -> MessageBuilder<Target>
    ensures { MarksCut true (marked_state marked) (state result) }
{
    let mut marked = marked;
    marked.rewind();
    let mut message = marked.into_builder();
    let mut header = message.header();
    header.set_tc(true);
    message.set_header(header);
    message
}
