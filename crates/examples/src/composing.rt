//! A message that is composed.
ghost use Rattle.std.specs.Prelude.{◌≡◌, IfSome, IsNone};
ghost use Rattle.examples.specs.Responses.{response_octets, section_octets, TellsMail, MailIsTooLong};

use arrayvec::ArrayVec;
use domain_compress::CompressComposer;
use domain_data::{A, Mx};
use domain_header::{Class, Header, HeaderCounts, HeaderSection, Ttl};
use domain_message::{Question, Record};
use domain_name::Name;
use domain_rdata::Rtype;
use domain_wire::Ipv4Addr;
use octseq::OctetsBuilder;

/// The header of a response with one question, one answer and one additional record.
fn response_header(id: u16) -> HeaderSection
    ensures { section_octets result ≡ response_octets id }
{
    let mut header = Header::new();
    header.set_id(id);
    header.set_qr(true);
    let mut counts = HeaderCounts::new();
    counts.set_qdcount(1);
    counts.set_ancount(1);
    counts.set_arcount(1);
    HeaderSection::new(header, counts)
}

/// A response with the mail host of a name, and the host's address. `None` if it would have over 512 octets.
pub fn mail_response(
    id: u16,
    name: Name<&[u8]>,
    host: Name<&[u8]>,
    addr: Ipv4Addr,
) -> Option<ArrayVec<u8, 512>>
    ensures ok { IfSome result (λ m. TellsMail id name.entry host.entry addr m.items) }
    ensures full { IsNone result → MailIsTooLong id name.entry host.entry addr }
{
    let (class, ttl) = (Class::from_int(1), Ttl::from_secs(3600));
    let mut header = [0; 12];
    response_header(id).write(&mut header).ok()?;
    let mut message = CompressComposer::new(ArrayVec::new());
    message.append_slice(&header).ok()?;
    let question = Question::new(name, Rtype::from_int(15), class);
    question.compose(&mut message).ok()?;
    let mail = Record::new(name, class, ttl, Mx::new(10, host));
    mail.compose(&mut message).ok()?;
    let address = Record::new(host, class, ttl, A::new(addr));
    address.compose(&mut message).ok()?;
    Some(message.into_target())
}
