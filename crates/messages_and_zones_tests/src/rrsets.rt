//! RRsets that are pushed whole or not at all, and messages that go back to a mark.

use crate::messages::{ADDRESS, HEADER, QUESTION, address, begun, question, reads};
use crate::names::{WWW, absolute};
use arrayvec::ArrayVec;
use domain_compress::CompressComposer;
use domain_data::{A, Ns};
use domain_header::{Class, Rcode, Ttl};
use domain_message::{Message, Section};
use domain_message_builder::{MessageBuilder, OptBuilder, PushError};
use domain_name::Name;
use domain_rdata::Composer;
use domain_wire::Ipv4Addr;
use octseq::{Octets, OctetsBuilder};
use std::process::Abort;

/// An address that ends so.
fn ending_in(last: u8) -> A {
    A::new(Ipv4Addr::new(192, 0, 2, last))
}

/// Three addresses of one name.
fn addresses() -> [A; 3] {
    [ending_in(1), ending_in(2), ending_in(3)]
}

/// Pushes the three addresses of the root.
fn push_addresses<Target: Composer>(
    message: &mut MessageBuilder<Target>,
) -> Result<(), PushError<Target::AppendError>> {
    let (class, ttl) = (Class::from_int(1), Ttl::from_secs(300));
    let rdata = addresses();
    message.push_rrset(Section::Answer, &Name::root_ref(), class, ttl, &rdata)
}

/// Up to each limit, and in a target of each size, there are three addresses or none, and what is pushed then follows.
#[test]
fn an_rrset_is_whole_or_absent(rt: HostRuntime) {
    for limit in 17..=80u16 {
        let mut message = begun(&rt, Vec::new(rt.alloc()), limit);
        assert!(rt; message.push_question(&question()).is_ok());
        let fits = push_addresses(&mut message).is_ok();
        let one_more = message.push(Section::Answer, &address()).is_ok();
        let count = if fits { 3 } else { 0 };
        let all = count + if one_more { 1 } else { 0 };
        assert!(rt; fits == (limit >= 62));
        assert!(rt; one_more == (limit >= 77 || (32..62).contains(&limit)));
        let octets = message.finish();
        assert!(rt; octets.len() == HEADER + QUESTION + usize::from(all) * ADDRESS);
        reads(&rt, octets.as_slice(), [1, all, 0, 0]);
    }
}

/// Of an RRset that has no room nothing stays, no name is remembered of it, and the error is that of its first record
/// that was refused.
#[test]
fn nothing_stays_of_an_rrset_without_room(rt: HostRuntime) {
    let (class, ttl) = (Class::from_int(1), Ttl::from_secs(300));
    let owner = absolute(&rt, WWW);
    let target = CompressComposer::new(Vec::new(rt.alloc()));
    let mut message = begun(&rt, target, 74);
    let pushed = message.push_rrset(Section::Answer, &owner, class, ttl, &addresses());
    assert!(rt; matches!(pushed, Err(PushError::Limit)));
    assert!(rt; message.len() == HEADER && message.counts().ancount() == 0);
    let pushed = message.push_rrset(Section::Answer, &owner, class, ttl, &addresses()[..2]);
    assert!(rt; pushed.is_ok());
    assert!(rt; message.len() == HEADER + 31 + 16 && message.counts().ancount() == 2);
    let octets = message.finish().into_target();
    reads(&rt, octets.as_slice(), [0, 2, 0, 0]);
    assert!(rt; &octets.as_slice()[HEADER..HEADER + 17] == WWW);
    assert!(rt; octets.as_slice()[HEADER + 31] == 192 && octets.as_slice()[HEADER + 32] == 12);
    let mut message = begun(&rt, Vec::new(rt.alloc()), 65535);
    assert!(rt; message.push(Section::Authority, &address()).is_ok());
    assert!(rt; matches!(push_addresses(&mut message), Err(PushError::Order)));
    let none: &[A] = &[];
    let pushed = message.push_rrset(Section::Answer, &owner, class, ttl, none);
    assert!(rt; pushed.is_ok() && message.len() == HEADER + ADDRESS);
}

/// What is pushed after a mark goes, and what was before it stays, also where the target refuses.
#[test]
fn a_message_goes_back_to_its_mark(rt: HostRuntime) {
    let target = CompressComposer::new(ArrayVec::<u8, 80>::new());
    let mut message = begun(&rt, target, 80);
    let (class, ttl) = (Class::from_int(1), Ttl::from_secs(300));
    let owner = absolute(&rt, WWW);
    assert!(rt; message.push_question(&question()).is_ok());
    assert!(rt; message.push(Section::Answer, &address()).is_ok());
    let mut marked = message.mark();
    for _time in 0..3u8 {
        let pushed = marked.push_rrset(Section::Answer, &owner, class, ttl, &addresses()[..1]);
        assert!(rt; pushed.is_ok());
        assert!(rt; marked.push(Section::Additional, &address()).is_ok());
        assert!(rt; marked.as_builder().len() == HEADER + QUESTION + ADDRESS + 31 + ADDRESS);
        assert!(rt; marked.push(Section::Additional, &address()).is_err());
        marked.rewind();
        assert!(rt; marked.as_builder().len() == HEADER + QUESTION + ADDRESS);
    }
    let mut message = marked.into_builder();
    assert!(rt;
        message
            .push_rrset(Section::Answer, &owner, class, ttl, &addresses()[..1])
            .is_ok()
    );
    let octets = message.finish().into_target();
    reads(&rt, octets.as_slice(), [1, 2, 0, 0]);
    let Some((_, after)) = octets.as_slice().split_at_checked(32) else {
        panic!(rt; "no second answer");
    };
    assert!(rt; after.starts_with(WWW));
}

/// TC is set where a required RRset has no room, and where another has none it isn't.
#[test]
fn tc_is_for_what_is_required(rt: HostRuntime) {
    let (class, ttl) = (Class::from_int(1), Ttl::from_secs(300));
    for limit in 12..=62u16 {
        let mut message = begun(&rt, Vec::new(rt.alloc()), limit);
        let root = Name::root_ref();
        let section = Section::Additional;
        let extra = message.push_extra(section, &root, class, ttl, &addresses());
        assert!(rt; matches!(extra, Ok(pushed) if pushed == (limit >= 57)));
        assert!(rt; !message.header().tc());
        let rdata = &addresses()[..1];
        let required = message.push_required(section, &root, class, ttl, rdata);
        let fits = (27..57).contains(&limit);
        assert!(rt; matches!(required, Ok(pushed) if pushed == fits));
        assert!(rt; message.header().tc() != fits);
        let early = message.push_required(Section::Answer, &root, class, ttl, rdata);
        let late = message.counts().arcount() > 0;
        assert!(rt; matches!(early, Err(PushError::Order)) == late);
    }
}

/// A query for the address of `c.b.a`, with the bit RD.
const QUERY: &[u8] = b"\x12\x34\x01\0\0\x01\0\0\0\0\0\0\x01c\x01b\x01a\0\0\x01\0\x01";

/// Its question.
const ASKED: &[u8] = b"\x01c\x01b\x01a\0\0\x01\0\x01";

/// The servers `n.b.a` and `m.a` of `b.a` after it: the names `b.a` and `a` are at 14 and 16, and those of the servers
/// at 35 and 51.
const SERVERS: &[u8] = b"\xc0\x0e\0\x02\0\x01\0\0\x0e\x10\0\x04\x01n\xc0\x0e\
\xc0\x0e\0\x02\0\x01\0\0\x0e\x10\0\x04\x01m\xc0\x10";

/// Two addresses of the first.
const GLUE: &[u8] = b"\xc0\x23\0\x01\0\x01\0\0\x0e\x10\0\x04\xc0\0\x02\x01\
\xc0\x23\0\x01\0\x01\0\0\x0e\x10\0\x04\xc0\0\x02\x02";

/// An address of the second.
const OTHER: &[u8] = b"\xc0\x33\0\x01\0\x01\0\0\x0e\x10\0\x04\xc0\0\x02\x03";

/// A referral to `b.a`, up to a limit that has room for the servers.
fn referred(rt: &impl Abort, limit: u16) -> ArrayVec<u8, 120> {
    let none: Option<&OptBuilder<&'static [u8]>> = None;
    let (class, ttl) = (Class::from_int(1), Ttl::from_secs(3600));
    let (glued, other) = (
        absolute(rt, b"\x01n\x01b\x01a\0"),
        absolute(rt, b"\x01m\x01a\0"),
    );
    let Ok(query) = Message::from_octets(QUERY) else {
        panic!(rt; "no message");
    };
    let target = CompressComposer::new(ArrayVec::<u8, 120>::new());
    let mut message = begun(rt, target, limit);
    assert!(rt;
        message
            .start_answer(&query, Rcode::masked_from_int(0))
            .is_ok()
    );
    let zone = absolute(rt, b"\x01b\x01a\0");
    let rdata = [Ns::new(glued), Ns::new(other)];
    let pushed = message.push_required(Section::Authority, &zone, class, ttl, &rdata);
    assert!(rt; matches!(pushed, Ok(true)));
    let section = Section::Additional;
    let rdata = [ending_in(1), ending_in(2)];
    assert!(rt;
        message
            .push_required(section, &glued, class, ttl, &rdata)
            .is_ok()
    );
    assert!(rt;
        message
            .push_extra(section, &other, class, ttl, &[ending_in(3)])
            .is_ok()
    );
    match message.finish_or_truncate(Ok(()), none) {
        Ok(made) => made.into_target(),
        Err(_) => panic!(rt; "not finished"),
    }
}

/// Glue that has no room sets TC (RFC 9471, 3), and another address that has none is left out (RFC 2181, 9).
#[test]
fn glue_that_has_no_room_sets_tc(rt: HostRuntime) {
    for limit in 55..=110u16 {
        let (flags, count, glue, other) = match limit {
            55..=70 => (0x83, 0, b"".as_slice(), b"".as_slice()),
            71..=86 => (0x83, 1, b"".as_slice(), OTHER),
            87..=102 => (0x81, 2, GLUE, b"".as_slice()),
            _ => (0x81, 3, GLUE, OTHER),
        };
        let header = [0x12, 0x34, flags, 0, 0, 1, 0, 0, 0, 2, 0, count];
        let mut wanted = ArrayVec::<u8, 120>::new();
        assert!(rt; wanted.append_slice(&header).is_ok());
        for part in [ASKED, SERVERS, glue, other] {
            assert!(rt; wanted.append_slice(part).is_ok());
        }
        assert!(rt; referred(&rt, limit).as_slice() == wanted.as_slice());
    }
}
