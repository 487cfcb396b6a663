//! Messages that are cut, messages whose entries are taken away again, and messages in streams.

use crate::messages::{ADDRESS, HEADER, OPT, QUESTION, address, begun, opt, question, reads};
use crate::names::{WWW, absolute};
use arrayvec::ArrayVec;
use domain_compress::CompressComposer;
use domain_data::{A, Cname};
use domain_header::{Class, Header, Ttl};
use domain_message::{Message, Question, Record, Section};
use domain_message_builder::{MessageBuilder, OptBuilder, PushError};
use domain_name::Name;
use domain_parsed::ParsedName;
use domain_rdata::{Composer, Rtype};
use domain_traits::ToName;
use domain_wire::Ipv4Addr;
use octseq::{Octets, OctetsBuilder, Parser, ShortBuf};
use std::process::Abort;

/// A header with an identifier and the bits QR and RD.
fn header() -> Header {
    let mut header = Header::new();
    header.set_id(4660);
    header.set_qr(true);
    header.set_rd(true);
    header
}

/// A message has this header, with TC set if and only if `is_cut`, and `len` octets.
fn ends(rt: &impl Abort, octets: &[u8], is_cut: bool, len: usize) {
    let Ok(message) = Message::from_octets(octets) else {
        panic!(rt; "no message");
    };
    let mut wanted = header();
    wanted.set_tc(is_cut);
    assert!(rt; message.header() == wanted);
    assert!(rt; octets.len() == len);
}

/// An answer of three addresses, as many as are pushed, and of an OPT record if there is one.
fn answered<Target: Composer + Drop>(
    rt: &impl Abort,
    message: MessageBuilder<Target>,
    opt: Option<&OptBuilder<&'static [u8]>>,
) -> Result<Target, PushError<Target::AppendError>> {
    let mut message = message;
    message.set_header(header());
    assert!(rt; message.push_question(&question()).is_ok());
    let address = address();
    for _record in 0..3u8 {
        if let Err(e) = message.push(Section::Answer, &address) {
            return message.finish_or_truncate(Err(e), opt);
        }
    }
    message.finish_or_truncate(Ok(()), opt)
}

/// The OPT record was set aside: up to each limit there are as many addresses as have room, each whole, and it.
#[test]
fn cut_answers_keep_whole_records(rt: HostRuntime) {
    let alone = HEADER + QUESTION + OPT;
    for limit in 28..=80u16 {
        let mut message = begun(&rt, Vec::new(rt.alloc()), limit);
        assert!(rt; message.reserve(11).is_ok());
        let count = ((limit - 28) / 15).min(3);
        let Ok(made) = answered(&rt, message, Some(&opt(&rt))) else {
            panic!(rt; "not finished");
        };
        let len = alone + usize::from(count) * ADDRESS;
        ends(&rt, made.as_slice(), count < 3, len);
        reads(&rt, made.as_slice(), [1, count, 0, 1]);
    }
}

/// It wasn't: where it has no room after the addresses, it is there in their place, and where it has none after the
/// question, there is no message.
#[test]
fn the_opt_record_is_never_lost(rt: HostRuntime) {
    for limit in 17..=80u16 {
        let message = begun(&rt, Vec::new(rt.alloc()), limit);
        let count = ((limit - 17) / 15).min(3);
        let fits = 17 + count * 15 + 11 <= limit;
        match answered(&rt, message, Some(&opt(&rt))) {
            Ok(made) => {
                let kept = if fits { count } else { 0 };
                let len = HEADER + QUESTION + usize::from(kept) * ADDRESS + OPT;
                ends(&rt, made.as_slice(), kept < 3, len);
                reads(&rt, made.as_slice(), [1, kept, 0, 1]);
            }
            Err(e) => {
                assert!(rt; limit < 28);
                assert!(rt; matches!(e, PushError::Limit));
            }
        }
    }
}

/// A target that is full is as a limit, and without an OPT record there is none.
fn fill_target<Target: Composer + Drop>(rt: &impl Abort, target: Target, count: u16) {
    let message = begun(rt, target, 65535);
    match answered(rt, message, None) {
        Ok(made) => {
            let len = HEADER + QUESTION + usize::from(count) * ADDRESS;
            ends(rt, made.as_slice(), count < 3, len);
            reads(rt, made.as_slice(), [1, count, 0, 0]);
        }
        Err(_) => panic!(rt; "not finished"),
    }
}

#[test]
fn full_targets_cut_answers(rt: HostRuntime) {
    fill_target(&rt, ArrayVec::<u8, 17>::new(), 0);
    fill_target(&rt, ArrayVec::<u8, 31>::new(), 0);
    fill_target(&rt, ArrayVec::<u8, 32>::new(), 1);
    fill_target(&rt, ArrayVec::<u8, 61>::new(), 2);
    fill_target(&rt, ArrayVec::<u8, 62>::new(), 3);
}

/// Refusals for any reason except room are returned, and no message is made.
#[test]
fn other_refusals_are_returned(rt: HostRuntime) {
    let none: Option<&OptBuilder<&'static [u8]>> = None;
    let message = begun(&rt, ArrayVec::<u8, 12>::new(), 12);
    let finished = message.finish_or_truncate(Err(PushError::Order), none);
    assert!(rt; matches!(finished, Err(PushError::Order)));
    let message = begun(&rt, ArrayVec::<u8, 12>::new(), 12);
    let finished = message.finish_or_truncate(Err(PushError::Count), none);
    assert!(rt; matches!(finished, Err(PushError::Count)));
    let message = begun(&rt, ArrayVec::<u8, 12>::new(), 12);
    let finished = message.finish_or_truncate(Err(PushError::Append(ShortBuf)), none);
    assert!(rt; finished.is_ok());
}

/// The name at an offset of a message is this one.
fn names(rt: &impl Abort, message: &[u8], offset: usize, octets: &[u8]) {
    let mut parser = Parser::from_ref(message);
    assert!(rt; parser.seek(offset).is_ok());
    match ParsedName::parse(&mut parser) {
        Ok(name) => assert!(rt; name.name_eq(&absolute(rt, octets))),
        Err(_) => panic!(rt; "no name at {offset}"),
    }
}

/// An address of a name.
fn address_of<'a>(rt: &impl Abort, octets: &'a [u8]) -> Record<Name<&'a [u8]>, A> {
    let (class, ttl) = (Class::from_int(1), Ttl::from_secs(300));
    let addr = Ipv4Addr::new(192, 0, 2, 1);
    Record::new(absolute(rt, octets), class, ttl, A::new(addr))
}

/// No pointer leads to a name that was taken away, also where it was written for a record that was refused.
#[test]
fn names_that_were_taken_away_are_written_again(rt: HostRuntime) {
    let target = CompressComposer::new(Vec::new(rt.alloc()));
    let mut message = begun(&rt, target, 58);
    let record = address_of(&rt, WWW);
    assert!(rt; message.push(Section::Answer, &record).is_ok());
    let rewound = message.len();
    message.rewind(Section::Answer);
    assert!(rt; message.len() == HEADER && message.counts().ancount() == 0);
    assert!(rt; message.push(Section::Authority, &address()).is_ok());
    assert!(rt; message.push(Section::Authority, &record).is_ok());
    assert!(rt; rewound == HEADER + 31 && message.len() == HEADER + ADDRESS + 31);
    names(
        &rt,
        message.finish().into_target().as_slice(),
        HEADER + ADDRESS,
        WWW,
    );
    let target = CompressComposer::new(Vec::new(rt.alloc()));
    let mut message = begun(&rt, target, 42);
    let (class, ttl) = (Class::from_int(1), Ttl::from_secs(300));
    assert!(rt;
        matches!(
            message.push(Section::Answer, &record),
            Err(PushError::Limit)
        )
    );
    let alias = Record::new(absolute(&rt, WWW), class, ttl, Cname::new(Name::root_ref()));
    assert!(rt; message.push(Section::Answer, &alias).is_ok());
    assert!(rt; message.len() == HEADER + 28);
    names(&rt, message.finish().into_target().as_slice(), HEADER, WWW);
}

/// What is before the entries that were taken away stays, and others are pushed in their place.
#[test]
fn sections_are_filled_again(rt: HostRuntime) {
    let mut message = begun(&rt, Vec::new(rt.alloc()), 65535);
    let (question, address) = (question(), address());
    assert!(rt; message.push_question(&question).is_ok());
    for section in [
        Section::Answer,
        Section::Authority,
        Section::Authority,
        Section::Additional,
    ] {
        assert!(rt; message.push(section, &address).is_ok());
    }
    message.rewind(Section::Authority);
    assert!(rt; message.len() == HEADER + QUESTION + ADDRESS);
    assert!(rt; message.push(Section::Answer, &address).is_ok());
    assert!(rt; message.push_opt(&opt(&rt)).is_ok());
    message.rewind(Section::Additional);
    assert!(rt; message.push(Section::Authority, &address).is_ok());
    let octets = message.finish();
    reads(&rt, octets.as_slice(), [1, 2, 1, 0]);
    let mut message = begun(&rt, Vec::new(rt.alloc()), 65535);
    assert!(rt; message.push(Section::Additional, &address).is_ok());
    message.rewind_all();
    assert!(rt; message.push_question(&question).is_ok());
    assert!(rt; message.len() == HEADER + QUESTION);
    reads(&rt, message.finish().as_slice(), [1, 0, 0, 0]);
}

/// Two messages, one after the other: each has its length before it, and its pointers count from its own first octet.
#[test]
fn pointers_count_from_the_first_octet_of_a_message(rt: HostRuntime) {
    let name = absolute(&rt, WWW);
    let question = Question::new(name, Rtype::from_int(1), Class::from_int(1));
    let record = address_of(&rt, WWW);
    let mut stream = Vec::new(rt.alloc());
    for _message in 0..2u8 {
        let before = stream.len();
        let target = CompressComposer::new(Vec::new(rt.alloc()));
        let mut message = begun(&rt, target, 65535);
        assert!(rt; message.push_question(&question).is_ok());
        assert!(rt; message.push(Section::Answer, &record).is_ok());
        let Ok(made) = message.finish_stream(&mut stream) else {
            panic!(rt; "no room");
        };
        let Some((_, framed)) = stream.as_slice().split_at_checked(before) else {
            panic!(rt; "no message");
        };
        assert!(rt; framed.starts_with(&[0, 49]) && framed.len() == 51);
        let Some((_, octets)) = framed.split_at_checked(2) else {
            panic!(rt; "no message");
        };
        assert!(rt; octets == made.as_slice());
        reads(&rt, octets, [1, 1, 0, 0]);
        names(&rt, octets, 33, WWW);
        assert!(rt; octets[33] == 192 && octets[34] == 12);
    }
}

/// A message of twelve octets in a stream that has room for so many, one of which it has.
fn fill_stream<Stream: OctetsBuilder + Drop>(rt: &impl Abort, stream: Stream, room: usize) {
    let mut stream = stream;
    assert!(rt; stream.append_slice(&[9]).is_ok());
    let message = begun(rt, ArrayVec::<u8, 12>::new(), 12);
    let fits = message.finish_stream(&mut stream).is_ok();
    assert!(rt; fits == (room >= 15));
    assert!(rt; stream.as_slice().len() == if fits { 15 } else { 1 });
}

#[test]
fn full_streams_are_unchanged(rt: HostRuntime) {
    fill_stream(&rt, ArrayVec::<u8, 1>::new(), 1);
    fill_stream(&rt, ArrayVec::<u8, 2>::new(), 2);
    fill_stream(&rt, ArrayVec::<u8, 3>::new(), 3);
    fill_stream(&rt, ArrayVec::<u8, 14>::new(), 14);
    fill_stream(&rt, ArrayVec::<u8, 15>::new(), 15);
}
