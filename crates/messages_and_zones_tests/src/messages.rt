//! Messages that are built: each refusal by its name, and what is pushed after it; targets and limits that refuse
//! each octet in turn.

use crate::records::Unmeasured;
use arrayvec::ArrayVec;
use domain_data::A;
use domain_header::{Class, HeaderCounts, Ttl};
use domain_message::{Message, Question, Record, RecordSection, Section};
use domain_message_builder::{MessageBuilder, OptBuilder, PushError, StartError};
use domain_name::Name;
use domain_rdata::{Composer, Rtype};
use domain_wire::Ipv4Addr;
use octseq::{Octets, OctetsBuilder};
use std::process::Abort;

/// How many octets a header, a question of the root and a record with an address of the root have.
pub const HEADER: usize = 12;

pub const QUESTION: usize = 5;

pub const ADDRESS: usize = 15;

/// How many an OPT record without options has.
pub const OPT: usize = 11;

pub type Address = Record<Name<&'static [u8]>, A>;

/// Octets one after the other, after those of a vector.
pub fn joined(rt: &impl Abort, octets: Vec<u8>, parts: &[&[u8]]) -> Vec<u8> {
    let mut octets = octets;
    for part in parts {
        octets.extend_from_slice(part).expect(rt, "memory");
    }
    octets
}

/// The question for an address of the root.
pub fn question() -> Question<Name<&'static [u8]>> {
    Question::new(Name::root_ref(), Rtype::from_int(1), Class::from_int(1))
}

/// An address of the root.
pub fn address() -> Address {
    let addr = Ipv4Addr::new(192, 0, 2, 1);
    Record::new(
        Name::root_ref(),
        Class::from_int(1),
        Ttl::from_secs(300),
        A::new(addr),
    )
}

/// An OPT record without options.
pub fn opt(rt: &impl Abort) -> OptBuilder<&'static [u8]> {
    match OptBuilder::new(b"".as_slice()) {
        Ok(opt) => opt,
        Err(_) => panic!(rt; "too long"),
    }
}

/// A message that was begun.
pub fn begun<Target: Composer + Drop>(
    rt: &impl Abort,
    target: Target,
    limit: u16,
) -> MessageBuilder<Target> {
    match MessageBuilder::with_limit(target, limit) {
        Ok(message) => message,
        Err(_) => panic!(rt; "not begun"),
    }
}

/// How many records a section has, all of which are read.
fn read_records(rt: &impl Abort, section: RecordSection<'_>) -> u16 {
    let mut count: u16 = 0;
    for item in section {
        assert!(rt; item.is_ok());
        count = count.saturating_add(1);
    }
    count
}

/// A message has so many questions, and so many records in each section, all of which are read.
pub fn reads(rt: &impl Abort, octets: &[u8], counts: [u16; 4]) {
    let Ok(message) = Message::from_octets(octets) else {
        panic!(rt; "no message");
    };
    let mut questions: u16 = 0;
    for item in message.question() {
        assert!(rt; item.is_ok());
        questions = questions.saturating_add(1);
    }
    let (Ok(answer), Ok(authority), Ok(additional)) = (
        message.answer(),
        message.authority(),
        message.additional(),
    ) else {
        panic!(rt; "no section");
    };
    assert!(rt; questions == counts[0]);
    assert!(rt; read_records(rt, answer) == counts[1]);
    assert!(rt; read_records(rt, authority) == counts[2]);
    assert!(rt; read_records(rt, additional) == counts[3]);
}

/// The counts are these.
fn has(counts: HeaderCounts, wanted: [u16; 4]) -> bool {
    counts.qdcount() == wanted[0]
        && counts.ancount() == wanted[1]
        && counts.nscount() == wanted[2]
        && counts.arcount() == wanted[3]
}

#[test]
fn messages_are_not_begun(rt: HostRuntime) {
    let mut held = ArrayVec::<u8, 20>::new();
    assert!(rt; held.append_slice(b"a").is_ok());
    let begun = MessageBuilder::from_target(held);
    assert!(rt; matches!(begun, Err(StartError::NotEmpty)));
    let begun = MessageBuilder::with_limit(ArrayVec::<u8, 20>::new(), 11);
    assert!(rt; matches!(begun, Err(StartError::ShortLimit)));
    let begun = MessageBuilder::from_target(ArrayVec::<u8, 11>::new());
    assert!(rt; matches!(begun, Err(StartError::Append(_))));
    let begun = MessageBuilder::with_limit(ArrayVec::<u8, 12>::new(), 12);
    assert!(rt; begun.is_ok());
}

/// A message in a new target begins with a header of zeros, and isn't begun only where twelve octets have no room.
#[test]
fn a_message_begins_in_a_new_target(rt: HostRuntime) {
    let short = MessageBuilder::<ArrayVec<u8, 11>>::new(rt.alloc());
    assert!(rt; short.is_err());
    let (Ok(fixed), Ok(grown)) = (
        MessageBuilder::<ArrayVec<u8, 12>>::new(rt.alloc()),
        MessageBuilder::<Vec<u8>>::new(rt.alloc()),
    ) else {
        panic!(rt; "not begun");
    };
    assert!(rt; fixed.finish().as_slice() == [0; HEADER].as_slice());
    let mut grown = grown;
    assert!(rt; grown.push_question(&question()).is_ok());
    let expected = b"\0\0\0\0\0\x01\0\0\0\0\0\0\0\0\x01\0\x01".as_slice();
    assert!(rt; grown.finish().as_slice() == expected);
}

/// After each entry that is out of order, one in order is pushed.
#[test]
fn entries_out_of_order_change_nothing(rt: HostRuntime) {
    let mut message = begun(&rt, Vec::new(rt.alloc()), 65535);
    let (question, address) = (question(), address());
    assert!(rt; message.push(Section::Answer, &address).is_ok());
    assert!(rt; matches!(message.push_question(&question), Err(PushError::Order)));
    assert!(rt; message.push(Section::Authority, &address).is_ok());
    let pushed = message.push(Section::Answer, &address);
    assert!(rt; matches!(pushed, Err(PushError::Order)));
    assert!(rt; message.push(Section::Authority, &address).is_ok());
    assert!(rt; message.push_opt(&opt(&rt)).is_ok());
    let pushed = message.push(Section::Authority, &address);
    assert!(rt; matches!(pushed, Err(PushError::Order)));
    assert!(rt; message.push(Section::Additional, &address).is_ok());
    assert!(rt; message.len() == HEADER + 4 * ADDRESS + OPT);
    reads(&rt, message.finish().as_slice(), [0, 1, 2, 2]);
}

/// Octets that are set aside are refused to entries, until an OPT record is pushed into them.
#[test]
fn octets_that_are_set_aside_stay_so(rt: HostRuntime) {
    let mut message = begun(&rt, Vec::new(rt.alloc()), 32);
    assert!(rt; matches!(message.reserve(21), Err(PushError::Limit)));
    assert!(rt; message.reserve(20).is_ok() && message.reserved() == 20);
    let question = question();
    assert!(rt; matches!(message.push_question(&question), Err(PushError::Limit)));
    assert!(rt; message.reserve(15).is_ok());
    assert!(rt; message.push_question(&question).is_ok());
    assert!(rt; matches!(message.push_question(&question), Err(PushError::Limit)));
    assert!(rt; message.reserved() == 15 && message.len() == HEADER + QUESTION);
    assert!(rt; message.push_opt(&opt(&rt)).is_ok());
    assert!(rt; message.reserved() == 0 && message.limit() == 32);
    reads(&rt, message.finish().as_slice(), [1, 0, 0, 1]);
}

/// After a record that a full target refuses, a shorter one is pushed.
#[test]
fn full_targets_change_nothing(rt: HostRuntime) {
    let mut message = begun(&rt, ArrayVec::<u8, 30>::new(), 65535);
    assert!(rt; message.push_question(&question()).is_ok());
    let pushed = message.push(Section::Answer, &address());
    assert!(rt; matches!(pushed, Err(PushError::Append(_))));
    assert!(rt; message.len() == HEADER + QUESTION);
    assert!(rt; message.push_opt(&opt(&rt)).is_ok());
    reads(&rt, message.finish().as_slice(), [1, 0, 0, 1]);
}

/// No message has room for as many entries as a count tells: the limit is exceeded before.
#[test]
fn the_limit_comes_before_the_count(rt: HostRuntime) {
    let mut message = begun(&rt, Vec::new(rt.alloc()), 65535);
    let question = question();
    let mut refusals: u32 = 0;
    for _question in 0..65536u32 {
        match message.push_question(&question) {
            Ok(()) => assert!(rt; refusals == 0),
            Err(PushError::Limit) => refusals = refusals.saturating_add(1),
            Err(_) => panic!(rt; "another refusal"),
        }
    }
    assert!(rt; refusals == 65536 - 13104);
    assert!(rt; message.len() == HEADER + 13104 * QUESTION);
    reads(&rt, message.finish().as_slice(), [13104, 0, 0, 0]);
}

/// Data of 65,536 octets is refused as such, and data of 65,535 because the room doesn't suffice. A record after them
/// is pushed.
#[test]
fn long_data_changes_nothing(rt: HostRuntime) {
    let mut octets = Vec::new(rt.alloc());
    assert!(rt; octets.resize(65536, 0).is_ok());
    let mut message = begun(&rt, Vec::new(rt.alloc()), 65535);
    let (class, ttl) = (Class::from_int(1), Ttl::from_secs(0));
    assert!(rt; message.push(Section::Answer, &address()).is_ok());
    let data = Unmeasured::new(octets.as_slice());
    let record = Record::new(Name::root_ref(), class, ttl, data);
    let pushed = message.push(Section::Answer, &record);
    assert!(rt; matches!(pushed, Err(PushError::Long(_))));
    assert!(rt; message.len() == HEADER + ADDRESS);
    let Some((most, _)) = octets.as_slice().split_at_checked(65535) else {
        panic!(rt; "no octets");
    };
    let data = Unmeasured::new(most);
    let record = Record::new(Name::root_ref(), class, ttl, data);
    let pushed = message.push(Section::Answer, &record);
    assert!(rt; matches!(pushed, Err(PushError::Limit)));
    assert!(rt; message.push(Section::Answer, &address()).is_ok());
    assert!(rt; message.len() == HEADER + 2 * ADDRESS);
    reads(&rt, message.finish().as_slice(), [0, 2, 0, 0]);
}

/// An entry of `len` octets was pushed if and only if `room` has them. One that wasn't pushed changed nothing.
fn pushed_or_not<Target: Composer>(
    rt: &impl Abort,
    message: &MessageBuilder<Target>,
    before: usize,
    (len, room): (usize, usize),
    pushed: bool,
) -> u16 {
    let end = before.saturating_add(len);
    assert!(rt; pushed == (end <= room));
    assert!(rt; message.len() == if pushed { end } else { before });
    u16::from(pushed)
}

/// Pushes entries into a message that has room for `room` octets in all, and reads those that were pushed.
fn fill<Target: Composer + Drop>(rt: &impl Abort, message: MessageBuilder<Target>, room: usize) {
    let mut message = message;
    let mut counts = [0u16; 4];
    let before = message.len();
    let pushed = message.push_question(&question()).is_ok();
    counts[0] = pushed_or_not(rt, &message, before, (QUESTION, room), pushed);
    let before = message.len();
    let pushed = message.push(Section::Answer, &address()).is_ok();
    counts[1] = pushed_or_not(rt, &message, before, (ADDRESS, room), pushed);
    let before = message.len();
    let pushed = message.push_opt(&opt(rt)).is_ok();
    counts[3] = pushed_or_not(rt, &message, before, (OPT, room), pushed);
    assert!(rt; has(message.counts(), counts));
    reads(rt, message.finish().as_slice(), counts);
}

/// The same into a target that has room for `room` octets.
fn fill_target<Target: Composer + Drop>(rt: &impl Abort, target: Target, room: usize) {
    match MessageBuilder::from_target(target) {
        Ok(message) => fill(rt, message, room),
        Err(e) => {
            assert!(rt; room < HEADER);
            assert!(rt; matches!(e, StartError::Append(_)));
        }
    }
}

#[test]
fn each_limit_refuses_what_exceeds_it(rt: HostRuntime) {
    for limit in 0..=43u16 {
        match MessageBuilder::with_limit(Vec::new(rt.alloc()), limit) {
            Ok(message) => fill(&rt, message, usize::from(limit)),
            Err(e) => {
                assert!(rt; limit < 12);
                assert!(rt; matches!(e, StartError::ShortLimit));
            }
        }
    }
}

#[test]
fn each_room_of_a_header_and_less_refuses_what_exceeds_it(rt: HostRuntime) {
    fill_target(&rt, ArrayVec::<u8, 0>::new(), 0);
    fill_target(&rt, ArrayVec::<u8, 1>::new(), 1);
    fill_target(&rt, ArrayVec::<u8, 2>::new(), 2);
    fill_target(&rt, ArrayVec::<u8, 3>::new(), 3);
    fill_target(&rt, ArrayVec::<u8, 4>::new(), 4);
    fill_target(&rt, ArrayVec::<u8, 5>::new(), 5);
    fill_target(&rt, ArrayVec::<u8, 6>::new(), 6);
    fill_target(&rt, ArrayVec::<u8, 7>::new(), 7);
    fill_target(&rt, ArrayVec::<u8, 8>::new(), 8);
    fill_target(&rt, ArrayVec::<u8, 9>::new(), 9);
    fill_target(&rt, ArrayVec::<u8, 10>::new(), 10);
    fill_target(&rt, ArrayVec::<u8, 11>::new(), 11);
    fill_target(&rt, ArrayVec::<u8, 12>::new(), 12);
}

#[test]
fn each_room_beyond_a_header_refuses_what_exceeds_it(rt: HostRuntime) {
    fill_target(&rt, ArrayVec::<u8, 13>::new(), 13);
    fill_target(&rt, ArrayVec::<u8, 14>::new(), 14);
    fill_target(&rt, ArrayVec::<u8, 15>::new(), 15);
    fill_target(&rt, ArrayVec::<u8, 16>::new(), 16);
    fill_target(&rt, ArrayVec::<u8, 17>::new(), 17);
    fill_target(&rt, ArrayVec::<u8, 18>::new(), 18);
    fill_target(&rt, ArrayVec::<u8, 19>::new(), 19);
    fill_target(&rt, ArrayVec::<u8, 20>::new(), 20);
    fill_target(&rt, ArrayVec::<u8, 21>::new(), 21);
    fill_target(&rt, ArrayVec::<u8, 22>::new(), 22);
    fill_target(&rt, ArrayVec::<u8, 23>::new(), 23);
    fill_target(&rt, ArrayVec::<u8, 24>::new(), 24);
    fill_target(&rt, ArrayVec::<u8, 25>::new(), 25);
    fill_target(&rt, ArrayVec::<u8, 26>::new(), 26);
    fill_target(&rt, ArrayVec::<u8, 27>::new(), 27);
    fill_target(&rt, ArrayVec::<u8, 28>::new(), 28);
    fill_target(&rt, ArrayVec::<u8, 29>::new(), 29);
    fill_target(&rt, ArrayVec::<u8, 30>::new(), 30);
    fill_target(&rt, ArrayVec::<u8, 31>::new(), 31);
    fill_target(&rt, ArrayVec::<u8, 32>::new(), 32);
    fill_target(&rt, ArrayVec::<u8, 33>::new(), 33);
    fill_target(&rt, ArrayVec::<u8, 34>::new(), 34);
    fill_target(&rt, ArrayVec::<u8, 35>::new(), 35);
    fill_target(&rt, ArrayVec::<u8, 36>::new(), 36);
    fill_target(&rt, ArrayVec::<u8, 37>::new(), 37);
    fill_target(&rt, ArrayVec::<u8, 38>::new(), 38);
    fill_target(&rt, ArrayVec::<u8, 39>::new(), 39);
    fill_target(&rt, ArrayVec::<u8, 40>::new(), 40);
    fill_target(&rt, ArrayVec::<u8, 41>::new(), 41);
    fill_target(&rt, ArrayVec::<u8, 42>::new(), 42);
    fill_target(&rt, ArrayVec::<u8, 43>::new(), 43);
}
