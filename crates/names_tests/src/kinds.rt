//! Every call over chains that end in messages and over kinds of names of the tests' own. Over other kinds and over
//! references to names the table has them.

use crate::calls::{
    ABSOLUTE, RELATIVE, every_call_of_absolute, every_call_of_relative, gives_labels, names_beside,
    relative_names_beside,
};
use crate::lists::{AbsoluteList, Numbered, RelativeList};
use crate::names::{SCATTERED, WWW, absolute, joined, parsed, relative};
use domain_label::Label;
use domain_list::NameLabels;
use domain_traits::ToRelativeName;
use std::process::Abort;

fn label(rt: &impl Abort, octets: &'static [u8]) -> Label<'static> {
    match Label::from_slice(octets) {
        Ok(label) => label,
        Err(_) => panic!(rt; "no label"),
    }
}

/// The labels of `www.Example.com.`
fn labels_of_www(rt: &impl Abort) -> [Label<'static>; 4] {
    [
        label(rt, b"www"),
        label(rt, b"Example"),
        label(rt, b"com"),
        Label::root(),
    ]
}

fn absolute_list<'x>(rt: &impl Abort, labels: &'x [Label<'static>]) -> AbsoluteList<'x> {
    match AbsoluteList::new(labels) {
        Some(name) => name,
        None => panic!(rt; "no absolute name"),
    }
}

fn relative_list<'x>(rt: &impl Abort, labels: &'x [Label<'static>]) -> RelativeList<'x> {
    match RelativeList::new(labels) {
        Some(name) => name,
        None => panic!(rt; "no relative name"),
    }
}

#[test]
fn one_function_goes_over_names_of_all_four_kinds(rt: HostRuntime) {
    let alloc = rt.alloc();
    let flat = absolute(&rt, WWW);
    assert!(rt; gives_labels(alloc, &flat, ABSOLUTE));
    let relative = relative(&rt, b"\x03www\x07Example");
    assert!(rt; gives_labels(alloc, &relative, RELATIVE));
    let scattered = parsed(&rt, SCATTERED, 15);
    assert!(rt; gives_labels(alloc, &scattered, ABSOLUTE));
    let chain = joined(&rt, b"\x03www", parsed(&rt, SCATTERED, 5));
    assert!(rt; gives_labels(alloc, &chain, ABSOLUTE));
}

#[test]
fn chains_that_end_in_messages(rt: HostRuntime) {
    let others = names_beside(&rt);
    let chain = joined(&rt, b"\x03www", parsed(&rt, SCATTERED, 5));
    every_call_of_absolute(&rt, rt.alloc(), &chain, &others, ABSOLUTE, false);
}

#[test]
fn absolute_names_of_other_types(rt: HostRuntime) {
    let others = names_beside(&rt);
    let labels = labels_of_www(&rt);
    let list = absolute_list(&rt, &labels);
    every_call_of_absolute(&rt, rt.alloc(), &list, &others, ABSOLUTE, false);
}

#[test]
fn relative_names_of_other_types(rt: HostRuntime) {
    let others = relative_names_beside(&rt);
    let labels = labels_of_www(&rt);
    let list = relative_list(&rt, &labels[..2]);
    every_call_of_relative(&rt, rt.alloc(), &list, &others, RELATIVE, false);
}

#[test]
fn names_in_other_types(rt: HostRuntime) {
    let absolute = Numbered {
        name: absolute(&rt, WWW),
        number: 1,
    };
    assert!(rt; gives_labels(rt.alloc(), &absolute, ABSOLUTE));
    assert!(rt; absolute.number == 1);
    let relative = Numbered {
        name: relative(&rt, b"\x03www\x07Example"),
        number: 1,
    };
    assert!(rt; gives_labels(rt.alloc(), &relative, RELATIVE));
}

#[test]
fn chains_of_other_types(rt: HostRuntime) {
    let labels = labels_of_www(&rt);
    let left = relative_list(&rt, &labels[..2]);
    let right = absolute_list(&rt, &labels[2..]);
    let Ok(chain) = left.chain(right) else {
        panic!(rt; "too long");
    };
    assert!(rt; gives_labels(rt.alloc(), &chain, ABSOLUTE));
    let (left, right) = chain.unwrap();
    assert!(rt; (left.compose_len(), right.compose_len()) == (12, 5));
}

#[test]
fn names_of_other_types_are_at_most_so_long(rt: HostRuntime) {
    let labels = [label(&rt, b"123456789"); 26];
    assert!(rt; RelativeList::new(&labels).is_none());
    assert!(rt; RelativeList::new(&labels[..25]).is_some());
    assert!(rt; AbsoluteList::new(&labels[..25]).is_none());
}
