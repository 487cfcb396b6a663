//! An answer in the making.

use std::alloc::{AllocError, Global};
use std::cell::Cell;
use std::cmp::Ordering;
use std::fmt::Display;

const DIGITS: [u8; 16] = *b"0123456789abcdef";

/// Why a line has no plain answer.
#[derive(Clone, Copy)]
pub enum Fail {
    /// The line is malformed, or an argument is no name.
    Bad,
    /// Memory was refused.
    Memory,
    /// Two calls that must agree did not.
    Wrong,
}

/// What was written of an answer, and what failed first.
///
/// A failure is noted here, so that no caller has to test for it: what is written after one is dropped with the rest.
/// All is written through a `&`, as in a log, which is cheaper to check than a `&mut` that is lent to call after call.
#[derive(Drop)]
pub struct Answer {
    alloc: Global,
    octets: Cell<Vec<u8>>,
    fail: Cell<Option<Fail>>,
    /// The call that did not agree, if one did not.
    wrong: Cell<Vec<u8>>,
}

impl Answer {
    pub fn new(alloc: Global) -> Answer {
        Answer {
            alloc,
            octets: Cell::new(Vec::new(alloc)),
            fail: Cell::new(None),
            wrong: Cell::new(Vec::new(alloc)),
        }
    }

    pub fn alloc(&self) -> Global {
        self.alloc
    }

    /// What a cell has. It is to be put back.
    fn taken(&self, cell: &Cell<Vec<u8>>) -> Vec<u8> {
        cell.replace(Vec::new(self.alloc))
    }

    /// How many octets the answer has.
    pub fn len(&self) -> usize {
        let octets = self.taken(&self.octets);
        let len = octets.len();
        self.octets.set(octets);
        len
    }

    /// Appends the line to all that is written: the answer, or what failed first.
    pub fn end_line(&self, out: &mut Vec<u8>) -> Result<(), AllocError> {
        match self.fail.get() {
            None => self.append_to(out, &self.octets)?,
            Some(Fail::Bad) => out.extend_from_slice(b"bad")?,
            Some(Fail::Memory) => out.extend_from_slice(b"memory")?,
            Some(Fail::Wrong) => {
                out.extend_from_slice(b"wrong ")?;
                self.append_to(out, &self.wrong)?;
            }
        }
        out.extend_from_slice(b"\n")
    }

    fn append_to(&self, out: &mut Vec<u8>, cell: &Cell<Vec<u8>>) -> Result<(), AllocError> {
        let octets = self.taken(cell);
        let done = out.extend_from_slice(octets.as_slice());
        cell.set(octets);
        done
    }

    /// Makes it empty again.
    pub fn clear(&self) {
        let mut octets = self.taken(&self.octets);
        octets.clear();
        self.octets.set(octets);
        self.fail.set(None);
    }

    /// The word of the line is another one: forgets what was noted of its fields, and is false.
    pub fn is_other_word(&self) -> bool {
        self.clear();
        false
    }

    pub fn fail(&self, fail: Fail) {
        if self.fail.get().is_none() {
            self.fail.set(Some(fail));
        }
    }

    /// A call that did not agree with another one.
    pub fn wrong(&self, call: &[u8]) {
        if self.fail.get().is_some() {
            return;
        }
        self.fail.set(Some(Fail::Wrong));
        match Vec::from_slice(self.alloc, call) {
            Ok(call) => self.wrong.set(call),
            Err(_) => self.fail.set(Some(Fail::Memory)),
        }
    }

    /// Two calls that must agree.
    pub fn agree(&self, holds: bool, call: &[u8]) {
        if !holds {
            self.wrong(call);
        }
    }

    /// Calls that must agree with others, and whether each does. Their names have a semicolon between.
    ///
    /// A literal is expensive to check, and so is a call on the answer: what calls made together say is put
    /// together.
    pub fn agree_all(&self, calls: &[u8], holds: &[bool]) {
        let mut names = calls.split(|octet| *octet == b';');
        for holds in holds {
            let call = names.next().unwrap_or(b"");
            self.agree(*holds, call);
        }
    }

    /// Two slices that must be the same.
    pub fn same(&self, a: &[u8], b: &[u8], call: &[u8]) {
        self.agree(a == b, call);
    }

    /// Octets for which memory was asked once, and for no more than they are, have room for no more: 8 octets are the
    /// least that a `Vec` asks for where it grows. If it grew on the way, it would have room for twice what it had.
    pub fn asked_once(&self, octets: &Vec<u8>, call: &[u8]) {
        self.agree(octets.capacity() <= octets.len().max(8), call);
    }

    /// Two values that must be shown alike.
    pub fn shown_alike<A: Display + Drop, B: Display + Drop>(&self, a: A, b: B, call: &[u8]) {
        let one = format!(in self.alloc; "{a}");
        let other = format!(in self.alloc; "{b}");
        match (one, other) {
            (Ok(one), Ok(other)) => self.same(one.as_bytes(), other.as_bytes(), call),
            _ => self.fail(Fail::Memory),
        }
    }

    /// Notes that memory was refused where a call was.
    pub fn took(&self, is_taken: bool) {
        if !is_taken {
            self.fail(Fail::Memory);
        }
    }

    /// Octets in a `Vec` of their own. If memory is refused, that is noted, and there are none.
    pub fn copy_of(&self, octets: &[u8]) -> Vec<u8> {
        match Vec::from_slice(self.alloc, octets) {
            Ok(copy) => copy,
            Err(_) => {
                self.fail(Fail::Memory);
                Vec::new(self.alloc)
            }
        }
    }

    /// Appends octets as they are.
    pub fn put(&self, octets: &[u8]) {
        let mut held = self.taken(&self.octets);
        let is_taken = held.extend_from_slice(octets).is_ok();
        self.octets.set(held);
        self.took(is_taken);
    }

    /// Appends octets in hexadecimal digits, none as a minus sign.
    pub fn put_hex(&self, octets: &[u8]) {
        if octets.is_empty() {
            self.put(b"-");
        }
        for octet in octets {
            let high = DIGITS[(*octet / 16) as usize];
            let low = DIGITS[(*octet % 16) as usize];
            self.put(&[high, low]);
        }
    }

    /// Appends what a value is shown as.
    pub fn put_text<D: Display + Drop>(&self, value: D) {
        match format!(in self.alloc; "{value}") {
            Ok(text) => self.put(text.as_bytes()),
            Err(_) => self.fail(Fail::Memory),
        }
    }

    /// Appends what a value is shown as, in hexadecimal digits.
    pub fn put_shown<D: Display + Drop>(&self, value: D) {
        match format!(in self.alloc; "{value}") {
            Ok(text) => self.put_hex(text.as_bytes()),
            Err(_) => self.fail(Fail::Memory),
        }
    }

    /// What was written from an offset on must be what the value is shown as.
    pub fn is_shown<D: Display + Drop>(&self, start: usize, value: D) {
        match format!(in self.alloc; "{value}") {
            Ok(text) => {
                let octets = self.taken(&self.octets);
                let holds = octets.get(start..) == Some(text.as_bytes());
                self.octets.set(octets);
                self.agree(holds, b"fmt");
            }
            Err(_) => self.fail(Fail::Memory),
        }
    }

    // Each of these appends a word first.

    pub fn put_hex_after(&self, word: &[u8], octets: &[u8]) {
        self.put(word);
        self.put_hex(octets);
    }

    pub fn put_text_after<D: Display + Drop>(&self, word: &[u8], value: D) {
        self.put(word);
        self.put_text(value);
    }

    pub fn put_shown_after<D: Display + Drop>(&self, word: &[u8], value: D) {
        self.put(word);
        self.put_shown(value);
    }

    pub fn put_number_after(&self, word: &[u8], value: usize) {
        self.put(word);
        self.put_number(value);
    }

    pub fn put_number(&self, value: usize) {
        self.put_text(value);
    }

    /// Appends a word and 0 or 1.
    pub fn put_bit(&self, word: &[u8], value: bool) {
        self.put(word);
        self.put(if value { b"1" } else { b"0" });
    }

    /// Appends a word and the sign of an order.
    pub fn put_order(&self, word: &[u8], value: Ordering) {
        self.put(word);
        self.put(match value {
            Ordering::Less => b"<",
            Ordering::Equal => b"=",
            Ordering::Greater => b">",
        });
    }

    /// A comma before each item but the first.
    pub fn put_comma(&self, is_first: &mut bool) {
        if *is_first {
            *is_first = false;
        } else {
            self.put(b",");
        }
    }

    /// `none` where no item came.
    pub fn put_none(&self, is_first: bool) {
        if is_first {
            self.put(b"none");
        }
    }
}
