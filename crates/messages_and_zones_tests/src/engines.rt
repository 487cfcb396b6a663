//! The engine over readers and writers that fail, at each octet, and with memory refused.

use crate::memory::MOST_REFUSED;
use arrayvec::ArrayVec;
use domain_tool::tool::{ToolError, name_at, run};
use std::alloc::Global;
use std::io;
use std::io::{ErrorKind, Read, Write};
use std::process::Abort;

/// `com` at 0, `Example` and a pointer to it at 5, `www` and a pointer to that at 15.
pub const SCATTERED: &[u8] = b"\x03com\0\x07Example\xc0\0\x03www\xc0\x05";

/// The name at offset 15 of the message, as it is shown.
const LINE: &[u8] = b"www.Example.com.\n";

/// A reader that gives one octet at a time, and fails after a number of them.
#[derive(Drop)]
pub struct FailingReader<'a> {
    pub octets: &'a [u8],
    pub given: usize,
    pub fails_after: usize,
    pub kind: ErrorKind,
}

impl Read for FailingReader<'_> {
    fn read(&mut self, buf: &mut [u8]) -> io::Result<usize> {
        if self.given >= self.fails_after {
            return Err(io::Error::from(self.kind));
        }
        if buf.is_empty() || self.given >= self.octets.len() {
            return Ok(0);
        }
        buf[0] = self.octets[self.given];
        self.given += 1;
        Ok(1)
    }
}

/// A reader of the message that fails after a number of octets.
fn failing_reader(fails_after: usize, kind: ErrorKind) -> FailingReader<'static> {
    FailingReader {
        octets: SCATTERED,
        given: 0,
        fails_after,
        kind,
    }
}

/// A writer that takes a number of octets, and fails then.
#[derive(Drop)]
pub struct FailingWriter {
    pub left: usize,
    pub kind: ErrorKind,
}

impl Write for FailingWriter {
    fn write(&mut self, buf: &[u8]) -> io::Result<usize> {
        if self.left == 0 && !buf.is_empty() {
            return Err(io::Error::from(self.kind));
        }
        let taken = buf.len().min(self.left);
        self.left -= taken;
        Ok(taken)
    }

    fn flush(&mut self) -> io::Result<()> {
        Ok(())
    }
}

/// A writer that takes all octets, and counts the calls.
#[derive(Drop)]
pub struct CountingWriter {
    pub calls: u32,
    pub octets: usize,
}

impl Write for CountingWriter {
    fn write(&mut self, buf: &[u8]) -> io::Result<usize> {
        self.calls = self.calls.saturating_add(1);
        self.octets = self.octets.saturating_add(buf.len());
        Ok(buf.len())
    }

    fn flush(&mut self) -> io::Result<()> {
        Ok(())
    }
}

/// What makes reading and writing fail, and what the engine answers to each.
pub const KINDS: [(ErrorKind, ToolError, ToolError); 2] = [
    (ErrorKind::BrokenPipe, ToolError::Read, ToolError::Write),
    (ErrorKind::OutOfMemory, ToolError::Memory, ToolError::Memory),
];

#[test]
fn a_reader_that_fails_is_told(rt: HostRuntime) {
    for (kind, error, _) in KINDS {
        for fails_after in 0..SCATTERED.len() + 1 {
            let mut input = failing_reader(fails_after, kind);
            let mut output = ArrayVec::<u8, 32>::new();
            let answer = name_at(rt.alloc(), &mut input, &mut output, 15);
            assert!(rt; answer == Err(error) && output.is_empty());
        }
    }
}

#[test]
fn a_reader_that_gives_one_octet_at_a_time_is_read_to_its_end(rt: HostRuntime) {
    let mut input = failing_reader(usize::MAX, ErrorKind::BrokenPipe);
    let mut output = ArrayVec::<u8, 32>::new();
    assert!(rt; name_at(rt.alloc(), &mut input, &mut output, 15) == Ok(()));
    assert!(rt; output.as_slice() == LINE);
}

#[test]
fn a_writer_that_fails_is_told(rt: HostRuntime) {
    for (kind, _, error) in KINDS {
        for left in 0..LINE.len() + 1 {
            let mut input = SCATTERED;
            let mut output = FailingWriter { left, kind };
            let answer = name_at(rt.alloc(), &mut input, &mut output, 15);
            let wanted = if left < LINE.len() {
                Err(error)
            } else {
                Ok(())
            };
            assert!(rt; answer == wanted);
        }
    }
}

#[test]
fn failed_reading_has_a_status_and_a_text(rt: HostRuntime) {
    for (kind, text) in [
        (ErrorKind::BrokenPipe, b"reading failed\n".as_slice()),
        (ErrorKind::OutOfMemory, b"out of memory\n"),
    ] {
        let mut input = failing_reader(3, kind);
        let mut output = ArrayVec::<u8, 32>::new();
        let mut told = ArrayVec::<u8, 32>::new();
        let status = run(rt.alloc(), &["at", "0"], &mut input, &mut output, &mut told);
        assert!(rt; status == 3 && told.as_slice() == text);
    }
}

#[test]
fn failed_writing_has_a_status_and_a_text(rt: HostRuntime) {
    for (kind, text) in [
        (ErrorKind::BrokenPipe, b"writing failed\n".as_slice()),
        (ErrorKind::OutOfMemory, b"out of memory\n"),
    ] {
        let mut input = SCATTERED;
        let mut output = FailingWriter { left: 2, kind };
        let mut told = ArrayVec::<u8, 32>::new();
        let status = run(rt.alloc(), &["at", "0"], &mut input, &mut output, &mut told);
        assert!(rt; status == 3 && told.as_slice() == text);
    }
}

/// What the words are answered over the message, the reason being told to a writer.
fn status_of<E: Write>(alloc: Global, words: &[&str], told: &mut E) -> u8 {
    let mut input = SCATTERED;
    let mut output = ArrayVec::<u8, 32>::new();
    run(alloc, words, &mut input, &mut output, told)
}

#[test]
fn a_reason_that_is_not_written_changes_no_status(rt: HostRuntime) {
    let mut told = FailingWriter {
        left: 0,
        kind: ErrorKind::BrokenPipe,
    };
    assert!(rt; status_of(rt.alloc(), &["at", "99"], &mut told) == 1);
    assert!(rt; status_of(rt.alloc(), &["at"], &mut told) == 2);
    let mut input = failing_reader(3, ErrorKind::BrokenPipe);
    let mut output = ArrayVec::<u8, 32>::new();
    assert!(rt; run(rt.alloc(), &["at", "0"], &mut input, &mut output, &mut told) == 3);
}

/// The name of three labels of 63 octets and one of 61, each octet four characters.
fn longest_name(rt: &impl Abort, alloc: Global) -> Vec<u8> {
    let mut octets = Vec::new(alloc);
    for len in [63u8, 63, 63, 61] {
        assert!(rt; octets.push(len).is_ok());
        for _octet in 0..len {
            assert!(rt; octets.push(0x80).is_ok());
        }
    }
    assert!(rt; octets.push(0).is_ok());
    octets
}

#[test]
fn a_line_is_written_by_one_call(rt: HostRuntime) {
    let longest = longest_name(&rt, rt.alloc());
    for (message, octets) in [(longest.as_slice(), 1005), (SCATTERED, 5), (b"\0", 2)] {
        let mut input = message;
        let mut output = CountingWriter {
            calls: 0,
            octets: 0,
        };
        let answer = name_at(rt.alloc(), &mut input, &mut output, 0);
        assert!(rt; answer == Ok(()));
        assert!(rt; (output.calls, output.octets) == (1, octets));
    }
}

#[test]
fn a_reason_is_written_by_one_call(rt: HostRuntime) {
    let mut told = CountingWriter {
        calls: 0,
        octets: 0,
    };
    assert!(rt; status_of(rt.alloc(), &["at", "99"], &mut told) == 1);
    assert!(rt; status_of(rt.alloc(), &[], &mut told) == 2);
    assert!(rt; told.calls == 2);
}

#[test]
fn the_engine_answers_or_tells_that_memory_was_refused(rt: HostRuntime) {
    let mut input = SCATTERED;
    let mut output = ArrayVec::<u8, 20>::new();
    match name_at(rt.alloc(), &mut input, &mut output, 15) {
        Ok(()) => assert!(rt; output.as_slice() == b"www.Example.com.\n".as_slice()),
        Err(e) => {
            assert!(rt; e == ToolError::Memory);
            assert!(rt; MOST_REFUSED == 1 && output.is_empty());
        }
    }
}
