//! A stream in pieces of every size, and what is refused, through each public call.
use crate::{CutOff, StreamError, StreamMessages, StreamReader, append_message};
use arrayvec::ArrayVec;
use std::process::Abort;

/// Three messages, the second without octets, and the start of a fourth.
const STREAM: &[u8] = b"\x00\x03abc\x00\x00\x00\x05defgh\x01\x00ij";

/// Appends each message that comes of pieces of this size, and a bar after it.
fn read_pieces(rt: &impl Abort, size: usize) -> ArrayVec<u8, 32> {
    let mut read = ArrayVec::new();
    let mut reader = StreamReader::new(ArrayVec::<u8, 258>::new(), 256);
    let mut left = STREAM;
    for _push in 0..STREAM.len() {
        if left.is_empty() {
            break;
        }
        let piece = &left[..size.min(left.len())];
        let taken = reader.push(piece).unwrap_or(0);
        assert!(rt; taken > 0 && taken <= left.len());
        left = &left[taken..];
        if let Some(message) = reader.message() {
            assert!(rt; read.try_extend_from_slice(message).is_ok());
            assert!(rt; read.try_push(b'|').is_ok());
        }
        reader.remove_message();
    }
    assert!(rt; reader.finish() == Err(CutOff { missing: 254 }));
    read
}

#[test]
fn pieces_of_every_size(rt: HostRuntime) {
    for size in 1..STREAM.len() + 1 {
        let read = read_pieces(&rt, size);
        assert_eq!(rt;
            read.as_slice(),
            b"abc||defgh|".as_slice(),
            "pieces of {size}"
        );
    }
}

#[test]
fn messages_in_a_slice(rt: HostRuntime) {
    let mut messages = StreamMessages::new(STREAM);
    assert_eq!(rt; messages.rest(), b"\x01\x00ij".as_slice());
    assert_eq!(rt; messages.next(), Some(b"abc".as_slice()));
    assert_eq!(rt; messages.next(), Some(b"".as_slice()));
    assert_eq!(rt; messages.next(), Some(b"defgh".as_slice()));
    assert_eq!(rt; messages.next(), None);
    assert_eq!(rt; messages.next(), None);
    assert!(rt; messages.finish() == Err(CutOff { missing: 254 }));
}

#[test]
fn written_to_a_stream(rt: HostRuntime) {
    let mut stream = ArrayVec::<u8, 10>::new();
    assert!(rt; append_message(b"abc", &mut stream).is_ok());
    assert!(rt; append_message(b"", &mut stream).is_ok());
    assert!(rt;
        matches!(
            append_message(b"de", &mut stream),
            Err(StreamError::Append(_))
        )
    );
    assert!(rt; append_message(b"f", &mut stream).is_ok());
    assert_eq!(rt;
        stream.as_slice(),
        b"\x00\x03abc\x00\x00\x00\x01f".as_slice()
    );
}

#[test]
fn refused_by_name(rt: HostRuntime) {
    let mut reader = StreamReader::new(ArrayVec::<u8, 6>::new(), 5);
    assert!(rt; matches!(reader.push(b"\x00"), Ok(1)));
    assert!(rt; matches!(reader.push(b"\x06abcdef"), Err(StreamError::Oversized(6))));
    assert!(rt; reader.finish() == Err(CutOff { missing: 1 }));
    assert!(rt; matches!(reader.push(b"\x05abcde"), Err(StreamError::Append(_))));
    assert!(rt; matches!(reader.push(b"\x04abcde"), Ok(5)));
    assert_eq!(rt; reader.message(), Some(b"abcd".as_slice()));
    assert!(rt; matches!(reader.push(b"e"), Ok(0)));
    reader.remove_message();
    assert!(rt; reader.finish() == Ok(()));
}
