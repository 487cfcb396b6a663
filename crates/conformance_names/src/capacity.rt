//! Octets and builders that are made with a capacity.

use arrayvec::ArrayVec;
use conformance_labels::{Answer, Fail, length_of};
use domain_name::NameBuilder;
use octseq::{EmptyBuilder, Octets, OctetsBuilder, OctetsMut, ShortBuf};

/// `capacity LEN`: `ok` where the room was given, over a `Vec` and over an array of 8 octets; and so for builders.
pub fn put_capacity(out: &Answer, digits: &[u8]) {
    let Some(len) = length_of(digits) else {
        return out.fail(Fail::Bad);
    };
    put_vec(out, len);
    put_array(out, len);
    let alloc = out.alloc();
    put_builder(out, NameBuilder::<Vec<u8>>::with_capacity(alloc, len));
    put_builder(out, NameBuilder::vec_with_capacity(alloc, len));
    put_builder(
        out,
        NameBuilder::<ArrayVec<u8, 8>>::with_capacity(alloc, len),
    );
}

fn put_vec(out: &Answer, len: usize) {
    match <Vec<u8> as EmptyBuilder>::with_capacity(out.alloc(), len) {
        Ok(made) => {
            out.agree(made.is_empty() && made.capacity() >= len, b"with_capacity");
            out.put(b"ok");
        }
        Err(_) => out.put(b"err"),
    }
}

/// An array has its own room, whatever number is asked for.
fn put_array(out: &Answer, len: usize) {
    match <ArrayVec<u8, 8> as EmptyBuilder>::with_capacity(out.alloc(), len) {
        Ok(made) => {
            out.agree(made.is_empty() && made.capacity() == 8, b"with_capacity");
            out.put(b" ok");
        }
        Err(_) => out.put(b" err"),
    }
}

/// A builder begins with nothing, and takes an octet.
fn put_builder<B: OctetsBuilder + OctetsMut + Drop>(
    out: &Answer,
    made: Result<NameBuilder<B>, ShortBuf>,
) {
    match made {
        Ok(mut builder) => {
            out.agree_all(
                b"with_capacity;with_capacity;push",
                &[
                    builder.is_empty(),
                    !builder.in_label(),
                    builder.push(b'a').is_ok(),
                ],
            );
            out.same(Octets::as_slice(&builder), b"\0a", b"push");
            out.put(b" ok");
        }
        Err(_) => out.put(b" err"),
    }
}
