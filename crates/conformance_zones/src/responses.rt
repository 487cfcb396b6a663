//! A zone that is made of records, and the messages that answer queries to it.

use crate::records::{builder_of, finish, insert};
use crate::text::put_space;
use conformance_labels::{Answer, Fail, Fields, is, number_up_to, octets_of, split_once};
use domain_compress::CompressComposer;
use domain_zone::Zone;
use domain_zone_response::{ResponseError, Server, Transport, respond_to};

/// The zone of an apex and records, `;` between these. If they make none, that is noted.
fn zone_of(out: &Answer, apex: &[u8], records: &[u8]) -> Option<Zone> {
    let mut builder = builder_of(out, apex)?;
    for record in records.split(|octet| *octet == b';') {
        if insert(out, &mut builder, record).is_err() {
            out.fail(Fail::Bad);
        }
    }
    let zone = finish(out, builder);
    if zone.is_none() {
        out.fail(Fail::Bad);
    }
    zone
}

/// `udp/SIZE` or `tcp/SIZE`: how responses are sent, and the size that the server states.
fn server_of(out: &Answer, text: &[u8]) -> Option<Server> {
    let (word, size) = split_once(text, b'/');
    let payload_size = number_up_to(out, size.unwrap_or(b""), 65535) as u16;
    let transport = if is(word, b"udp") {
        Transport::Datagram
    } else if is(word, b"tcp") {
        Transport::Stream
    } else {
        out.fail(Fail::Bad);
        return None;
    };
    Some(Server {
        transport,
        payload_size,
    })
}

/// Appends the message that answers a query, or `none`.
fn put_response(out: &Answer, zone: &Zone, server: Server, query: &[u8]) {
    let target = CompressComposer::new(Vec::new(out.alloc()));
    match respond_to(out.alloc(), zone, query, server, target) {
        Ok(None) => out.put(b"none"),
        Ok(Some(made)) => out.put_hex(made.into_target().as_slice()),
        Err(ResponseError::NoRoom) => out.put(b"no room"),
        Err(ResponseError::Memory) => out.fail(Fail::Memory),
    }
}

/// `respond APEX RECORDS SERVER QUERIES`: the messages that answer queries, with a space between two.
pub fn put_responses(out: &Answer, line: &[u8]) {
    let fields = &Fields::new(line);
    fields.expect(5, out);
    let Some(zone) = zone_of(out, fields.at(1), fields.at(2)) else {
        return;
    };
    let Some(server) = server_of(out, fields.at(3)) else {
        return;
    };
    let mut is_first = true;
    for query in fields.at(4).split(|octet| *octet == b';') {
        put_space(out, &mut is_first);
        match octets_of(query, out.alloc()) {
            Ok(query) => put_response(out, &zone, server, query.as_slice()),
            Err(fail) => out.fail(fail),
        }
    }
}
