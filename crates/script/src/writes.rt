// Bytes that a script writes into a buffer, whatever length of it is lent.
use crate::board::{Buffer, Views};
use crate::ops::Op;
use crate::streams::Streams;
use std::io;

// The most bytes that an op writes.
const ROOM: usize = 65536;

// The bytes are read, and written once all are there; false where the input ends before.
fn write(
    streams: &mut Streams,
    buffer: Option<Buffer>,
    at: u32,
    count: u16,
    views: &mut Views<'_>,
) -> io::Result<bool> {
    let mut room = [0u8; ROOM];
    let some = &mut room[..count as usize];
    if !streams.fill(some)? {
        return Ok(false);
    }
    if let Some(named) = buffer {
        views.write(named, at, some);
    }
    Ok(true)
}

// What an op writes into a buffer; the op, or the end of the script where the input ends inside it.
pub fn done(streams: &mut Streams, op: Op, views: &mut Views<'_>) -> io::Result<Op> {
    let Op::Write(buffer, at, count) = op else {
        return Ok(op);
    };
    if write(streams, buffer, at, count, views)? {
        return Ok(op);
    }
    Ok(Op::End)
}
