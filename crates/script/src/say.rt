// Bytes on standard output.
use crate::streams::Streams;
use std::io;

pub fn bytes(streams: &mut Streams, some: &[u8]) -> io::Result<()> {
    streams.write(some)
}

pub fn byte(streams: &mut Streams, one: u8) -> io::Result<()> {
    bytes(streams, &[one])
}

// A number of two bytes, the low one first.
pub fn word(streams: &mut Streams, number: u16) -> io::Result<()> {
    bytes(streams, &number.to_le_bytes())
}
