// Ticks of a port, as many as there are while it runs on.
use crate::ops::Op;
use crate::streams::Streams;
use crate::{ops, say};
use layout::places;
use std::io;

// A port's first byte, while it runs.
const RUNNING: u8 = 2;

// After a tick with this answer the port runs on.
fn runs_on(state: &[u8], port: u8, answer: u8) -> bool {
    answer == 0 && base::byte_at(state, places::PORT * (port as usize)) == RUNNING
}

// The ticks that are left; or how many there were and the last one's answer are written, and the next op is read.
pub fn next(
    streams: &mut Streams,
    port: u8,
    most: u16,
    made: u16,
    answer: u8,
    state: &[u8],
) -> io::Result<Op> {
    let now = made.max(made.saturating_add(1).min(most));
    if now < most && runs_on(state, port, answer) {
        return Ok(Op::Ticks(port, most, now));
    }
    say::word(streams, now)?;
    say::byte(streams, answer)?;
    ops::read(streams)
}
