// A dump of the tape: its bytes whole, then what the state holds of the cassette.
use crate::say;
use crate::streams::Streams;
use layout::places;
use std::io;

const CASSETTE: usize = places::DEVICES + places::CASSETTE;

const PENDING: usize = places::DEVICES + places::PENDING;

const DISK: usize = places::DEVICES + places::DISK;

// The cassette's mark, while the tape is written.
const WRITING: u8 = 2;

// How many characters are pending.
fn pending(mark: u8, place: u8) -> usize {
    if mark == WRITING { place as usize } else { 0 }
}

// The first characters of some, and zeros behind them.
fn write_pending(streams: &mut Streams, some: &[u8], count: usize) -> io::Result<()> {
    let zeros = [0u8; places::PENDED];
    let here = count.min(some.len());
    let behind = count.min(zeros.len());
    say::bytes(streams, &some[..here])?;
    say::bytes(streams, &zeros[behind..])
}

// Mark, record as two bytes, place, and the pending characters.
fn write_cassette(streams: &mut Streams, state: &[u8; places::STATE]) -> io::Result<()> {
    let mark = state[CASSETTE];
    let place = state[CASSETTE + 2];
    say::bytes(streams, &[mark, state[CASSETTE + 1], 0, place])?;
    write_pending(streams, &state[PENDING..DISK], pending(mark, place))
}

// Of a state of a wrong length nothing is written.
pub fn write(streams: &mut Streams, state: &[u8], tape: &[u8]) -> io::Result<()> {
    say::bytes(streams, tape)?;
    if let Some(whole) = state.as_array() {
        write_cassette(streams, whole)?;
    }
    Ok(())
}
