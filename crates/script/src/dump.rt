// A dump: area, screen and paper whole, then what the state holds but for the cassette and the blocks' places on diskettes, from its
// bytes.
use crate::say;
use crate::streams::Streams;
use layout::places;
use std::io;

const CONSOLE: usize = places::DEVICES + places::CONSOLE;

const PRINTER: usize = places::DEVICES + places::PRINTER;

const CASSETTE: usize = places::DEVICES + places::CASSETTE;

// The letter of the device whose number a block holds.
fn letter(device: u8) -> u8 {
    match device {
        1 => b'E',
        2 => b'S',
        3 => b'K',
        4 => b'P',
        5 => b'C',
        _ => b'D',
    }
}

// Open, device letter, number, AUX1; zeros for a closed block.
fn write_block(streams: &mut Streams, block: &[u8]) -> io::Result<()> {
    let device = base::byte_at(block, 0);
    if device == 0 {
        return say::bytes(streams, b"\x00\x00\x00\x00");
    }
    let number = base::byte_at(block, 1);
    let aux1 = base::byte_at(block, 2);
    say::bytes(streams, &[1, letter(device), number, aux1])
}

// A port's blocks.
fn write_table(streams: &mut Streams, table: &[u8]) -> io::Result<()> {
    for block in table.chunks(places::BLOCK) {
        write_block(streams, block)?;
    }
    Ok(())
}

fn write_state(streams: &mut Streams, state: &[u8; places::STATE]) -> io::Result<()> {
    say::bytes(streams, &state[PRINTER..CASSETTE])?;
    say::bytes(streams, &state[CONSOLE..PRINTER])?;
    write_table(streams, &state[places::PHASE..places::PORT])?;
    write_table(
        streams,
        &state[places::PORT + places::PHASE..places::DEVICES],
    )?;
    say::byte(streams, state[0])?;
    say::byte(streams, state[places::PORT])
}

// Of a state of a wrong length nothing is written.
pub fn write(
    streams: &mut Streams,
    state: &[u8],
    area: &[u8],
    screen: &[u8],
    paper: &[u8],
) -> io::Result<()> {
    say::bytes(streams, area)?;
    say::bytes(streams, screen)?;
    say::bytes(streams, paper)?;
    if let Some(whole) = state.as_array() {
        write_state(streams, whole)?;
    }
    Ok(())
}
