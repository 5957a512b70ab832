// Each part of a lent state, read from its bytes: a part from its first byte on.
#![tactic(auto)]

ghost use Rattle.std.specs.Prelude.{◌≡◌, ◌+◌, ◌*◌, ◌≤◌, length};
ghost use Rattle.layout.specs.Places.{phase_length, block_length, console_length, printer_length, cassette_length};
ghost use Rattle.layout.specs.Layout.{device_in, kind_in, block_of, block_in, gather_in, header_in, run_in, reply_in, phase_in, reading_in, console_in, printer_in, cassette_in};

use blocks::{BlockState, ControlBlock, Device, Gather, Header, Kind, Phase, Reply, Run, Way};
use cassette::Cassette;
use console::state::Console;
use keys::keyboard::Keyboard;
use printer::Printer;

// Three bytes as a number, the low one first.
pub fn three(low: u8, middle: u8, high: u8) -> u32
    ensures { result ≡ low + 256 * middle + 65536 * high }
{
    u32::from_le_bytes([low, middle, high, 0])
}

#[tactic(auto, using(base::proofs::Tests::tests), unfolding(layout::specs::Layout::device_in))]
fn device(number: u8) -> Device
    ensures { result ≡ device_in number }
{
    match number {
        1 => Device::E,
        2 => Device::S,
        3 => Device::K,
        4 => Device::P,
        5 => Device::C,
        _ => Device::D,
    }
}

#[tactic(auto, using(base::proofs::Tests::tests), unfolding(layout::specs::Layout::kind_in))]
fn kind(number: u8) -> Kind
    ensures { result ≡ kind_in number }
{
    match number {
        0 => Kind::Get(Way::One),
        1 => Kind::Get(Way::Characters),
        2 => Kind::Get(Way::Record),
        3 => Kind::Put(Way::One),
        4 => Kind::Put(Way::Characters),
        _ => Kind::Put(Way::Record),
    }
}

#[tactic(auto, using(base::proofs::Tests::tests), unfolding(layout::specs::Layout::block_of))]
fn block_of(number: u8, unit: u8, aux1: u8) -> ControlBlock
    ensures { result ≡ block_of number unit aux1 }
{
    if number == 0 {
        return ControlBlock::CLOSED;
    }
    ControlBlock {
        state: BlockState::Open {
            device: device(number),
            number: unit,
            aux1,
        },
    }
}

// The block whose three bytes begin at this place.
pub fn block(bytes: &[u8], place: usize) -> ControlBlock
    requires { place + block_length ≤ length bytes.now }
    ensures { result ≡ block_in bytes.now place }
{
    block_of(bytes[place], bytes[place + 1], bytes[place + 2])
}

pub fn gather(bytes: &[u8]) -> Gather
    requires { phase_length ≤ length bytes.now }
    ensures { result ≡ gather_in bytes.now }
{
    Gather {
        tag: bytes[1],
        length: base::word(bytes[2], bytes[3]),
        taken: three(bytes[4], bytes[5], bytes[6]),
    }
}

pub fn header(bytes: &[u8]) -> Header
    requires { phase_length ≤ length bytes.now }
    ensures { result ≡ header_in bytes.now }
{
    Header {
        tag: bytes[1],
        length: base::word(bytes[2], bytes[3]),
    }
}

pub fn run(bytes: &[u8]) -> Run
    requires { phase_length ≤ length bytes.now }
    ensures { result ≡ run_in bytes.now }
{
    Run {
        kind: kind(bytes[1]),
        device: device(bytes[2]),
        iocb: bytes[3],
        left: base::word(bytes[4], bytes[5]),
        place: base::word(bytes[6], bytes[7]),
        count: base::word(bytes[8], bytes[9]),
        a: bytes[10],
    }
}

pub fn reply(bytes: &[u8]) -> Reply
    requires { phase_length ≤ length bytes.now }
    ensures { result ≡ reply_in bytes.now }
{
    Reply {
        length: base::word(bytes[1], bytes[2]),
        given: base::word(bytes[3], bytes[4]),
    }
}

#[tactic(auto, using(base::proofs::Tests::tests), unfolding(layout::specs::Layout::phase_in))]
pub fn phase(bytes: &[u8]) -> Phase
    requires { phase_length ≤ length bytes.now }
    ensures { result ≡ phase_in bytes.now }
{
    match bytes[0] {
        0 => Phase::Gathering(gather(bytes)),
        1 => Phase::Ready(header(bytes)),
        2 => Phase::Running(run(bytes)),
        _ => Phase::Replying(reply(bytes)),
    }
}

#[tactic(auto, using(base::proofs::Tests::tests))]
fn read_column(byte: u8) -> Option<u16>
    ensures { result ≡ reading_in byte }
{
    if byte == 255 {
        return None;
    }
    Some(byte as u16)
}

#[tactic(auto, unfolding(layout::specs::Layout::console_in))]
pub fn console(bytes: &[u8]) -> Console
    requires { console_length ≤ length bytes.now }
    ensures { result ≡ console_in bytes.now }
{
    let keyboard = Keyboard {
        code: bytes[7],
        lock: bytes[8],
        inverse: bytes[9],
    };
    Console {
        mode: bytes[0],
        row: bytes[1] as u16,
        column: base::word(bytes[2], bytes[3]),
        last: bytes[4],
        escape: bytes[5] == 1,
        reading: read_column(bytes[6]),
        keyboard: keyboard,
    }
}

pub fn printer(bytes: &[u8]) -> Printer
    requires { printer_length ≤ length bytes.now }
    ensures { result ≡ printer_in bytes.now }
{
    Printer {
        used: base::word(bytes[0], bytes[1]),
    }
}

pub fn cassette(bytes: &[u8]) -> Cassette
    requires { cassette_length ≤ length bytes.now }
    ensures { result ≡ cassette_in bytes.now }
{
    Cassette {
        mark: bytes[0],
        record: bytes[1],
        place: bytes[2],
    }
}
