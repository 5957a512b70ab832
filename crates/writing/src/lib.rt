// Each part of a lent state, written into its bytes: a part from its first byte on. Every other byte stays.
#![tactic(auto)]

ghost use Rattle.std.specs.Prelude.{◌≡◌, ◌+◌, ◌≤◌, length};
ghost use Rattle.std.proofs.lemmas.List.Edits.{sets};
ghost use Rattle.base.specs.Choice.{pick};
ghost use Rattle.layout.specs.Places.{port_length};
ghost use Rattle.layout.specs.Layout.{device_number, way_number, put_number, kind_number, block_bytes, table_bytes, phase_bytes, port_bytes, reading_byte, console_bytes, printer_bytes, cassette_bytes};

use blocks::{
    BlockState, ControlBlock, Device, Gather, Header, Kind, Phase, Port, Reply, Run, Table, Way,
};
use cassette::Cassette;
use console::state::Console;
use layout::places::{BLOCK, PHASE, PORT};
use printer::Printer;

// No impl of From: the numbers are the lent state's own, and their definitions stand in layout, above the enums' crate.
fn device_number(device: Device) -> u8
    ensures { result ≡ device_number device }
{
    match device {
        Device::E => 1,
        Device::S => 2,
        Device::K => 3,
        Device::P => 4,
        Device::C => 5,
        Device::D => 6,
    }
}

fn way_number(way: Way) -> u8
    ensures { result ≡ way_number way }
{
    match way {
        Way::One => 0,
        Way::Characters => 1,
        Way::Record => 2,
    }
}

fn put_number(way: Way) -> u8
    ensures { result ≡ put_number way }
{
    match way {
        Way::One => 3,
        Way::Characters => 4,
        Way::Record => 5,
    }
}

fn kind_number(kind: Kind) -> u8
    ensures { result ≡ kind_number kind }
{
    match kind {
        Kind::Get(way) => way_number(way),
        Kind::Put(way) => put_number(way),
    }
}

// The three bytes of a block, at this place.
pub fn block(bytes: &mut [u8], place: usize, block: ControlBlock)
    ensures { bytes.new ≡ sets bytes.old place (block_bytes block) }
{
    match block.state {
        BlockState::Closed => base::lay(bytes, place, &[0, 0, 0]),
        BlockState::Open {
            device,
            number,
            aux1,
        } => base::lay(bytes, place, &[device_number(device), number, aux1]),
    }
}

fn table(bytes: &mut [u8], table: Table)
    ensures { bytes.new ≡ sets bytes.old 0 (table_bytes table) }
{
    for iocb in 0..8 {
        block(bytes, BLOCK * iocb, table.blocks[iocb]);
    }
}

#[tactic(auto, unfolding(layout::specs::Layout::phase_bytes))]
pub fn gather(bytes: &mut [u8], gather: Gather)
    ensures { bytes.new ≡ sets bytes.old 0 (phase_bytes (Phase.Gathering gather)) }
{
    let [length, length_high] = gather.length.to_le_bytes();
    let [taken, middle, high, _] = gather.taken.to_le_bytes();
    base::lay(
        bytes,
        0,
        &[
            0,
            gather.tag,
            length,
            length_high,
            taken,
            middle,
            high,
            0,
            0,
            0,
            0,
        ],
    );
}

#[tactic(auto, unfolding(layout::specs::Layout::phase_bytes))]
fn header(bytes: &mut [u8], header: Header)
    ensures { bytes.new ≡ sets bytes.old 0 (phase_bytes (Phase.Ready header)) }
{
    let [low, high] = header.length.to_le_bytes();
    base::lay(bytes, 0, &[1, header.tag, low, high, 0, 0, 0, 0, 0, 0, 0]);
}

#[tactic(auto, unfolding(layout::specs::Layout::phase_bytes))]
pub fn run(bytes: &mut [u8], run: Run)
    ensures { bytes.new ≡ sets bytes.old 0 (phase_bytes (Phase.Running run)) }
{
    let [left, left_high] = run.left.to_le_bytes();
    let [place, place_high] = run.place.to_le_bytes();
    let [count, count_high] = run.count.to_le_bytes();
    let kind = kind_number(run.kind);
    let device = device_number(run.device);
    base::lay(
        bytes,
        0,
        &[
            2, kind, device, run.iocb, left, left_high, place, place_high, count, count_high, run.a,
        ],
    );
}

#[tactic(auto, unfolding(layout::specs::Layout::phase_bytes))]
fn reply(bytes: &mut [u8], reply: Reply)
    ensures { bytes.new ≡ sets bytes.old 0 (phase_bytes (Phase.Replying reply)) }
{
    let [length, length_high] = reply.length.to_le_bytes();
    let [given, given_high] = reply.given.to_le_bytes();
    base::lay(
        bytes,
        0,
        &[3, length, length_high, given, given_high, 0, 0, 0, 0, 0, 0],
    );
}

pub fn phase(bytes: &mut [u8], phase: Phase)
    ensures { bytes.new ≡ sets bytes.old 0 (phase_bytes phase) }
{
    match phase {
        Phase::Gathering(g) => gather(bytes, g),
        Phase::Ready(h) => header(bytes, h),
        Phase::Running(r) => run(bytes, r),
        Phase::Replying(r) => reply(bytes, r),
    }
}

// A whole port: its phase and its table.
pub fn port(bytes: &mut [u8], port: Port)
    requires { port_length ≤ length bytes.old }
    ensures { bytes.new ≡ sets bytes.old 0 (port_bytes port) }
{
    phase(bytes, port.phase);
    table(&mut bytes[PHASE..PORT], port.table);
}

fn reading_byte(reading: Option<u16>) -> u8
    ensures { result ≡ reading_byte reading }
{
    match reading {
        None => 255,
        Some(column) => (column % 256) as u8,
    }
}

fn escape_byte(escape: bool) -> u8
    ensures { result ≡ pick escape 1 0 }
{
    if escape {
        return 1;
    }
    0
}

#[tactic(auto, unfolding(layout::specs::Layout::console_bytes))]
pub fn console(bytes: &mut [u8], console: Console)
    ensures { bytes.new ≡ sets bytes.old 0 (console_bytes console) }
{
    let keyboard = console.keyboard;
    let [column, column_high] = console.column.to_le_bytes();
    let row = (console.row % 256) as u8;
    let escape = escape_byte(console.escape);
    let reading = reading_byte(console.reading);
    base::lay(
        bytes,
        0,
        &[
            console.mode,
            row,
            column,
            column_high,
            console.last,
            escape,
            reading,
            keyboard.code,
            keyboard.lock,
            keyboard.inverse,
        ],
    );
}

#[tactic(auto, unfolding(layout::specs::Layout::printer_bytes))]
pub fn printer(bytes: &mut [u8], printer: Printer)
    ensures { bytes.new ≡ sets bytes.old 0 (printer_bytes printer) }
{
    base::set_word(bytes, 0, printer.used);
}

#[tactic(auto, unfolding(layout::specs::Layout::cassette_bytes))]
pub fn cassette(bytes: &mut [u8], cassette: Cassette)
    ensures { bytes.new ≡ sets bytes.old 0 (cassette_bytes cassette) }
{
    base::lay(bytes, 0, &[cassette.mark, cassette.record, cassette.place]);
}
