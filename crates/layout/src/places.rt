// Where each part of the lent state lies, and how long it is: the names of specs/Places.antt, for code. `agree` says that the two agree;
// a const that differs leaves it without a proof.
ghost use Rattle.std.specs.Prelude.{◌≡◌};
ghost use Rattle.blocks.specs.Opening.{area_length};
ghost use Rattle.wire.specs.Messages.{room_length};
ghost use Rattle.layout.specs.Places.{phase_length, block_length, table_length, port_length, devices_place, console_place, printer_place, cassette_place, pending_place, pending_length, disk_place, devices_length, rooms_place, state_length};

pub const PHASE: usize = 11;

pub const BLOCK: usize = 3;

pub const TABLE: usize = 8 * BLOCK;

pub const PORT: usize = PHASE + TABLE;

pub const DEVICES: usize = 2 * PORT;
// Each device's place in the devices' numbers, and the length of these.
pub const CONSOLE: usize = 0;

pub const PRINTER: usize = CONSOLE + 10;

pub const CASSETTE: usize = PRINTER + 2;
// The cassette's pending characters.
pub const PENDING: usize = CASSETTE + 3;

pub const PENDED: usize = records::CHARACTERS as usize;

// The places of the blocks that have D open.
pub const DISK: usize = PENDING + PENDED;

pub const NUMBERS: usize = DISK + disk::PLACES;

pub const ROOMS: usize = DEVICES + NUMBERS;

pub const ROOM: usize = wire::ROOM;

pub const STATE: usize = ROOMS + 2 * ROOM;
// A port's own half of the lent area.
pub const AREA: usize = blocks::AREA;

// All of them at once.
#[derive(Clone, Copy)]
struct Places {
    phase: usize,
    block: usize,
    table: usize,
    port: usize,
    devices: usize,
    console: usize,
    printer: usize,
    cassette: usize,
    pending: usize,
    pended: usize,
    disk: usize,
    numbers: usize,
    rooms: usize,
    room: usize,
    state: usize,
    area: usize,
}

fn agree() -> Places
    ensures { result ≡ record { phase = phase_length; block = block_length; table = table_length; port = port_length; devices = devices_place; console = console_place; printer = printer_place; cassette = cassette_place; pending = pending_place; pended = pending_length; disk = disk_place; numbers = devices_length; rooms = rooms_place; room = room_length; state = state_length; area = area_length } }
{
    Places {
        phase: PHASE,
        block: BLOCK,
        table: TABLE,
        port: PORT,
        devices: DEVICES,
        console: CONSOLE,
        printer: PRINTER,
        cassette: CASSETTE,
        pending: PENDING,
        pended: PENDED,
        disk: DISK,
        numbers: NUMBERS,
        rooms: ROOMS,
        room: ROOM,
        state: STATE,
        area: AREA,
    }
}
