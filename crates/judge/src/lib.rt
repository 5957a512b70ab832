// Whether the bytes of a lent state stand for an undamaged stick: each byte is looked at once, in the order of damage's Whole. Kinds, devices
// and phases are numbers here, since a damaged byte stands for none: `stands` of layout speaks of any byte.
#![tactic(auto)]

ghost use Rattle.std.specs.Prelude.{◌≡◌, ◌+◌, ◌*◌, ◌≤◌, eqb, leb, length, drop};
ghost use Rattle.base.specs.Choice.{pick, and};
ghost use Rattle.base.specs.Parts.{part};
ghost use Rattle.printer.specs.Printer.{paper_length};
ghost use Rattle.cassette.specs.Cassette.{mark_of};
ghost use Rattle.cassette.specs.Fit.{fits_cassette};
ghost use Rattle.disk.specs.Disk.{place_length};
ghost use Rattle.wire.specs.Messages.{word_of, word_at};
ghost use Rattle.layout.specs.Places.{table_length, port_length, console_length, printer_place, cassette_place, devices_place, devices_length, Headed};
ghost use Rattle.layout.specs.Layout.{cassette_in, stick_in, lent_in};
ghost use Rattle.layout.specs.Stands.{unused, rest_unused, run_stands, stands};
ghost use Rattle.damage.specs.Fits.{stick_fits};
ghost use Rattle.damage.specs.Whole.{aux1_whole, highest_whole, mark_whole, open_whole, place_whole, block_whole_in, two_whole, table_whole, gather_whole, ready_whole, reply_whole, direction_whole, opened_whole, mode_whole, some_left, buffer_whole, span_whole, run_whole, phase_whole, port_whole, text_whole, picture_whole, cursor_whole, reading_whole, console_whole, devices_whole, tapes_from, tapes_whole, group_whole, apart_groups, apart_whole, head_whole};
ghost use Rattle.judge.specs.Ported.{Ported, Blocks};

use blocks::{Gather, Reply};
use layout::places::{BLOCK, CASSETTE, CONSOLE, DEVICES, DISK, PHASE, PORT, PRINTER};
use printer::PAPER;

// The bytes of two blocks, those of their places, and where the console's mode and the cassette's mark stand.
const PAIR: usize = 2 * BLOCK;

const PLACES: usize = 2 * disk::PLACE;

const MODE: usize = DEVICES + CONSOLE;

const MARK: usize = DEVICES + CASSETTE;

// Where the places of a port's blocks begin, counted from the port's first byte, and how much further those of the other port.
const OWN: usize = DEVICES + DISK;

const NEXT: usize = 8 * disk::PLACE - PORT;

// Four bytes as a number, the low one first.
fn four(a: u8, b: u8, c: u8, d: u8) -> u32
    ensures { result ≡ a + 256 * b + 65536 * c + 16777216 * d }
{
    u32::from_le_bytes([a, b, c, d])
}

// Four bytes are 0, by one comparison.
fn none(a: u8, b: u8, c: u8, d: u8) -> bool
    ensures { result ≡ unused a b c d }
{
    four(a, b, c, d) == 0
}

// Two bytes are 0, by one comparison.
fn neither(a: u8, b: u8) -> bool
    ensures { result ≡ unused 0 0 a b }
{
    base::word(a, b) == 0
}

// AUX1 is one that the device takes.
#[tactic(auto, using(crate::proofs::Calls::calls), unfolding(damage::specs::Whole::aux1_whole))]
fn aux1_whole(device: u8, aux1: u8) -> bool
    ensures { result ≡ aux1_whole device aux1 }
{
    match device {
        1 => !blocks::aux1_reads(aux1) || aux1 % 2 == 1,
        2 => aux1 / 16 % 2 != 1,
        4 => !blocks::aux1_reads(aux1),
        5 => !blocks::aux1_reads(aux1) || !blocks::aux1_writes(aux1),
        _ => !blocks::aux1_writes(aux1),
    }
}

// How a block has C open, by its AUX1.
#[tactic(auto, using(crate::proofs::Calls::calls))]
fn mark_of(aux1: u8) -> u8
    ensures { result ≡ mark_of aux1 }
{
    if blocks::aux1_reads(aux1) {
        return 1;
    }
    if blocks::aux1_writes(aux1) {
        return 2;
    }
    3
}

// A block that has C open has it open as the cassette's mark says.
fn mark_whole(mark: u8, device: u8, aux1: u8) -> bool
    ensures { result ≡ mark_whole mark device aux1 }
{
    if device == 5 {
        return mark_of(aux1) == mark;
    }
    true
}

// Both of AUX1.
#[tactic(auto, using(crate::proofs::Calls::calls))]
fn directed(mark: u8, device: u8, aux1: u8) -> bool
    ensures { result ≡ and (aux1_whole device aux1) (mark_whole mark device aux1) }
{
    aux1_whole(device, aux1) && mark_whole(mark, device, aux1)
}

// A device's number is at most its highest.
#[tactic(auto, using(crate::proofs::Calls::calls), unfolding(damage::specs::Whole::highest_whole))]
fn numbered(device: u8, number: u8) -> bool
    ensures { result ≡ leb number (highest_whole device) }
{
    if device == 6 {
        return number <= 4;
    }
    number <= 8
}

// Some OPEN makes this block.
fn open_whole(mark: u8, device: u8, number: u8, aux1: u8) -> bool
    ensures { result ≡ open_whole mark device number aux1 }
{
    if device < 7 {
        if 1 <= number {
            if numbered(device, number) {
                return directed(mark, device, aux1);
            }
            return false;
        }
        return false;
    }
    false
}

// The place of a block that has D open, where its bytes begin, fits the block.
fn placed(bytes: &[u8], at: usize, device: u8, number: u8, aux1: u8) -> bool
    requires { at + place_length ≤ length bytes.now }
    ensures { result ≡ place_whole device number aux1 (part at place_length bytes.now) }
{
    if device == 6 {
        let end = at + disk::PLACE;
        return disk::fits(&bytes[at..end], number, aux1);
    }
    true
}

// The block whose three bytes begin at one place, and those of its own place at another.
#[tactic(auto, using(crate::proofs::Calls::calls), unfolding(damage::specs::Whole::block_whole))]
fn block(bytes: &[u8], place: usize, at: usize, mark: u8) -> bool
    requires { Blocks bytes.now place at 1 }
    ensures { result ≡ block_whole_in mark bytes.now place at }
{
    let device = bytes[place];
    let number = bytes[place + 1];
    let aux1 = bytes[place + 2];
    if device == 0 {
        return none(0, 0, number, aux1);
    }
    open_whole(mark, device, number, aux1) && placed(bytes, at, device, number, aux1)
}

// Both of two blocks, where D may be open on either.
#[tactic(auto, using(crate::proofs::Calls::calls), unfolding(damage::specs::Whole::two_whole))]
fn both(bytes: &[u8], place: usize, at: usize, mark: u8) -> bool
    requires { Blocks bytes.now place at 2 }
    ensures { result ≡ two_whole mark bytes.now place at }
{
    block(bytes, place, at, mark) && block(bytes, place + BLOCK, at + disk::PLACE, mark)
}

// A block that has not D open: it is closed, or some OPEN makes it.
#[tactic(auto, using(crate::proofs::Calls::calls))]
fn plain(mark: u8, device: u8, number: u8, aux1: u8) -> bool
    ensures { result ≡ pick (eqb device 0) (unused 0 0 number aux1) (open_whole mark device number aux1) }
{
    if device == 0 {
        return none(0, 0, number, aux1);
    }
    open_whole(mark, device, number, aux1)
}

// Two blocks, from this place on: most are closed both, and their other bytes then 0, by two comparisons. Places are looked at only where
// D is open.
fn two(bytes: &[u8], place: usize, at: usize, mark: u8) -> bool
    requires { Blocks bytes.now place at 2 }
    ensures { result ≡ two_whole mark bytes.now place at }
{
    if neither(bytes[place], bytes[place + BLOCK]) {
        return none(
            bytes[place + 1],
            bytes[place + 2],
            bytes[place + BLOCK + 1],
            bytes[place + BLOCK + 2],
        );
    }
    if bytes[place] == 6 {
        return both(bytes, place, at, mark);
    }
    if bytes[place + BLOCK] == 6 {
        return both(bytes, place, at, mark);
    }
    if plain(mark, bytes[place], bytes[place + 1], bytes[place + 2]) {
        return plain(
            mark,
            bytes[place + BLOCK],
            bytes[place + BLOCK + 1],
            bytes[place + BLOCK + 2],
        );
    }
    false
}

// A port's eight, by two.
fn table(bytes: &[u8], from: usize, mark: u8) -> bool
    requires { from + 8 * place_length ≤ length bytes.now }
    ensures { result ≡ table_whole mark bytes.now from }
{
    for pair in 0..4 {
        if !two(bytes, PHASE + PAIR * pair, from + PLACES * pair, mark) {
            return false;
        }
    }
    true
}

// The last four bytes of a phase are not used.
fn rest(bytes: &[u8]) -> bool
    requires { port_length ≤ length bytes.now }
    ensures { result ≡ rest_unused bytes.now }
{
    none(bytes[7], bytes[8], bytes[9], bytes[10])
}

fn gathers(bytes: &[u8]) -> bool
    requires { port_length ≤ length bytes.now }
    ensures { result ≡ gather_whole bytes.now }
{
    if rest(bytes) {
        return wire::gather_fits(Gather {
            tag: bytes[1],
            length: base::word(bytes[2], bytes[3]),
            taken: reading::three(bytes[4], bytes[5], bytes[6]),
        });
    }
    false
}

#[tactic(auto, using(crate::proofs::Calls::calls), unfolding(damage::specs::Whole::ready_whole))]
fn is_ready(bytes: &[u8]) -> bool
    requires { port_length ≤ length bytes.now }
    ensures { result ≡ ready_whole bytes.now }
{
    rest(bytes) && none(0, bytes[4], bytes[5], bytes[6])
}

fn replies(bytes: &[u8]) -> bool
    requires { port_length ≤ length bytes.now }
    ensures { result ≡ reply_whole bytes.now }
{
    if rest(bytes) {
        if neither(bytes[5], bytes[6]) {
            return wire::reply_fits(Reply {
                length: base::word(bytes[1], bytes[2]),
                given: base::word(bytes[3], bytes[4]),
            });
        }
        return false;
    }
    false
}

// A running request's kind is 0 to 5, its device 1 to 6.
#[tactic(auto, using(crate::proofs::Calls::calls), unfolding(layout::specs::Stands::run_stands))]
fn run_stands(kind: u8, device: u8) -> bool
    ensures { result ≡ run_stands kind device }
{
    kind < 6 && 1 <= device && device <= 6
}

// AUX1 allows the direction of this kind.
#[tactic(auto, using(crate::proofs::Calls::calls), unfolding(damage::specs::Whole::direction_whole))]
fn directs(kind: u8, aux1: u8) -> bool
    ensures { result ≡ direction_whole kind aux1 }
{
    if kind < 3 {
        return blocks::aux1_reads(aux1);
    }
    blocks::aux1_writes(aux1)
}

// The block of this IOCB is open on the device and for the direction.
#[tactic(auto, using(crate::proofs::Calls::calls), unfolding(damage::specs::Whole::opened_whole))]
fn opened(bytes: &[u8], kind: u8, device: u8, iocb: u8) -> bool
    requires { Ported bytes.now iocb }
    ensures { result ≡ opened_whole bytes.now kind device iocb }
{
    let place = PHASE + BLOCK * (iocb as usize);
    bytes[place] == device && directs(kind, bytes[place + 2])
}

// E runs in mode 0, S in another.
#[tactic(auto, using(crate::proofs::Calls::calls), unfolding(damage::specs::Whole::mode_whole))]
fn mode_fits(device: u8, mode: u8) -> bool
    ensures { result ≡ mode_whole device mode }
{
    match device {
        1 => mode == 0,
        2 => 0 < mode,
        _ => true,
    }
}

// Something is left, or of a record counted.
#[tactic(auto, using(crate::proofs::Calls::calls), unfolding(damage::specs::Whole::some_left))]
fn some(kind: u8, left: u16, count: u16) -> bool
    ensures { result ≡ some_left kind left count }
{
    0 < left || kind != 1 && kind != 4 && 0 < count
}

// What is left and what is counted lie in the area.
#[tactic(auto, using(crate::proofs::Calls::calls), unfolding(damage::specs::Whole::buffer_whole))]
fn buffer(kind: u8, left: u16, place: u16, count: u16) -> bool
    ensures { result ≡ buffer_whole kind left place count }
{
    some(kind, left, count) && place as usize + left as usize <= blocks::AREA && count <= place
}

#[tactic(auto, using(crate::proofs::Calls::calls), unfolding(damage::specs::Whole::span_whole))]
fn span(kind: u8, left: u16, place: u16, count: u16) -> bool
    ensures { result ≡ span_whole kind left place count }
{
    match kind {
        0 | 3 => left == 0 && count == 0,
        _ => buffer(kind, left, place, count),
    }
}

fn runs(bytes: &[u8], mode: u8) -> bool
    requires { port_length ≤ length bytes.now }
    ensures { result ≡ run_whole bytes.now mode }
{
    let kind = bytes[1];
    let device = bytes[2];
    let iocb = bytes[3];
    if run_stands(kind, device) {
        if iocb < 8 {
            if opened(bytes, kind, device, iocb) {
                if mode_fits(device, mode) {
                    return span(
                        kind,
                        base::word(bytes[4], bytes[5]),
                        base::word(bytes[6], bytes[7]),
                        base::word(bytes[8], bytes[9]),
                    );
                }
                return false;
            }
            return false;
        }
        return false;
    }
    false
}

#[tactic(auto, using(crate::proofs::Calls::calls), unfolding(damage::specs::Whole::phase_whole))]
fn phase(bytes: &[u8], mode: u8) -> bool
    requires { port_length ≤ length bytes.now }
    ensures { result ≡ phase_whole bytes.now mode }
{
    match bytes[0] {
        0 => gathers(bytes),
        1 => is_ready(bytes),
        2 => runs(bytes, mode),
        3 => replies(bytes),
        _ => false,
    }
}

// The places of its blocks begin behind its own bytes.
#[tactic(auto, using(crate::proofs::Calls::calls), unfolding(damage::specs::Whole::port_whole))]
fn port(bytes: &[u8], at: usize, mode: u8, mark: u8) -> bool
    requires { at + 8 * place_length ≤ length bytes.now }
    ensures { result ≡ port_whole bytes.now mode mark at }
{
    table(bytes, at, mark) && phase(bytes, mode)
}

// The port whose bytes begin at this place.
fn port_at(state: &[u8], place: usize, at: usize, mode: u8, mark: u8) -> bool
    requires { place + at + 8 * place_length ≤ length state.now }
    ensures { result ≡ port_whole (drop place state.now) mode mark at }
{
    port(&state[place..], at, mode, mark)
}

#[tactic(auto, using(crate::proofs::Calls::calls), unfolding(damage::specs::Whole::text_whole))]
fn text(row: u8, column: u16) -> bool
    ensures { result ≡ text_whole row column }
{
    row < 24 && 2 <= column && column <= 39
}

fn picture(mode: u8, row: u8, column: u16) -> bool
    ensures { result ≡ picture_whole mode row column }
{
    if 3 <= mode {
        if mode <= 8 {
            let shape = cells::shape_of(mode);
            if row as u16 <= shape.rows {
                return column < shape.columns;
            }
            return false;
        }
        return false;
    }
    false
}

fn cursor(mode: u8, row: u8, low: u8, high: u8) -> bool
    ensures { result ≡ cursor_whole mode row (word_of low high) }
{
    let column = base::word(low, high);
    if mode == 0 {
        return text(row, column);
    }
    picture(mode, row, column)
}

#[tactic(auto, using(crate::proofs::Calls::calls), unfolding(damage::specs::Whole::reading_whole))]
fn read_column(byte: u8) -> bool
    ensures { result ≡ reading_whole byte }
{
    byte == 255 || 2 <= byte && byte <= 40
}

#[tactic(auto, using(crate::proofs::Calls::calls), unfolding(damage::specs::Whole::console_whole))]
fn console(bytes: &[u8]) -> bool
    requires { console_length ≤ length bytes.now }
    ensures { result ≡ console_whole bytes.now }
{
    cursor(bytes[0], bytes[1], bytes[2], bytes[3])
        && read_column(bytes[6])
        && bytes[5] < 2
        && bytes[8] <= 2
        && bytes[9] <= 1
}

// The printer's used length is one of its paper.
fn used(low: u8, high: u8) -> bool
    ensures { result ≡ leb (word_of low high) paper_length }
{
    base::word(low, high) <= PAPER
}

// The numbers behind the console's.
fn others(bytes: &[u8]) -> bool
    requires { devices_length ≤ length bytes.now }
    ensures { result ≡ and (leb (word_at bytes.now printer_place) paper_length) (fits_cassette (cassette_in (drop cassette_place bytes.now))) }
{
    if used(bytes[PRINTER], bytes[PRINTER + 1]) {
        return recorder::fits(reading::cassette(&bytes[CASSETTE..]));
    }
    false
}

fn numbers(bytes: &[u8]) -> bool
    requires { devices_length ≤ length bytes.now }
    ensures { result ≡ devices_whole bytes.now }
{
    if console(&bytes[CONSOLE..]) {
        return others(bytes);
    }
    false
}

// 1 for a block that has C open, by its device's number.
fn tape(device: u8) -> u8
    ensures { result ≡ pick (eqb device 5) 1 0 }
{
    if device == 5 {
        return 1;
    }
    0
}

// How many of the eight blocks from this place on have C open.
fn tapes_from(state: &[u8], place: usize) -> u16
    requires { place + table_length ≤ length state.now }
    ensures { result ≡ tapes_from state.now place 8 }
{
    let mut tapes: u16 = 0;
    for block in 0..8 {
        tapes += tape(state[place + BLOCK * block]) as u16;
    }
    tapes
}

// Where the tape is open one block has it open; where it is not, no block was found to.
fn tapes(state: &[u8]) -> bool
    requires { Headed state.now }
    ensures { result ≡ tapes_whole state.now }
{
    if state[MARK] == 0 {
        return true;
    }
    tapes_from(state, PHASE) as u32 + tapes_from(state, PORT + PHASE) as u32 == 1
}

// The number of a device's group.
#[tactic(auto, using(crate::proofs::Calls::calls), unfolding(damage::specs::Whole::group_whole))]
fn group(device: u8) -> u8
    ensures { result ≡ group_whole device }
{
    match device {
        1..=3 => 1,
        4 => 2,
        5 => 3,
        _ => 4,
    }
}

// The groups of two devices are not one.
fn apart_groups(one: u8, other: u8) -> bool
    ensures { result ≡ apart_groups one other }
{
    !(group(one) == group(other))
}

// The two ports hold no group both: only a running request holds one.
#[tactic(auto, using(crate::proofs::Calls::calls), unfolding(damage::specs::Whole::apart_whole))]
fn apart(state: &[u8]) -> bool
    requires { Headed state.now }
    ensures { result ≡ apart_whole state.now }
{
    state[0] != 2 || state[PORT] != 2 || apart_groups(state[2], state[PORT + 2])
}

// Behind the ports: the devices' numbers, the tape's blocks, and the groups.
fn groups(state: &[u8]) -> bool
    requires { Headed state.now }
    ensures { result ≡ and (devices_whole (drop devices_place state.now)) (and (tapes_whole state.now) (apart_whole state.now)) }
{
    if numbers(&state[DEVICES..]) {
        if tapes(state) {
            return apart(state);
        }
        return false;
    }
    false
}

fn head(state: &[u8]) -> bool
    requires { Headed state.now }
    ensures { result ≡ head_whole state.now }
{
    let mode = state[MODE];
    let mark = state[MARK];
    for port in 0..2 {
        if !port_at(state, PORT * port, OWN + NEXT * port, mode, mark) {
            return false;
        }
    }
    groups(state)
}

// Whether a state, with what is lent beside it, stands for an undamaged stick.
pub fn undamaged(
    state: &[u8],
    area: &[u8],
    screen: &[u8],
    paper: &[u8],
    tape: &[u8],
    images: &[u8],
) -> bool
    requires { Headed state.now }
    ensures { result ≡ and (stands state.now) (stick_fits (stick_in state.now) (lent_in state.now area.now screen.now paper.now tape.now images.now)) }
{
    head(state)
}
