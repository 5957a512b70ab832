// A take, a give and a press that are not refused: each reads and writes the port's phase and room, or the console's numbers.
ghost use Rattle.std.specs.Prelude.{◌≡◌, ◌+◌, ◌*◌};
ghost use Rattle.calls.specs.Calls.{take_at, give_at, press_at};
ghost use Rattle.calls.specs.Returned.{returned, both_of};
ghost use Rattle.calls.specs.Bytes.{buffers, left, left_of, stick_by, lent_by};
ghost use Rattle.calls.specs.Parts.{Called, Rooms, console_held_on, key_on};

use blocks::Phase;
use devices::Group;
use layout::places::{DEVICES, ROOM, ROOMS};

// A byte offered by a port's host. What the calls answer are the numbers that C is told.
pub fn take_at(
    port: u8,
    byte: u8,
    state: &mut [u8],
    area: &[u8],
    screen: &[u8],
    paper: &[u8],
    tape: &[u8],
    images: &[u8],
) -> u8
    requires { Called port (buffers state.old area.now screen.now paper.now tape.now images.now) }
    ensures { left result 0 (buffers state.new area.now screen.now paper.now tape.now images.now) ≡ left_of (take_at port (stick_by (buffers state.old area.now screen.now paper.now tape.now images.now)) (lent_by (buffers state.old area.now screen.now paper.now tape.now images.now)) byte) }
{
    let room = ROOMS + ROOM * (port as usize);
    let past = room + ROOM;
    match ports::phase_of(port, state) {
        Phase::Gathering(gather) => {
            if wire::goes_on(gather) {
                let more = wire::value(gather, &mut state[room..past], byte);
                ports::set_gather(port, more, state);
                return 0;
            }
            let next = wire::take(gather, &mut state[room..past], byte);
            ports::set_phase(port, next, state);
            0
        }
        Phase::Ready(_) | Phase::Running(_) | Phase::Replying(_) => 4,
    }
}

// The next byte of a port's reply, above the answer.
pub fn give_at(
    port: u8,
    state: &mut [u8],
    area: &[u8],
    screen: &[u8],
    paper: &[u8],
    tape: &[u8],
    images: &[u8],
) -> u16
    requires { Called port (buffers state.old area.now screen.now paper.now tape.now images.now) }
    ensures { returned result (buffers state.new area.now screen.now paper.now tape.now images.now) ≡ both_of (left_of (give_at port (stick_by (buffers state.old area.now screen.now paper.now tape.now images.now)) (lent_by (buffers state.old area.now screen.now paper.now tape.now images.now)))) }
{
    let room = ROOMS + ROOM * (port as usize);
    let past = room + ROOM;
    match ports::phase_of(port, state) {
        Phase::Replying(reply) => {
            let given = wire::give(reply, &state[room..past]);
            let next = given.phase;
            ports::set_phase(port, next, state);
            base::word(0, given.byte)
        }
        Phase::Gathering(_) | Phase::Ready(_) | Phase::Running(_) => base::word(5, 0),
    }
}

// A port's running request holds the console.
fn holds_console(port: u8, state: &[u8]) -> bool
    requires { Rooms port state.now }
    ensures { result ≡ console_held_on port state.now }
{
    let phase = ports::phase_of(port, state);
    devices::clashes(Group::Console, devices::held_by(phase))
}

// A pressed key, over an older one.
fn store_key(code: u8, state: &mut [u8])
    requires { Rooms 0 state.old }
    ensures { state.new ≡ key_on code state.old }
{
    let mut console = devices::numbers::console_of(&state[DEVICES..ROOMS]);
    console.press(code);
    devices::numbers::set_console(&mut state[DEVICES..ROOMS], console);
}

// A key of the console.
pub fn press_at(
    code: u8,
    state: &mut [u8],
    area: &[u8],
    screen: &[u8],
    paper: &[u8],
    tape: &[u8],
    images: &[u8],
) -> u8
    requires { Called 0 (buffers state.old area.now screen.now paper.now tape.now images.now) }
    ensures { left result 0 (buffers state.new area.now screen.now paper.now tape.now images.now) ≡ left_of (press_at (stick_by (buffers state.old area.now screen.now paper.now tape.now images.now)) (lent_by (buffers state.old area.now screen.now paper.now tape.now images.now)) code) }
{
    if holds_console(0, state) {
        return 6;
    }
    if holds_console(1, state) {
        return 6;
    }
    store_key(code, state);
    0
}
