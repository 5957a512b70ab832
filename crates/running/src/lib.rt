// A running request over the lent bytes: its move of one character, and what becomes of a request in its port's room and phase.
#![tactic(auto)]

ghost use Rattle.std.specs.Prelude.{◌≡◌};
ghost use Rattle.transfer.specs.Transfer.{next_of, out_of};
ghost use Rattle.devices.specs.Media.{SameBuffers};
ghost use Rattle.calls.specs.Bytes.{buffers_in};
ghost use Rattle.calls.specs.Parts.{Rooms, Going, land_on, advance_on};

use blocks::Run;
use devices::Media;
use layout::places::{AREA, DEVICES, ROOM, ROOMS};
use transfer::{Carried, Next};

// What becomes of a request, into its port's room and phase.
pub fn land_at(port: u8, next: Next, state: &mut [u8])
    requires { Rooms port state.old }
    ensures { state.new ≡ land_on port (out_of next) state.old }
{
    let room = ROOMS + ROOM * (port as usize);
    let past = room + ROOM;
    let phase = transfer::land(next, &mut state[room..past]);
    ports::set_phase(port, phase, state);
}

// The same of a running one; where it goes on, only its phase changes.
fn carry_at(port: u8, run: Run, carried: Carried, state: &mut [u8])
    requires { Rooms port state.old }
    ensures { state.new ≡ land_on port (out_of (next_of run carried)) state.old }
{
    match carried {
        Carried::On(left, place, count, a) => {
            let more = Run {
                left,
                place,
                count,
                a,
                ..run
            };
            ports::set_run(port, more, state);
        }
        Carried::Off(status, count, a) => land_at(port, Next::Off(status, count, a), state),
    }
}

// A running request moves one character.
pub fn advance_at(port: u8, run: Run, state: &mut [u8], area: &mut [u8], media: &mut Media<'_>)
    requires { Going port run (buffers_in state.old area.old media.old) }
    ensures says { buffers_in state.new area.new media.new ≡ advance_on port run (buffers_in state.old area.old media.old) }
    ensures same { SameBuffers media.new media.old }
{
    let from = AREA * (port as usize);
    let end = from + AREA;
    let carried = moves::advance(
        port,
        run,
        &mut area[from..end],
        &mut state[DEVICES..ROOMS],
        media,
    );
    carry_at(port, run, carried, state);
}
