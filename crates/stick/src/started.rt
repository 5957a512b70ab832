// A fresh start of buffers that have their lengths.
ghost use Rattle.std.specs.Prelude.{◌≡◌};
ghost use Rattle.calls.specs.Bytes.{buffers};
ghost use Rattle.calls.specs.Parts.{Lengths, Long, ports_fresh, fresh_on};

use blocks::Port;
use layout::places::{DEVICES, ROOMS};

// Both ports as `Port::fresh` makes them, and their rooms zero.
fn fresh_ports(state: &mut [u8])
    requires { Long state.old }
    ensures { state.new ≡ ports_fresh state.old }
{
    cells::part::paint(&mut state[ROOMS..], 0);
    ports::set_port(0, Port::fresh(), state);
    ports::set_port(1, Port::fresh(), state);
}

pub fn fresh_all(
    state: &mut [u8],
    area: &mut [u8],
    screen: &mut [u8],
    paper: &[u8],
    tape: &[u8],
    images: &[u8],
)
    requires { Lengths (buffers state.old area.old screen.old paper.now tape.now images.now) }
    ensures { buffers state.new area.new screen.new paper.now tape.now images.now ≡ fresh_on (buffers state.old area.old screen.old paper.now tape.now images.now) }
{
    fresh_ports(state);
    cells::part::paint(area, 0);
    devices::fresh::fresh(&mut state[DEVICES..ROOMS], screen, paper, tape, images);
}
