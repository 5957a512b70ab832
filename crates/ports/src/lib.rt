// A port's own parts of the lent state, the port a parameter: its phase and the blocks of its table.
#![tactic(auto)]

ghost use Rattle.std.specs.Prelude.{◌≡◌, ltb, drop};
ghost use Rattle.std.proofs.lemmas.List.Edits.{sets};
ghost use Rattle.base.specs.Choice.{pick};
ghost use Rattle.blocks.specs.Blocks.{block_at};
ghost use Rattle.layout.specs.Places.{Reaches, port_place, phase_place, table_place, block_place};
ghost use Rattle.layout.specs.Layout.{block_bytes, phase_bytes, port_bytes, table_in, phase_in};

use blocks::{ControlBlock, Gather, Phase, Port, Run};
use layout::places::{BLOCK, PHASE, PORT};

pub fn phase_of(port: u8, state: &[u8]) -> Phase
    requires { Reaches port state.now }
    ensures { result ≡ phase_in (drop (phase_place port) state.now) }
{
    let at = PORT * (port as usize);
    reading::phase(&state[at..])
}

pub fn set_phase(port: u8, phase: Phase, state: &mut [u8])
    requires { Reaches port state.old }
    ensures { state.new ≡ sets state.old (phase_place port) (phase_bytes phase) }
{
    let at = PORT * (port as usize);
    let end = at + PHASE;
    writing::phase(&mut state[at..end], phase);
}

// A phase of which it is known that it gathers, or runs.
pub fn set_gather(port: u8, gather: Gather, state: &mut [u8])
    requires { Reaches port state.old }
    ensures { state.new ≡ sets state.old (phase_place port) (phase_bytes (Phase.Gathering gather)) }
{
    let at = PORT * (port as usize);
    let end = at + PHASE;
    writing::gather(&mut state[at..end], gather);
}

pub fn set_run(port: u8, run: Run, state: &mut [u8])
    requires { Reaches port state.old }
    ensures { state.new ≡ sets state.old (phase_place port) (phase_bytes (Phase.Running run)) }
{
    let at = PORT * (port as usize);
    let end = at + PHASE;
    writing::run(&mut state[at..end], run);
}

// Where the block of an IOCB begins.
fn block_place(port: u8, iocb: u8) -> usize
    ensures { result ≡ block_place port iocb }
{
    PORT * (port as usize) + PHASE + BLOCK * (iocb as usize)
}

// The block of an IOCB; past the table the closed one.
pub fn block_of(port: u8, iocb: u8, state: &[u8]) -> ControlBlock
    requires { Reaches port state.now }
    ensures { result ≡ block_at (table_in (drop (table_place port) state.now)) iocb }
{
    if iocb < 8 {
        let place = block_place(port, iocb);
        return reading::block(state, place);
    }
    ControlBlock::CLOSED
}

// The block of an IOCB becomes this one; past the table nothing changes.
pub fn set_block(port: u8, iocb: u8, block: ControlBlock, state: &mut [u8])
    requires { Reaches port state.old }
    ensures { state.new ≡ pick (ltb iocb 8) (sets state.old (block_place port iocb) (block_bytes block)) state.old }
{
    if iocb < 8 {
        let place = block_place(port, iocb);
        writing::block(state, place, block);
    }
}

// A whole port: its phase and its table.
pub fn set_port(port: u8, whole: Port, state: &mut [u8])
    requires { Reaches port state.old }
    ensures { state.new ≡ sets state.old (port_place port) (port_bytes whole) }
{
    let at = PORT * (port as usize);
    let end = at + PORT;
    writing::port(&mut state[at..end], whole);
}
