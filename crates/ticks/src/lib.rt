// A tick of a port that is not refused: a ready request starts, or a running one moves one character. Each function lends on the parts
// of the state that it is about: the port's room, the devices' numbers; and the port's half of the area.
#![tactic(auto)]

ghost use Rattle.std.specs.Prelude.{◌≡◌};
ghost use Rattle.layout.specs.Places.{Reaches};
ghost use Rattle.calls.specs.Calls.{tick_at};
ghost use Rattle.devices.specs.Media.{SameBuffers};
ghost use Rattle.calls.specs.Bytes.{buffers_in, left, left_of, stick_by, lent_by};
ghost use Rattle.calls.specs.Parts.{Called, Rooms, Halves, plan_on, waits_on, errand_on, job_on, start_on, ready_on};

use blocks::{Header, Phase};
use devices::Media;
use layout::places::{AREA, DEVICES, ROOM, ROOMS};
use plan::{Errand, Job, Plan};

// What a ready message comes to.
fn plan_at(port: u8, header: Header, state: &[u8], area: &[u8]) -> Plan
    requires { Halves port state.now area.now }
    ensures { result ≡ plan_on port header state.now area.now }
{
    let from = AREA * (port as usize);
    let end = from + AREA;
    let room = ROOMS + ROOM * (port as usize);
    let past = room + ROOM;
    let message = wire::message_of(header, &state[room..past]);
    let block = ports::block_of(port, checks::iocb_of(message), state);
    checks::plan_in(message, block, &area[from..end])
}

// The other port holds the group that the message needs.
fn waits(port: u8, plan: Plan, state: &[u8]) -> bool
    requires { Rooms port state.now }
    ensures { result ≡ waits_on port plan state.now }
{
    let other = 1 - port;
    let phase = ports::phase_of(other, state);
    devices::clashes(plan::group_needed(plan), devices::held_by(phase))
}

// A start that needs no group.
fn errand_at(port: u8, errand: Errand, state: &mut [u8], area: &mut [u8], media: &Media<'_>)
    requires { Halves port state.old area.old }
    ensures { buffers_in state.new area.new media.now ≡ errand_on port errand (buffers_in state.old area.old media.now) }
{
    let from = AREA * (port as usize);
    let end = from + AREA;
    let room = ROOMS + ROOM * (port as usize);
    let past = room + ROOM;
    let phase = cio::errand::run_errand(errand, &mut area[from..end], &mut state[room..past]);
    ports::set_phase(port, phase, state);
}

// A start with its group held.
fn job_at(port: u8, job: Job, state: &mut [u8], area: &[u8], media: &mut Media<'_>)
    requires { Called port (buffers_in state.old area.now media.old) }
    ensures says { buffers_in state.new area.now media.new ≡ job_on port job (buffers_in state.old area.now media.old) }
    ensures same { SameBuffers media.new media.old }
{
    let call = job.call;
    let iocb = call.iocb;
    let block = ports::block_of(port, iocb, state);
    let begin = cio::start::start(port, job, block, &mut state[DEVICES..ROOMS], media);
    let after = begin.block;
    let next = begin.next;
    ports::set_block(port, iocb, after, state);
    running::land_at(port, next, state);
}

fn start_at(port: u8, plan: Plan, state: &mut [u8], area: &mut [u8], media: &mut Media<'_>)
    requires { Called port (buffers_in state.old area.old media.old) }
    ensures says { buffers_in state.new area.new media.new ≡ start_on port plan (buffers_in state.old area.old media.old) }
    ensures same { SameBuffers media.new media.old }
{
    match plan {
        Plan::Free(errand) => errand_at(port, errand, state, area, media),
        Plan::On(job) => job_at(port, job, state, area, media),
    }
}

// A ready port's tick.
fn ready_at(
    port: u8,
    header: Header,
    state: &mut [u8],
    area: &mut [u8],
    media: &mut Media<'_>,
) -> u8
    requires { Called port (buffers_in state.old area.old media.old) }
    ensures says { left result 0 (buffers_in state.new area.new media.new) ≡ ready_on port header (buffers_in state.old area.old media.old) }
    ensures same { SameBuffers media.new media.old }
{
    let plan = plan_at(port, header, state, area);
    if waits(port, plan, state) {
        return 8;
    }
    start_at(port, plan, state, area, media);
    0
}

pub fn tick_at(port: u8, state: &mut [u8], area: &mut [u8], media: &mut Media<'_>) -> u8
    requires { Called port (buffers_in state.old area.old media.old) }
    ensures says { left result 0 (buffers_in state.new area.new media.new) ≡ left_of (tick_at port (stick_by (buffers_in state.old area.old media.old)) (lent_by (buffers_in state.old area.old media.old))) }
    ensures same { SameBuffers media.new media.old }
{
    match ports::phase_of(port, state) {
        Phase::Running(run) => {
            running::advance_at(port, run, state, area, media);
            0
        }
        Phase::Ready(header) => ready_at(port, header, state, area, media),
        Phase::Gathering(_) | Phase::Replying(_) => 7,
    }
}
