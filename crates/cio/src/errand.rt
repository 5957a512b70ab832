// What needs no group: LOAD, FETCH, a refused message, and a CALL that is refused before its group. It starts and ends in one tick.
ghost use Rattle.std.specs.Prelude.{◌≡◌};
ghost use Rattle.transfer.specs.Transfer.{in_port};
ghost use Rattle.cio.specs.Start.{freed, load_of, errand_of};

use blocks::Phase;
use plan::Errand;

// LOAD: the bytes into the port's own half, or past the area.
pub fn load(address: u16, size: u16, half: &mut [u8], room: &mut [u8]) -> Phase
    ensures { freed (in_port result room.new) half.new ≡ load_of address size room.old half.old }
{
    if address as usize + size as usize <= blocks::AREA {
        replies::copy_bytes(half, address, room, 2, size);
        let reply = replies::status_reply(room, 0x91, 0x01);
        return Phase::Replying(reply);
    }
    let reply = replies::status_reply(room, 0x91, 0xB0);
    Phase::Replying(reply)
}

// What needs no group starts and ends in one tick.
pub fn run_errand(errand: Errand, half: &mut [u8], room: &mut [u8]) -> Phase
    ensures { freed (in_port result room.new) half.new ≡ errand_of errand room.old half.old }
{
    match errand {
        Errand::Status(status, a) => {
            let reply = replies::call_reply(room, status, 0, a);
            Phase::Replying(reply)
        }
        Errand::Load { address, size } => load(address, size, half, room),
        Errand::Fetch { address, count } => {
            let reply = replies::fetch_reply(room, half, address, count);
            Phase::Replying(reply)
        }
        Errand::Bad(status) => {
            let reply = replies::status_reply(room, 0xFF, status);
            Phase::Replying(reply)
        }
    }
}
