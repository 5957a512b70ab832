// CIO, the device-independent rules: the move of one character, or of one refusal, of a running request. It is given the request, the
// port's own half of the area, and the devices' numbers and media, which it lends on to `devices`; nothing else is in its reach, and
// it knows no device.
#![tactic(auto)]

ghost use Rattle.std.specs.Prelude.{◌≡◌};
ghost use Rattle.transfer.specs.Transfer.{next_of, out_of};
ghost use Rattle.devices.specs.Lent.{lent_acts};
ghost use Rattle.devices.specs.Media.{lent_with, SameBuffers};
ghost use Rattle.moves.specs.Move.{went, get_of, put_of, advance_of};
ghost use Rattle.moves.specs.Lends.{Moves, Goes};

use blocks::{Kind, Run, Way};
use devices::Media;
use handler::Asked;
use transfer::Carried;

fn get(
    way: Way,
    run: Run,
    asked: Asked,
    half: &mut [u8],
    numbers: &mut [u8],
    media: &mut Media<'_>,
) -> Carried
    requires { Moves way run numbers.old media.old.screen.now media.old.tape.now }
    ensures says { went half.new (lent_with numbers.new media.new) (out_of (next_of run result)) ≡ get_of (lent_acts run.device asked) way run half.old (lent_with numbers.old media.old) }
    ensures same { SameBuffers media.new media.old }
{
    let device = run.device;
    let got = devices::read(device, asked, numbers, media);
    transfer::after_get(way, run, got, half)
}

fn put(
    way: Way,
    run: Run,
    asked: Asked,
    half: &[u8],
    numbers: &mut [u8],
    media: &mut Media<'_>,
) -> Carried
    requires { Moves way run numbers.old media.old.screen.now media.old.tape.now }
    ensures says { went half.now (lent_with numbers.new media.new) (out_of (next_of run result)) ≡ put_of (lent_acts run.device asked) way run half.now (lent_with numbers.old media.old) }
    ensures same { SameBuffers media.new media.old }
{
    let device = run.device;
    let byte = transfer::byte_to_send(way, run, half);
    let done = devices::write(device, asked, byte, numbers, media);
    transfer::after_put(way, run, byte, done)
}

// A running request's next character.
pub fn advance(
    port: u8,
    run: Run,
    half: &mut [u8],
    numbers: &mut [u8],
    media: &mut Media<'_>,
) -> Carried
    requires { Goes run numbers.old media.old.screen.now media.old.tape.now }
    ensures says { went half.new (lent_with numbers.new media.new) (out_of (next_of run result)) ≡ advance_of (lent_acts run.device) port run half.old (lent_with numbers.old media.old) }
    ensures same { SameBuffers media.new media.old }
{
    let kind = run.kind;
    let asked = handler::on_block(port, run.iocb);
    match kind {
        Kind::Get(way) => get(way, run, asked, half, numbers, media),
        Kind::Put(way) => put(way, run, asked, half, numbers, media),
    }
}
