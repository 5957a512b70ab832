// The start of a request with its group held, whatever its device: all but transfers.
ghost use Rattle.std.specs.Prelude.{◌≡◌};
ghost use Rattle.blocks.specs.Blocks.{open_block};
ghost use Rattle.handler.specs.Answer.{answer, done_status};
ghost use Rattle.handler.specs.Acts.{asks_open, asks_on};
ghost use Rattle.transfer.specs.Transfer.{out_of};
ghost use Rattle.layout.specs.Places.{Numbers};
ghost use Rattle.recorder.specs.Recorder.{Wound};
ghost use Rattle.devices.specs.Lent.{Lends, lent_acts};
ghost use Rattle.devices.specs.Media.{lent_with, SameBuffers};
ghost use Rattle.cio.specs.Start.{then_of, opened_of, block_after, prepared_out, begun, opening_of, transfer_of, job_begun};

use blocks::{BlockState, ControlBlock, Device, Kind, Run};
use devices::Media;
use handler::{Asked, Done};
use names::Pattern;
use plan::{After, Job, Work};
use transfer::Next;
use wire::Call;

// The block of the CALL's IOCB after the start, and what becomes of the request.
#[derive(Clone, Copy)]
pub struct Begin {
    pub block: ControlBlock,
    pub next: Next,
}

fn status_of(done: Done) -> u8
    ensures { result ≡ done_status done }
{
    match done {
        Done::Success => 0x01,
        Done::Refused(status) => status,
    }
}

// GET STATUS, which looks at the buffers.
fn looked(device: Device, asked: Asked, numbers: &[u8], media: &Media<'_>) -> Done
    requires { Numbers numbers.now }
    ensures { result ≡ (lent_acts device asked).statuses (lent_with numbers.now media.now) }
{
    devices::status(
        device,
        asked,
        numbers,
        media.screen,
        media.paper,
        media.tape,
        media.images,
    )
}

// What GET STATUS says of a device.
fn status_said(device: Device, asked: Asked, numbers: &[u8], media: &Media<'_>) -> u8
    requires { Numbers numbers.now }
    ensures { result ≡ done_status ((lent_acts device asked).statuses (lent_with numbers.now media.now)) }
{
    status_of(looked(device, asked, numbers, media))
}

// After an opening: GET STATUS and SPECIAL answer and close again.
fn then(
    after: After,
    device: Device,
    asked: Asked,
    numbers: &mut [u8],
    media: &mut Media<'_>,
) -> Done
    requires { Wound numbers.old media.old.tape.now }
    ensures says { answer result (lent_with numbers.new media.new) ≡ then_of (lent_acts device asked) after (lent_with numbers.old media.old) }
    ensures same { SameBuffers media.new media.old }
{
    match after {
        After::Stay => Done::Success,
        After::Status => {
            let done = looked(device, asked, numbers, media);
            devices::close(device, asked, numbers, media);
            done
        }
        After::Special => {
            let done = devices::special(device, asked, numbers, media);
            devices::close(device, asked, numbers, media);
            done
        }
    }
}

fn open(
    after: After,
    device: Device,
    asked: Asked,
    numbers: &mut [u8],
    media: &mut Media<'_>,
) -> Done
    requires { Lends numbers.old media.old.screen.now media.old.tape.now }
    ensures says { answer result (lent_with numbers.new media.new) ≡ opened_of (lent_acts device asked) after (lent_with numbers.old media.old) }
    ensures same { SameBuffers media.new media.old }
{
    let done = devices::open(device, asked, numbers, media);
    match done {
        Done::Success => then(after, device, asked, numbers, media),
        Done::Refused(status) => Done::Refused(status),
    }
}

// Only an OPEN that succeeds opens the block.
fn settle(done: Done, after: After, opened: ControlBlock, before: ControlBlock) -> ControlBlock
    ensures { result ≡ block_after done after opened before }
{
    match done {
        Done::Success => match after {
            After::Stay => opened,
            After::Status => before,
            After::Special => before,
        },
        Done::Refused(status) => before,
    }
}

fn opening(
    port: u8,
    after: After,
    number: u8,
    name: Option<Pattern>,
    job: Job,
    block: ControlBlock,
    numbers: &mut [u8],
    media: &mut Media<'_>,
) -> Begin
    requires { Lends numbers.old media.old.screen.now media.old.tape.now }
    ensures says { begun result.block (lent_with numbers.new media.new) (out_of result.next) ≡ opening_of (lent_acts job.device) port after number name job.device job.call block (lent_with numbers.old media.old) }
    ensures same { SameBuffers media.new media.old }
{
    let device = job.device;
    let call = job.call;
    if blocks::offers(device, call.aux1) {
        let asked = Asked {
            port: port,
            iocb: call.iocb,
            number: number,
            aux1: call.aux1,
            aux2: call.aux2,
            name: name,
        };
        let opened = ControlBlock {
            state: BlockState::Open {
                device,
                number,
                aux1: call.aux1,
            },
        };
        let done = open(after, device, asked, numbers, media);
        let settled = settle(done, after, opened, block);
        return Begin {
            block: settled,
            next: Next::Off(status_of(done), 0, call.a),
        };
    }
    Begin {
        block: block,
        next: Next::Off(0x84, 0, call.a),
    }
}

// A transfer runs from its start on, or is refused there.
fn prepared(done: Done, kind: Kind, device: Device, call: Call) -> Next
    ensures { out_of result ≡ prepared_out done kind device call }
{
    match done {
        Done::Success => {
            let run = Run {
                kind: kind,
                device: device,
                iocb: call.iocb,
                left: call.length,
                place: call.address,
                count: 0,
                a: call.a,
            };
            Next::On(run)
        }
        Done::Refused(status) => Next::Off(status, 0, call.a),
    }
}

fn transfer(
    port: u8,
    kind: Kind,
    job: Job,
    block: ControlBlock,
    numbers: &mut [u8],
    media: &mut Media<'_>,
) -> Begin
    requires { Lends numbers.old media.old.screen.now media.old.tape.now }
    ensures says { begun result.block (lent_with numbers.new media.new) (out_of result.next) ≡ transfer_of (lent_acts job.device) port kind job.device job.call block (lent_with numbers.old media.old) }
    ensures same { SameBuffers media.new media.old }
{
    let device = job.device;
    let call = job.call;
    let asked = handler::on_block(port, call.iocb);
    let done = devices::prepare(device, asked, numbers, media);
    let next = prepared(done, kind, device, call);
    Begin {
        block: block,
        next: next,
    }
}

// A CALL's work on its device, with the block of its IOCB.
pub fn start(
    port: u8,
    job: Job,
    block: ControlBlock,
    numbers: &mut [u8],
    media: &mut Media<'_>,
) -> Begin
    requires { Lends numbers.old media.old.screen.now media.old.tape.now }
    ensures says { begun result.block (lent_with numbers.new media.new) (out_of result.next) ≡ job_begun (lent_acts job.device) port job block (lent_with numbers.old media.old) }
    ensures same { SameBuffers media.new media.old }
{
    let work = job.work;
    let call = job.call;
    let device = job.device;
    let asked = handler::on_block(port, call.iocb);
    match work {
        Work::Close => {
            devices::close(device, asked, numbers, media);
            Begin {
                block: ControlBlock::CLOSED,
                next: Next::Off(0x01, 0, call.a),
            }
        }
        Work::Status => {
            let status = status_said(device, asked, numbers, media);
            Begin {
                block: block,
                next: Next::Off(status, 0, call.a),
            }
        }
        Work::Special => {
            let done = devices::special(device, asked, numbers, media);
            Begin {
                block: block,
                next: Next::Off(status_of(done), 0, call.a),
            }
        }
        Work::Open(after, number, name) => opening(
            port, after, number, name, job, block, numbers, media,
        ),
        Work::Transfer(kind) => transfer(port, kind, job, block, numbers, media),
    }
}
