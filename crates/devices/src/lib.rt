// The devices: the one crate that calls a handler. Each act of a handler is one function with one match; an arm reads and
// writes its own group's numbers, which are a part of the lent state, and is lent its own group's buffer of the media alone. An arm of the console
// that changes nothing writes back what it read.
#![tactic(auto)]

pub mod fresh;
pub mod numbers;

ghost use Rattle.std.specs.Prelude.{◌≡◌};
ghost use Rattle.handler.specs.Answer.{answer};
ghost use Rattle.layout.specs.Places.{Numbers};
ghost use Rattle.recorder.specs.Recorder.{Wound};
ghost use Rattle.devices.specs.Groups.{owner_of, group_of, held_of, clash};
ghost use Rattle.devices.specs.Lent.{Lends, devices_lent, lent_acts};
ghost use Rattle.devices.specs.Media.{lent_with, SameBuffers};

use blocks::{Device, Phase};
use console::Handler;
use handler::{Asked, Done, Got};

// The groups that requests share; a message may need none. Nobody is no Option's None: the definitions over groups, and the machine of
// `serial`, take it as a group whose part is empty (`Part`).
#[derive(Clone, Copy, PartialEq, Eq)]
pub enum Group {
    Nobody,
    Console,
    Printer,
    Cassette,
    Disk,
}

// The buffers that are lent of the groups beside the state; the images are lent to be read.
#[derive(Drop)]
pub struct Media<'a> {
    pub screen: &'a mut [u8],
    pub paper: &'a mut [u8],
    pub tape: &'a mut [u8],
    pub images: &'a [u8],
}

// A device's group, and its handler there.
#[derive(Clone, Copy)]
pub enum Owner {
    Console(Handler),
    Printer,
    Cassette,
    Disk,
}

pub fn owner_of(device: Device) -> Owner
    ensures { result ≡ owner_of device }
{
    match device {
        Device::E => Owner::Console(Handler::E),
        Device::S => Owner::Console(Handler::S),
        Device::K => Owner::Console(Handler::K),
        Device::P => Owner::Printer,
        Device::C => Owner::Cassette,
        Device::D => Owner::Disk,
    }
}

pub fn group_of(device: Device) -> Group
    ensures { result ≡ group_of device }
{
    match device {
        Device::E | Device::S | Device::K => Group::Console,
        Device::P => Group::Printer,
        Device::C => Group::Cassette,
        Device::D => Group::Disk,
    }
}

// The group that a port holds: that of the request it runs.
pub fn held_by(phase: Phase) -> Group
    ensures { result ≡ held_of phase }
{
    match phase {
        Phase::Running(run) => group_of(run.device),
        Phase::Gathering(_) | Phase::Ready(_) | Phase::Replying(_) => Group::Nobody,
    }
}

// Two are the same group, and not no group.
pub fn clashes(one: Group, other: Group) -> bool
    ensures { result ≡ clash one other }
{
    match one {
        Group::Nobody => false,
        _ => one == other,
    }
}

// OPEN, with an AUX1 that the device offers. It writes no tape.
pub fn open(device: Device, asked: Asked, numbers: &mut [u8], media: &mut Media<'_>) -> Done
    requires { Lends numbers.old media.old.screen.now media.old.tape.now }
    ensures says { answer result (lent_with numbers.new media.new) ≡ (lent_acts device asked).opens (lent_with numbers.old media.old) }
    ensures same { SameBuffers media.new media.old }
    ensures tape { media.new.tape.now ≡ media.old.tape.now }
{
    let owner = owner_of(device);
    match owner {
        Owner::Console(handler) => {
            let mut console = numbers::console_of(numbers);
            let done = acts::open(handler, &mut console, media.screen, asked.aux1, asked.aux2);
            numbers::set_console(numbers, console);
            done
        }
        Owner::Printer => Done::Success,
        Owner::Cassette => recorder::open(numbers, &mut *media.tape, asked.aux1),
        Owner::Disk => drives::open(numbers, media.images, asked),
    }
}

// CLOSE.
pub fn close(device: Device, asked: Asked, numbers: &mut [u8], media: &mut Media<'_>)
    requires { Wound numbers.old media.old.tape.now }
    ensures says { lent_with numbers.new media.new ≡ (lent_acts device asked).closes (lent_with numbers.old media.old) }
    ensures same { SameBuffers media.new media.old }
{
    let owner = owner_of(device);
    match owner {
        Owner::Console(handler) => {
            let console = numbers::console_of(numbers);
            numbers::set_console(numbers, console);
        }
        Owner::Printer => {}
        Owner::Cassette => recorder::close(numbers, media.tape),
        Owner::Disk => {}
    }
}

// Before the first character of a transfer.
pub fn prepare(device: Device, asked: Asked, numbers: &mut [u8], media: &mut Media<'_>) -> Done
    requires { Lends numbers.old media.old.screen.now media.old.tape.now }
    ensures says { answer result (lent_with numbers.new media.new) ≡ (lent_acts device asked).prepares (lent_with numbers.old media.old) }
    ensures same { SameBuffers media.new media.old }
{
    let owner = owner_of(device);
    match owner {
        Owner::Console(handler) => {
            let mut console = numbers::console_of(numbers);
            let done = acts::prepare(handler, &mut console, media.screen);
            numbers::set_console(numbers, console);
            done
        }
        Owner::Printer => Done::Success,
        Owner::Cassette => Done::Success,
        Owner::Disk => Done::Success,
    }
}

// A character is read.
pub fn read(device: Device, asked: Asked, numbers: &mut [u8], media: &mut Media<'_>) -> Got
    requires { Lends numbers.old media.old.screen.now media.old.tape.now }
    ensures says { answer result (lent_with numbers.new media.new) ≡ (lent_acts device asked).reads (lent_with numbers.old media.old) }
    ensures same { SameBuffers media.new media.old }
{
    let owner = owner_of(device);
    match owner {
        Owner::Console(handler) => {
            let mut console = numbers::console_of(numbers);
            let got = acts::read(handler, &mut console, media.screen);
            numbers::set_console(numbers, console);
            got
        }
        Owner::Printer => Got::Refused(0x83),
        Owner::Cassette => recorder::read(numbers, &mut *media.tape),
        Owner::Disk => drives::read(numbers, media.images, asked),
    }
}

// A character is written.
pub fn write(
    device: Device,
    asked: Asked,
    byte: u8,
    numbers: &mut [u8],
    media: &mut Media<'_>,
) -> Done
    requires { Lends numbers.old media.old.screen.now media.old.tape.now }
    ensures says { answer result (lent_with numbers.new media.new) ≡ (lent_acts device asked).writes byte (lent_with numbers.old media.old) }
    ensures same { SameBuffers media.new media.old }
{
    let owner = owner_of(device);
    match owner {
        Owner::Console(handler) => {
            let mut console = numbers::console_of(numbers);
            let done = acts::write(handler, &mut console, media.screen, byte);
            numbers::set_console(numbers, console);
            done
        }
        Owner::Printer => {
            let mut printer = numbers::printer_of(numbers);
            let done = printer.put(media.paper, byte);
            numbers::set_printer(numbers, printer);
            done
        }
        Owner::Cassette => recorder::write(numbers, media.tape, byte),
        Owner::Disk => Done::Refused(0x87),
    }
}

// GET STATUS. It writes no buffer, and takes them as one that may only look at them.
pub fn status(
    device: Device,
    asked: Asked,
    numbers: &[u8],
    screen: &[u8],
    paper: &[u8],
    tape: &[u8],
    images: &[u8],
) -> Done
    requires { Numbers numbers.now }
    ensures { result ≡ (lent_acts device asked).statuses (devices_lent numbers.now screen.now paper.now tape.now images.now) }
{
    let owner = owner_of(device);
    match owner {
        Owner::Console(handler) => Done::Success,
        Owner::Printer => Done::Success,
        Owner::Cassette => Done::Success,
        Owner::Disk => drives::status(numbers, images, asked),
    }
}

// SPECIAL. It writes no buffer.
pub fn special(device: Device, asked: Asked, numbers: &mut [u8], media: &Media<'_>) -> Done
    requires { Numbers numbers.old }
    ensures { answer result (lent_with numbers.new media.now) ≡ (lent_acts device asked).specials (lent_with numbers.old media.now) }
{
    let owner = owner_of(device);
    match owner {
        Owner::Console(handler) => {
            let console = numbers::console_of(numbers);
            numbers::set_console(numbers, console);
            Done::Refused(0x84)
        }
        Owner::Printer => Done::Refused(0x84),
        Owner::Cassette => Done::Refused(0x84),
        Owner::Disk => Done::Refused(0x84),
    }
}
