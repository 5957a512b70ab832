// A running request's next character: what is sent, what becomes of a character got or sent, and the reply where it was the last.
#![tactic(auto)]

ghost use Rattle.std.specs.Prelude.{◌≡◌};
ghost use Rattle.transfer.specs.Spans.{Further, Spans};
ghost use Rattle.transfer.specs.Transfer.{next_of, progress, further_of, onward_of, ended_of, record_of, got_character, got_of, sent_byte, sent_record, sent_next, sent_of, in_port, out_of, landed};

use blocks::{Phase, Run, Way};
use handler::{Done, Got};

// The request goes on, or ends with status, count and A. A Result were no plainer: an end is no error, and each case has its own numbers.
#[derive(Clone, Copy)]
pub enum Next {
    On(Run),
    Off(u8, u16, u8),
}

// A running request after a character: it goes on with so much left, at this place, with this count and A, or ends with status, count
// and A. Its kind, device and IOCB stay.
#[derive(Clone, Copy)]
pub enum Carried {
    On(u16, u16, u16, u8),
    Off(u8, u16, u8),
}

// One character stored into or taken from the area.
fn further(run: Run) -> Run
    requires { Further run }
    ensures { result ≡ further_of run }
{
    let mut next = run;
    next.left = run.left - 1;
    next.place = run.place + 1;
    next.count = run.count + 1;
    next
}

fn ended(status: u8, run: Run) -> Carried
    ensures { next_of run result ≡ ended_of status run }
{
    Carried::Off(status, run.count, run.a)
}

fn goes_on(run: Run) -> Carried
    ensures { next_of run result ≡ Next.On run }
{
    Carried::On(run.left, run.place, run.count, run.a)
}

// With no character left the request ends, with the status of its last one.
fn onward(run: Run, status: u8) -> Carried
    ensures { next_of run result ≡ onward_of run status }
{
    if run.left == 0 {
        return ended(status, run);
    }
    goes_on(run)
}

// A record's character that is stored or taken: the EOL ends it, with its status.
fn record_next(run: Run, status: u8, byte: u8) -> Carried
    ensures { next_of run result ≡ record_of run status byte }
{
    if byte == 0x9B {
        return ended(status, run);
    }
    goes_on(run)
}

// A character got by GET CHARACTERS.
fn get_characters(run: Run, status: u8, byte: u8, half: &mut [u8]) -> Carried
    requires { Further run }
    ensures { progress (next_of run result) half.new ≡ got_character Way.Characters run status byte half.old }
{
    base::set_byte(half, run.place as usize, byte);
    onward(further(run), status)
}

// A character got by GET RECORD: with none left it is dropped, through the EOL.
fn get_record(run: Run, status: u8, byte: u8, half: &mut [u8]) -> Carried
    requires { Spans Way.Record run }
    ensures { progress (next_of run result) half.new ≡ got_character Way.Record run status byte half.old }
{
    if run.left == 0 {
        if byte == 0x9B {
            return ended(0x89, run);
        }
        return goes_on(run);
    }
    base::set_byte(half, run.place as usize, byte);
    record_next(further(run), status, byte)
}

fn get_character(way: Way, run: Run, status: u8, byte: u8, half: &mut [u8]) -> Carried
    requires { Spans way run }
    ensures { progress (next_of run result) half.new ≡ got_character way run status byte half.old }
{
    match way {
        Way::One => Carried::Off(status, run.count, byte),
        Way::Characters => get_characters(run, status, byte, half),
        Way::Record => get_record(run, status, byte, half),
    }
}

// What a handler's answer to a GET makes of the request and the area.
pub fn after_get(way: Way, run: Run, got: Got, half: &mut [u8]) -> Carried
    requires { Spans way run }
    ensures { progress (next_of run result) half.new ≡ got_of way run got half.old }
{
    match got {
        Got::Character(byte) => get_character(way, run, 0x01, byte, half),
        Got::Last(byte) => get_character(way, run, 0x03, byte, half),
        Got::Refused(status) => ended(status, run),
    }
}

// The byte that the request sends next.
pub fn byte_to_send(way: Way, run: Run, half: &[u8]) -> u8
    ensures { result ≡ sent_byte way run half.now }
{
    match way {
        Way::One => run.a,
        Way::Characters => base::byte_at(half, run.place as usize),
        Way::Record => {
            if run.left == 0 {
                return 0x9B;
            }
            base::byte_at(half, run.place as usize)
        }
    }
}

// A record's byte sent: with none left it was the added EOL.
fn put_record(run: Run, byte: u8) -> Carried
    requires { Spans Way.Record run }
    ensures { next_of run result ≡ sent_record run byte }
{
    if run.left == 0 {
        return ended(0x01, run);
    }
    record_next(further(run), 0x01, byte)
}

fn put_character(way: Way, run: Run, byte: u8) -> Carried
    requires { Spans way run }
    ensures { next_of run result ≡ sent_next way run byte }
{
    match way {
        Way::One => ended(0x01, run),
        Way::Characters => onward(further(run), 0x01),
        Way::Record => put_record(run, byte),
    }
}

// What a handler's answer to a PUT makes of the request.
pub fn after_put(way: Way, run: Run, byte: u8, done: Done) -> Carried
    requires { Spans way run }
    ensures { next_of run result ≡ sent_of way run byte done }
{
    match done {
        Done::Success => put_character(way, run, byte),
        Done::Refused(status) => ended(status, run),
    }
}

// The port's phase and room after a character: the last one makes the reply.
pub fn land(next: Next, room: &mut [u8]) -> Phase
    ensures { in_port result room.new ≡ landed (out_of next) room.old }
{
    match next {
        Next::On(run) => Phase::Running(run),
        Next::Off(status, count, a) => {
            let reply = replies::call_reply(room, status, count, a);
            Phase::Replying(reply)
        }
    }
}
