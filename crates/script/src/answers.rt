// What is written for an op once the stick has been asked what the op asks.
use crate::board::Views;
use crate::ops::{CallOp, Op};
use crate::streams::Streams;
use crate::{dump, ops, say, tape, ticking, writes};
use std::io;

// A call's answer, and of a give the reply byte: the low and the high byte of the number that the call returned.
fn write(streams: &mut Streams, call: CallOp, number: u16) -> io::Result<()> {
    let [answer, byte] = number.to_le_bytes();
    say::byte(streams, answer)?;
    if matches!(call, CallOp::Give(_)) {
        say::byte(streams, byte)?;
    }
    Ok(())
}

// Writes it, and returns the op that is next.
fn answered(streams: &mut Streams, op: Op, number: u16, views: &Views<'_>) -> io::Result<Op> {
    match op {
        Op::End => return Ok(Op::End),
        Op::Dump => dump::write(streams, views.state, views.area, views.screen, views.paper)?,
        Op::DumpTape => tape::write(streams, views.state, views.tape)?,
        Op::Ticks(port, most, made) => {
            let [answer, _] = number.to_le_bytes();
            return ticking::next(streams, port, most, made, answer, views.state);
        }
        Op::Call(call) => write(streams, call, number)?,
        _ => {}
    }
    ops::read(streams)
}

// The same, once an op that writes into a buffer has done so.
pub fn next(streams: &mut Streams, op: Op, number: u16, views: &mut Views<'_>) -> io::Result<Op> {
    let done = writes::done(streams, op, views)?;
    answered(streams, done, number, views)
}
