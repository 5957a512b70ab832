// The ops of a call script, read from standard input: one byte and its operands, numbers low byte first.
use crate::board::{Buffer, buffer_of};
use crate::streams::Streams;
use std::io;

// What the stick is asked: one of the five calls, or none.
#[derive(Clone, Copy)]
pub enum CallOp {
    Nothing,
    Fresh,
    Take(u8, u8),
    Tick(u8),
    Give(u8),
    Press(u8),
}

// `Start` stands before a script: a fresh start for which nothing is written. `Ticks` has a port, how many ticks there are at most,
// while the port runs on, and how many there were. `Write` has a buffer, a place in it, and how many bytes follow; with no buffer they
// are read and no more. `Doctor` has the image that the doctor is to treat.
#[derive(Clone, Copy)]
pub enum Op {
    Start,
    End,
    Lend(Option<Buffer>, u32),
    Write(Option<Buffer>, u32, u16),
    Dump,
    DumpTape,
    Doctor(u8),
    Ticks(u8, u16, u16),
    Call(CallOp),
}

impl Op {
    // Nothing more is played.
    pub fn ends(self) -> bool {
        matches!(self, Op::End)
    }

    // What the op asks the stick now.
    pub fn call(self) -> CallOp {
        match self {
            Op::Start => CallOp::Fresh,
            Op::Ticks(port, most, made) if made < most => CallOp::Tick(port),
            Op::Call(call) => call,
            _ => CallOp::Nothing,
        }
    }
}

// The most bytes that an op's operands have.
const OPERANDS: usize = 6;

// How many bytes an op's operands have.
fn operands(op: u8) -> usize {
    match op {
        b'K' | b'G' | b'P' | b'R' => 1,
        b'T' => 2,
        b'X' => 3,
        b'L' => 4,
        b'W' => OPERANDS,
        _ => 0,
    }
}

// An op and its operands, as far as it has some.
fn op_of(op: u8, operands: [u8; OPERANDS]) -> Op {
    let [first, second, third, fourth, fifth, sixth] = operands;
    let short = u16::from_le_bytes([second, third]);
    let long = u32::from_le_bytes([second, third, fourth, 0]);
    match op {
        b'F' => Op::Call(CallOp::Fresh),
        b'T' => Op::Call(CallOp::Take(first, second)),
        b'K' => Op::Call(CallOp::Tick(first)),
        b'G' => Op::Call(CallOp::Give(first)),
        b'P' => Op::Call(CallOp::Press(first)),
        b'X' => Op::Ticks(first, short, 0),
        b'L' => Op::Lend(buffer_of(first), long),
        b'W' => Op::Write(buffer_of(first), long, u16::from_le_bytes([fifth, sixth])),
        b'D' => Op::Dump,
        b'C' => Op::DumpTape,
        b'R' => Op::Doctor(first),
        _ => Op::End,
    }
}

// The operands of an op that has been read.
fn read_operands(streams: &mut Streams, op: u8) -> io::Result<Op> {
    let mut bytes = [0u8; OPERANDS];
    let count = operands(op).min(OPERANDS);
    if !streams.fill(&mut bytes[..count])? {
        return Ok(Op::End);
    }
    Ok(op_of(op, bytes))
}

pub fn read(streams: &mut Streams) -> io::Result<Op> {
    let mut bytes = [0u8; 1];
    if !streams.fill(&mut bytes)? {
        return Ok(Op::End);
    }
    read_operands(streams, bytes[0])
}
