// Plays a call script from standard input on the stick, an op at a time: each is answered on standard output before the next is
// waited for. It ends with the input, with an op cut by its end, or with a byte that is no op.
#![tactic(auto)]

use script::answers;
use script::board::Board;
use script::lengths::LentLengths;
use script::ops::Op;
use script::streams::Streams;
use std::io;

mod cut_calls;
mod treatment;

// A proved loop has to end, and nothing says that an input does: so its turns are counted, up to a number that no run reaches.
fn main(rt: HostRuntime) -> io::Result<()> {
    let mut streams = Streams::new(rt.alloc(), rt.stdin(), rt.stdout())?;
    let mut board = Board::new();
    let mut op = Op::Start;
    let mut lengths = LentLengths::whole();
    for _ in 0..u64::MAX {
        if op.ends() {
            break;
        }
        let number = cut_calls::perform(&mut board, op.call(), lengths);
        lengths = lengths.after(op);
        treatment::done(&mut streams, op, &mut board.images)?;
        op = answers::next(&mut streams, op, number, &mut board.views())?;
    }
    streams.flush()
}
