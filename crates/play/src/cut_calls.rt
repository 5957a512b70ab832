// The five calls, over buffers that may be lent cut.
use script::board::Board;
use script::lengths::LentLengths;
use script::ops::CallOp;

// At most so many bytes of a buffer, the first.
fn cut(buffer: &mut [u8], length: u32) -> &mut [u8] {
    let end = (length as usize).min(buffer.len());
    &mut buffer[..end]
}

// A call that is lent the first bytes of each buffer, at most its whole. The answer is in the low byte, of a give the reply byte in the
// high one.
pub fn perform(board: &mut Board, call: CallOp, lengths: LentLengths) -> u16 {
    let state = cut(&mut board.state, lengths.state);
    let area = cut(&mut board.area, lengths.area);
    let screen = cut(&mut board.screen, lengths.screen);
    let paper = cut(&mut board.paper, lengths.paper);
    let tape = cut(&mut board.tape, lengths.tape);
    let images = cut(&mut board.images, lengths.images);
    match call {
        CallOp::Nothing => 0,
        CallOp::Fresh => firmware::fixlomand_fresh(state, area, screen, paper, tape, images) as u16,
        CallOp::Take(port, byte) => {
            firmware::fixlomand_take(state, area, screen, paper, tape, images, port, byte) as u16
        }
        CallOp::Tick(port) => {
            firmware::fixlomand_tick(state, area, screen, paper, tape, images, port) as u16
        }
        CallOp::Give(port) => {
            firmware::fixlomand_give(state, area, screen, paper, tape, images, port)
        }
        CallOp::Press(code) => {
            firmware::fixlomand_press(state, area, screen, paper, tape, images, code) as u16
        }
    }
}
