// The buffers that a script names, a board that has them, and the views that it lends.
ghost use Rattle.std.specs.Prelude.{◌≡◌, ◌*◌, replicate};

use firmware::{IMAGES, PAPER, SCREEN, TAPE};
use layout::places::{AREA, STATE};

#[derive(Clone, Copy)]
pub enum Buffer {
    Area,
    Screen,
    Paper,
    State,
    Tape,
    Images,
}

// The buffer that a number names in a script, if it names one.
pub fn buffer_of(number: u8) -> Option<Buffer> {
    match number {
        0 => Some(Buffer::Area),
        1 => Some(Buffer::Screen),
        2 => Some(Buffer::Paper),
        3 => Some(Buffer::State),
        4 => Some(Buffer::Tape),
        6 => Some(Buffer::Images),
        _ => None,
    }
}

// Bytes from a place of a buffer on, cut at its end.
fn put(some: &[u8], at: u32, into: &mut [u8]) {
    let from = (at as usize).min(into.len());
    let count = some.len().min(into.len() - from);
    into[from..from + count].copy_from_slice(&some[..count]);
}

// The six buffers, each of its length.
#[derive(Drop)]
pub struct Board {
    pub state: [u8; STATE],
    pub area: [u8; 2 * AREA],
    pub screen: [u8; SCREEN],
    pub paper: [u8; PAPER],
    pub tape: [u8; TAPE],
    pub images: [u8; IMAGES],
}

// Buffers of any length, as they are lent; the state is lent to be read.
#[derive(Drop)]
pub struct Views<'a> {
    pub state: &'a [u8],
    pub area: &'a mut [u8],
    pub screen: &'a mut [u8],
    pub paper: &'a mut [u8],
    pub tape: &'a mut [u8],
    pub images: &'a mut [u8],
}

impl Board {
    // Every byte is 0.
    pub fn new() -> Board
        ensures state { result.state ≡ replicate STATE 0 }
        ensures area { result.area ≡ replicate (2 * AREA) 0 }
        ensures screen { result.screen ≡ replicate SCREEN 0 }
        ensures paper { result.paper ≡ replicate PAPER 0 }
        ensures tape { result.tape ≡ replicate TAPE 0 }
        ensures images { result.images ≡ replicate IMAGES 0 }
    {
        Board {
            state: [0; STATE],
            area: [0; 2 * AREA],
            screen: [0; SCREEN],
            paper: [0; PAPER],
            tape: [0; TAPE],
            images: [0; IMAGES],
        }
    }

    // What an op writes into and shows.
    pub fn views(&mut self) -> Views<'_>
        ensures state { result.state.now ≡ self.old.state }
        ensures area { result.area.now ≡ self.old.area }
        ensures screen { result.screen.now ≡ self.old.screen }
        ensures paper { result.paper.now ≡ self.old.paper }
        ensures tape { result.tape.now ≡ self.old.tape }
        ensures images { result.images.now ≡ self.old.images }
    {
        let state = &self.state;
        let area = &mut self.area;
        let screen = &mut self.screen;
        let paper = &mut self.paper;
        let tape = &mut self.tape;
        let images = &mut self.images;
        Views {
            state,
            area,
            screen,
            paper,
            tape,
            images,
        }
    }
}

impl Views<'_> {
    // What a script writes: the state is none of it.
    pub fn write(&mut self, buffer: Buffer, at: u32, some: &[u8]) {
        match buffer {
            Buffer::Area => put(some, at, self.area),
            Buffer::Screen => put(some, at, self.screen),
            Buffer::Paper => put(some, at, self.paper),
            Buffer::State => {}
            Buffer::Tape => put(some, at, self.tape),
            Buffer::Images => put(some, at, self.images),
        }
    }
}

#[cfg(test)]
mod tests {
    use super::*;

    fn holds_zeros(buffer: &[u8]) -> bool {
        buffer.iter().all(|byte| *byte == 0)
    }

    // What is written through a new board's views stands in the board, cut at the buffer's end, and every other byte of it is 0.
    #[test]
    fn is_written_through_its_views(rt: HostRuntime) {
        let mut board = Board::new();
        let last = board.paper.len() - 1;
        board.views().write(Buffer::Paper, last as u32, &[1, 2]);
        board.views().write(Buffer::State, 0, &[3]);
        assert_eq!(rt; board.paper[last], 1);
        board.paper[last] = 0;
        let views = board.views();
        assert!(rt; holds_zeros(views.state));
        assert!(rt; holds_zeros(views.area));
        assert!(rt; holds_zeros(views.screen));
        assert!(rt; holds_zeros(views.paper));
        assert!(rt; holds_zeros(views.tape));
        assert!(rt; holds_zeros(views.images));
    }
}
