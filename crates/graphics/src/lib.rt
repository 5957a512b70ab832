// S, the graphics screen: OPEN, GET and PUT in modes 3 to 8. Every cell is read and written through `cells`.
#![tactic(auto)]

ghost use Rattle.std.specs.Prelude.{◌≡◌, ◌<◌};
ghost use Rattle.handler.specs.Answer.{answer};
ghost use Rattle.cells.specs.Cells.{Whole};
ghost use Rattle.graphics.specs.Picture.{picture, placed, Drawn, onward, cells_opened, open_of, get_of, clear_of, data_of, put_of};

use cells::Shape;
use handler::{Done, Got};

#[derive(Clone, Copy)]
pub struct Graphics {
    pub row: u16,
    pub column: u16,
    pub mode: u8,
    pub last: u8,
}

impl Graphics {
    // The cursor at another place.
    pub fn place(&mut self, row: u16, column: u16)
        ensures { self.new ≡ placed row column self.old }
    {
        self.row = row;
        self.column = column;
    }

    // One right, or from the last column to column 0 of the next row.
    fn move_on(&mut self, shape: Shape)
        requires { self.old.row < 65535 }
        ensures { self.new ≡ onward shape self.old }
    {
        let right = self.column as usize + 1;
        if right < shape.columns as usize {
            self.column = right as u16;
            return;
        }
        self.place(self.row + 1, 0);
    }

    pub fn open(&mut self, screen: &mut [u8], aux1: u8, aux2: u8) -> Done
        requires { Whole screen.old }
        ensures { answer result (picture self.new screen.new) ≡ open_of aux1 aux2 (picture self.old screen.old) }
    {
        if aux1 / 16 % 2 == 1 {
            return Done::Refused(0x91);
        }
        if aux2 < 3 {
            return Done::Refused(0x91);
        }
        if 8 < aux2 {
            return Done::Refused(0x91);
        }
        start(screen, aux2, aux1);
        *self = Graphics {
            mode: aux2,
            row: 0,
            column: 0,
            ..*self
        };
        Done::Success
    }

    pub fn get(&mut self, screen: &[u8]) -> Got
        ensures { answer result self.new ≡ get_of screen.now self.old }
    {
        let shape = cells::shape_of(self.mode);
        if self.row < shape.rows {
            let cell = cells::read(screen, shape, self.row, self.column);
            self.last = cell;
            self.move_on(shape);
            return Got::Character(cell);
        }
        Got::Refused(0x8D)
    }

    // $7D: the mode's cells zero, cursor (0,0).
    fn clear(&mut self, screen: &mut [u8])
        requires { Whole screen.old }
        ensures { picture self.new screen.new ≡ clear_of (picture self.old screen.old) }
    {
        cells::fill(screen, self.mode, 0);
        self.place(0, 0);
    }

    // A cell and the last character; the cursor moves on.
    fn data_byte(&mut self, shape: Shape, screen: &mut [u8], byte: u8)
        requires { Drawn self.old shape }
        ensures { picture self.new screen.new ≡ data_of shape byte (picture self.old screen.old) }
    {
        cells::write(screen, shape, self.row, self.column, byte);
        self.last = byte;
        self.move_on(shape);
    }

    pub fn put(&mut self, screen: &mut [u8], byte: u8) -> Done
        requires { Whole screen.old }
        ensures { answer result (picture self.new screen.new) ≡ put_of byte (picture self.old screen.old) }
    {
        if byte == 0x7D {
            self.clear(screen);
            return Done::Success;
        }
        let shape = cells::shape_of(self.mode);
        if shape.rows <= self.row {
            return Done::Refused(0x8D);
        }
        if byte == 0x9B {
            self.place(self.row + 1, 0);
            return Done::Success;
        }
        self.data_byte(shape, screen, byte);
        Done::Success
    }
}

// The cells of a mode as its opening leaves them.
fn start(screen: &mut [u8], mode: u8, aux1: u8)
    requires { Whole screen.old }
    ensures { screen.new ≡ cells_opened mode aux1 screen.old }
{
    if aux1 / 32 % 2 == 1 {
        cells::reduce(screen, mode);
        return;
    }
    cells::fill(screen, mode, 0);
}
