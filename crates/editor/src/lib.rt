// E, the screen editor: OPEN, GET and the new row over mode 0's 24 rows of 40 cells. Margins 2 and 39; each row is one line.
#![tactic(auto)]

pub mod line;

ghost use Rattle.std.specs.Prelude.{◌≡◌};
ghost use Rattle.handler.specs.Answer.{answer};
ghost use Rattle.cells.specs.Cells.{Whole};
ghost use Rattle.editor.specs.Text.{text, placed, new_row, open_of};
ghost use Rattle.editor.specs.Get.{get_of};

use handler::Got;

#[derive(Clone, Copy)]
pub struct Editor {
    pub row: u16,
    pub column: u16,
    pub last: u8,
    pub escape: bool,
    // The column that the next GET reads, or none.
    pub reading: Option<u16>,
}

impl Editor {
    // The cursor at another place.
    pub fn place(&mut self, row: u16, column: u16)
        ensures { self.new ≡ placed row column self.old }
    {
        self.row = row;
        self.column = column;
    }

    // Column 2 of the next row; from row 23 the rows move up.
    pub fn new_row(&mut self, screen: &mut [u8])
        requires { Whole screen.old }
        ensures { text self.new screen.new ≡ new_row (text self.old screen.old) }
    {
        if 23 <= self.row {
            cells::scroll(screen);
            return self.place(23, 2);
        }
        self.place(self.row + 1, 2);
    }

    pub fn open(&mut self, screen: &mut [u8])
        requires { Whole screen.old }
        ensures { text self.new screen.new ≡ open_of (text self.old screen.old) }
    {
        cells::fill(screen, 0, 0x20);
        *self = Editor {
            row: 0,
            column: 2,
            escape: false,
            reading: None,
            ..*self
        };
    }

    pub fn get(&mut self, screen: &mut [u8]) -> Got
        requires { Whole screen.old }
        ensures { answer result (text self.new screen.new) ≡ get_of (text self.old screen.old) }
    {
        let column = line::column_of(self.reading);
        if column < line::end(screen, self.row) {
            let cell = base::byte_at(screen, self.row as usize * 40 + column as usize);
            self.last = cell;
            self.reading = Some(column + 1);
            return Got::Character(cell);
        }
        self.new_row(screen);
        self.reading = None;
        Got::Character(0x9B)
    }
}
