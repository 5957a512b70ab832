// The screen's cells, a byte each: what each mode has, and the cells of a mode read, written, filled, reduced and scrolled. Cells
// past the mode stay.
#![tactic(auto)]

pub mod part;

ghost use Rattle.std.specs.Prelude.{◌≡◌, ◌%◌, ◌<◌, ◌≤◌};
ghost use Rattle.cells.specs.Modes.{is_mode, shape_of, count_of};
ghost use Rattle.cells.specs.Cells.{Colours, Whole, place_of, cell_of, with_cell, filled, reduced, scrolled, scrolled_by};

#[derive(Clone, Copy)]
pub struct Shape {
    pub columns: u16,
    pub rows: u16,
    pub colours: u16,
}

const MODES: [Shape; 7] = [
    Shape {
        columns: 40,
        rows: 24,
        colours: 256,
    },
    Shape {
        columns: 40,
        rows: 24,
        colours: 4,
    },
    Shape {
        columns: 80,
        rows: 48,
        colours: 2,
    },
    Shape {
        columns: 80,
        rows: 48,
        colours: 4,
    },
    Shape {
        columns: 160,
        rows: 96,
        colours: 2,
    },
    Shape {
        columns: 160,
        rows: 96,
        colours: 4,
    },
    Shape {
        columns: 320,
        rows: 192,
        colours: 2,
    },
];

// A mode: 0, or 3 to 8.
pub fn is_mode(mode: u8) -> bool
    ensures { result ≡ is_mode mode }
{
    match mode {
        0 | 3..=8 => true,
        _ => false,
    }
}

// A mode's row of the table, each by its own number, so that nothing of the table is left to be looked up when the code runs; a
// number that is no mode has no cells.
pub fn shape_of(mode: u8) -> Shape
    ensures { result ≡ shape_of mode }
{
    let modes = MODES;
    match mode {
        0 => modes[0],
        3 => modes[1],
        4 => modes[2],
        5 => modes[3],
        6 => modes[4],
        7 => modes[5],
        8 => modes[6],
        _ => Shape {
            columns: 0,
            rows: 0,
            colours: 1,
        },
    }
}

// How many cells a mode has.
pub fn count(mode: u8) -> usize
    ensures { result ≡ count_of mode }
{
    let s = shape_of(mode);
    s.columns as usize * s.rows as usize
}

// Where a mode's cell lies on the screen.
pub fn place(shape: Shape, row: u16, column: u16) -> usize
    ensures { result ≡ place_of shape row column }
{
    row as usize * shape.columns as usize + column as usize
}

// A byte modulo some colours; by the two and four of most modes without a division.
fn colour(byte: u8, colours: u16) -> u8
    requires { Colours colours }
    ensures { result ≡ byte % colours }
{
    match colours {
        2 => byte % 2,
        4 => byte % 4,
        _ => (byte as u16 % colours) as u8,
    }
}

// A cell of a mode of this shape, modulo the mode's colours.
pub fn read(screen: &[u8], shape: Shape, row: u16, column: u16) -> u8
    requires { Colours shape.colours }
    ensures { result ≡ cell_of shape row column screen.now }
{
    colour(
        base::byte_at(screen, place(shape, row, column)),
        shape.colours,
    )
}

// A cell of a mode of this shape becomes a byte modulo the mode's colours.
pub fn write(screen: &mut [u8], shape: Shape, row: u16, column: u16, byte: u8)
    requires { Colours shape.colours }
    ensures { screen.new ≡ with_cell shape row column byte screen.old }
{
    base::set_byte(
        screen,
        place(shape, row, column),
        colour(byte, shape.colours),
    );
}

// All cells of a mode become one byte.
pub fn fill(screen: &mut [u8], mode: u8, byte: u8)
    requires { Whole screen.old }
    ensures { screen.new ≡ filled mode byte screen.old }
{
    let end = count(mode);
    part::paint(&mut screen[..end], byte);
}

// Each cell of a mode is taken modulo the mode's colours.
pub fn reduce(screen: &mut [u8], mode: u8)
    requires { Whole screen.old }
    ensures { screen.new ≡ reduced mode screen.old }
{
    let s = shape_of(mode);
    let end = count(mode);
    part::reduce_all(&mut screen[..end], s.colours);
}

// Rows move up, and row 23 becomes $20.
pub fn scroll(screen: &mut [u8])
    requires { Whole screen.old }
    ensures { screen.new ≡ scrolled screen.old }
{
    scroll_by(screen, 1);
}

// The top rows go, the rest moves up, and as many rows of $20 come in at the bottom.
pub fn scroll_by(screen: &mut [u8], rows: u16)
    requires { Whole screen.old }
    ensures { screen.new ≡ scrolled_by rows screen.old }
{
    part::shift(&mut screen[..960], rows as usize * 40, 0x20);
}
