// E's PUT: what a byte asks of the editor, a control code's act on the cursor and the cells or data, and doing it.
#![tactic(auto)]

pub mod decide;

ghost use Rattle.std.specs.Prelude.{◌≡◌};
ghost use Rattle.handler.specs.Answer.{answer};
ghost use Rattle.cells.specs.Cells.{Whole};
ghost use Rattle.editor.specs.Text.{text, with_escape};
ghost use Rattle.controls.specs.Put.{less_of, more_of, clear_of, back_of, data_of, doing, put_of};

use decide::Act;
use editor::Editor;
use handler::Done;

// One less, and from low to high.
fn less(x: u16, low: u16, high: u16) -> u16
    ensures { result ≡ less_of low high x }
{
    if x <= low {
        return high;
    }
    x - 1
}

// One more, and from high to low.
fn more(x: u16, low: u16, high: u16) -> u16
    ensures { result ≡ more_of low high x }
{
    if high <= x {
        return low;
    }
    x + 1
}

// No read column, and the escape as told.
fn tell(editor: &mut Editor, escape: bool)
    ensures { editor.new ≡ with_escape escape editor.old }
{
    editor.escape = escape;
    editor.reading = None;
}

fn clear(editor: &mut Editor, screen: &mut [u8])
    requires { Whole screen.old }
    ensures { text editor.new screen.new ≡ clear_of (text editor.old screen.old) }
{
    cells::fill(screen, 0, 0x20);
    editor.place(0, 2);
}

fn back(editor: &mut Editor, screen: &mut [u8])
    ensures { text editor.new screen.new ≡ back_of (text editor.old screen.old) }
{
    if editor.column <= 2 {
        return;
    }
    let left = editor.column - 1;
    base::set_byte(screen, editor.row as usize * 40 + left as usize, 0x20);
    editor.column = left;
}

fn data_byte(editor: &mut Editor, screen: &mut [u8], byte: u8)
    requires { Whole screen.old }
    ensures { text editor.new screen.new ≡ data_of byte (text editor.old screen.old) }
{
    base::set_byte(
        screen,
        editor.row as usize * 40 + editor.column as usize,
        byte,
    );
    editor.last = byte;
    if 39 <= editor.column {
        return editor.new_row(screen);
    }
    editor.column += 1;
}

fn perform(act: Act, editor: &mut Editor, screen: &mut [u8], byte: u8)
    requires { Whole screen.old }
    ensures { text editor.new screen.new ≡ doing act byte (text editor.old screen.old) }
{
    match act {
        Act::Escape => tell(editor, true),
        Act::Up => editor.row = less(editor.row, 0, 23),
        Act::Down => editor.row = more(editor.row, 0, 23),
        Act::Left => editor.column = less(editor.column, 2, 39),
        Act::Right => editor.column = more(editor.column, 2, 39),
        Act::Clear => clear(editor, screen),
        Act::Back => back(editor, screen),
        Act::NewRow => editor.new_row(screen),
        Act::Nothing => {}
        Act::Data => data_byte(editor, screen, byte),
    }
}

pub fn put(editor: &mut Editor, screen: &mut [u8], byte: u8) -> Done
    requires { Whole screen.old }
    ensures { answer result (text editor.new screen.new) ≡ put_of byte (text editor.old screen.old) }
{
    let act = decide::act_of(editor.escape, byte);
    tell(editor, false);
    perform(act, editor, screen, byte);
    Done::Success
}
