// Each handler of the console: its part of the state is taken out, handed over and put back.
ghost use Rattle.std.specs.Prelude.{◌≡◌};
ghost use Rattle.handler.specs.Answer.{answer};
ghost use Rattle.cells.specs.Cells.{Whole};
ghost use Rattle.console.specs.Group.{group};
ghost use Rattle.console.specs.Handlers.{open_e, open_s, read_e, read_s, read_k, write_e, write_s};

use crate::state::Console;
use handler::{Done, Got};

pub fn open_editor(console: &mut Console, screen: &mut [u8])
    requires { Whole screen.old }
    ensures { group console.new screen.new ≡ open_e (group console.old screen.old) }
{
    let mut editor = console.editor();
    editor.open(screen);
    console.set_editor(editor);
    console.mode = 0;
}

pub fn open_screen(console: &mut Console, screen: &mut [u8], aux1: u8, aux2: u8) -> Done
    requires { Whole screen.old }
    ensures { answer result (group console.new screen.new) ≡ open_s aux1 aux2 (group console.old screen.old) }
{
    let mut graphics = console.graphics();
    let done = graphics.open(screen, aux1, aux2);
    console.set_graphics(graphics);
    done
}

pub fn read_editor(console: &mut Console, screen: &mut [u8]) -> Got
    requires { Whole screen.old }
    ensures { answer result (group console.new screen.new) ≡ read_e (group console.old screen.old) }
{
    let mut editor = console.editor();
    let got = editor.get(screen);
    console.set_editor(editor);
    got
}

pub fn read_screen(console: &mut Console, screen: &[u8]) -> Got
    ensures { answer result console.new ≡ read_s screen.now console.old }
{
    let mut graphics = console.graphics();
    let got = graphics.get(screen);
    console.set_graphics(graphics);
    got
}

pub fn read_keyboard(console: &mut Console) -> Got
    ensures { answer result console.new ≡ read_k console.old }
{
    console.keyboard.get()
}

pub fn write_editor(console: &mut Console, screen: &mut [u8], byte: u8) -> Done
    requires { Whole screen.old }
    ensures { answer result (group console.new screen.new) ≡ write_e byte (group console.old screen.old) }
{
    let mut editor = console.editor();
    let done = controls::put(&mut editor, screen, byte);
    console.set_editor(editor);
    done
}

pub fn write_screen(console: &mut Console, screen: &mut [u8], byte: u8) -> Done
    requires { Whole screen.old }
    ensures { answer result (group console.new screen.new) ≡ write_s byte (group console.old screen.old) }
{
    let mut graphics = console.graphics();
    let done = graphics.put(screen, byte);
    console.set_graphics(graphics);
    done
}
