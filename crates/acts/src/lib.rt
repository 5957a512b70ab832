// The console's acts: a fresh start, OPEN, the start of a transfer, GET and PUT, each one match on its handlers E, S and K.
#![tactic(auto)]

ghost use Rattle.std.specs.Prelude.{◌≡◌};
ghost use Rattle.handler.specs.Answer.{answer};
ghost use Rattle.cells.specs.Cells.{Whole};
ghost use Rattle.console.specs.Group.{group, fresh_group};
ghost use Rattle.console.specs.Handlers.{open_of, prepare_of, read_of, write_of};

use console::Handler;
use console::state::Console;
use handler::{Done, Got};

// The fresh console, over whatever the screen held.
pub fn fresh(screen: &mut [u8]) -> Console
    requires { Whole screen.old }
    ensures { group result screen.new ≡ fresh_group }
{
    cells::fill(screen, 8, 0);
    cells::fill(screen, 0, 0x20);
    Console::fresh()
}

pub fn open(handler: Handler, console: &mut Console, screen: &mut [u8], aux1: u8, aux2: u8) -> Done
    requires { Whole screen.old }
    ensures { answer result (group console.new screen.new) ≡ open_of handler aux1 aux2 (group console.old screen.old) }
{
    match handler {
        Handler::E => {
            console::each::open_editor(console, screen);
            Done::Success
        }
        Handler::S => console::each::open_screen(console, screen, aux1, aux2),
        Handler::K => Done::Success,
    }
}

// Before the first character of a transfer: in another mode E is opened anew, in mode 0 S is refused.
pub fn prepare(handler: Handler, console: &mut Console, screen: &mut [u8]) -> Done
    requires { Whole screen.old }
    ensures { answer result (group console.new screen.new) ≡ prepare_of handler (group console.old screen.old) }
{
    match handler {
        Handler::E => {
            if console.mode == 0 {
                return Done::Success;
            }
            console::each::open_editor(console, screen);
            Done::Success
        }
        Handler::S => {
            if console.mode == 0 {
                return Done::Refused(0x91);
            }
            Done::Success
        }
        Handler::K => Done::Success,
    }
}

pub fn read(handler: Handler, console: &mut Console, screen: &mut [u8]) -> Got
    requires { Whole screen.old }
    ensures { answer result (group console.new screen.new) ≡ read_of handler (group console.old screen.old) }
{
    match handler {
        Handler::E => console::each::read_editor(console, screen),
        Handler::S => console::each::read_screen(console, screen),
        Handler::K => console::each::read_keyboard(console),
    }
}

pub fn write(handler: Handler, console: &mut Console, screen: &mut [u8], byte: u8) -> Done
    requires { Whole screen.old }
    ensures { answer result (group console.new screen.new) ≡ write_of handler byte (group console.old screen.old) }
{
    match handler {
        Handler::E => console::each::write_editor(console, screen, byte),
        Handler::S => console::each::write_screen(console, screen, byte),
        Handler::K => Done::Refused(0x87),
    }
}
