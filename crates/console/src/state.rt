// The console's state, and each handler's part of it.
ghost use Rattle.std.specs.Prelude.{◌≡◌};
ghost use Rattle.console.specs.Group.{fresh_console, editor_of, with_editor, graphics_of, with_graphics, pressed_of};

use editor::Editor;
use graphics::Graphics;
use keys::keyboard::Keyboard;

#[derive(Clone, Copy)]
pub struct Console {
    pub mode: u8,
    pub row: u16,
    pub column: u16,
    pub last: u8,
    pub escape: bool,
    pub reading: Option<u16>,
    pub keyboard: Keyboard,
}

impl Console {
    pub fn fresh() -> Console
        ensures { result ≡ fresh_console }
    {
        Console {
            mode: 0,
            row: 0,
            column: 2,
            last: 0,
            escape: false,
            reading: None,
            keyboard: Keyboard::fresh(),
        }
    }

    // E's part, field by field: it is another type, and S's part shares its cursor.
    pub fn editor(self) -> Editor
        ensures { result ≡ editor_of self }
    {
        Editor {
            row: self.row,
            column: self.column,
            last: self.last,
            escape: self.escape,
            reading: self.reading,
        }
    }

    pub fn set_editor(&mut self, editor: Editor)
        ensures { self.new ≡ with_editor editor self.old }
    {
        *self = Console {
            row: editor.row,
            column: editor.column,
            last: editor.last,
            escape: editor.escape,
            reading: editor.reading,
            ..*self
        };
    }

    // S's part.
    pub fn graphics(self) -> Graphics
        ensures { result ≡ graphics_of self }
    {
        Graphics {
            mode: self.mode,
            row: self.row,
            column: self.column,
            last: self.last,
        }
    }

    pub fn set_graphics(&mut self, graphics: Graphics)
        ensures { self.new ≡ with_graphics graphics self.old }
    {
        *self = Console {
            mode: graphics.mode,
            row: graphics.row,
            column: graphics.column,
            last: graphics.last,
            ..*self
        };
    }

    // A key pressed.
    pub fn press(&mut self, code: u8)
        ensures { self.new ≡ pressed_of code self.old }
    {
        self.keyboard.press(code);
    }
}
