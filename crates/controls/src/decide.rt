// What a byte asks of the editor: sixteen control codes, and data as the rest.
ghost use Rattle.std.specs.Prelude.{◌≡◌};
ghost use Rattle.controls.specs.Decide.{act_of, plain_of};

#[derive(Clone, Copy)]
pub enum Act {
    Escape,
    Up,
    Down,
    Left,
    Right,
    Clear,
    Back,
    NewRow,
    Nothing,
    Data,
}

// With no escape before it.
pub fn plain(byte: u8) -> Act
    ensures { result ≡ plain_of byte }
{
    match byte {
        0x1B => Act::Escape,
        0x1C => Act::Up,
        0x1D => Act::Down,
        0x1E => Act::Left,
        0x1F => Act::Right,
        0x7D => Act::Clear,
        0x7E => Act::Back,
        0x9B => Act::NewRow,
        0x7F | 0x9C..=0x9F | 0xFD..=0xFF => Act::Nothing,
        _ => Act::Data,
    }
}

pub fn act_of(escape: bool, byte: u8) -> Act
    ensures { result ≡ act_of escape byte }
{
    if escape {
        match byte {
            0x9B => Act::NewRow,
            _ => Act::Data,
        }
    } else {
        plain(byte)
    }
}
