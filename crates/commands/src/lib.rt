// A CALL's command byte, and the way in which a transfer moves its characters.
#![tactic(auto)]

ghost use Rattle.std.specs.Prelude.{◌≡◌};
ghost use Rattle.commands.specs.Commands.{command_of, way_of, kind_of};

use blocks::{Kind, Way};

#[derive(Clone, Copy)]
pub enum Command {
    Bad,
    Open,
    Close,
    Status,
    Special,
    Transfer { reads: bool, records: bool },
}

pub fn command_of(byte: u8) -> Command
    ensures { result ≡ command_of byte }
{
    match byte {
        0x03 => Command::Open,
        0x05 => Command::Transfer {
            reads: true,
            records: true,
        },
        0x07 => Command::Transfer {
            reads: true,
            records: false,
        },
        0x09 => Command::Transfer {
            reads: false,
            records: true,
        },
        0x0B => Command::Transfer {
            reads: false,
            records: false,
        },
        0x0C => Command::Close,
        0x0D => Command::Status,
        _ => {
            if 0x0D < byte {
                return Command::Special;
            }
            Command::Bad
        }
    }
}

fn way_of(records: bool, length: u16) -> Way
    ensures { result ≡ way_of records length }
{
    if length == 0 {
        return Way::One;
    }
    if records {
        return Way::Record;
    }
    Way::Characters
}

pub fn transfer_kind(reads: bool, records: bool, length: u16) -> Kind
    ensures { result ≡ kind_of reads (way_of records length) }
{
    let way = way_of(records, length);
    if reads {
        return Kind::Get(way);
    }
    Kind::Put(way)
}
