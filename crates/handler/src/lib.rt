// What CIO tells a device handler, and what the handler answers: for a character read, and for a character written or a device
// opened.
#![tactic(auto)]

ghost use Rattle.std.specs.Prelude.{◌≡◌};
ghost use Rattle.handler.specs.Acts.{asks_on};

use names::Pattern;

// What an act of a handler may know: the port and the IOCB that it is for; of an opening also the device's number, AUX1, AUX2 and the
// pattern of the name behind the specification, none where a byte of the name is bad. A device without names has names::none(), and of an
// act on an open block there is none of these four.
#[derive(Clone, Copy)]
pub struct Asked {
    pub port: u8,
    pub iocb: u8,
    pub number: u8,
    pub aux1: u8,
    pub aux2: u8,
    pub name: Option<Pattern>,
}

// What an act on an open block may know.
pub fn on_block(port: u8, iocb: u8) -> Asked
    ensures { result ≡ asks_on port iocb }
{
    Asked {
        port: port,
        iocb: iocb,
        number: 0,
        aux1: 0,
        aux2: 0,
        name: Some(names::none()),
    }
}

// A GET: the character; the last one, after which the next would be refused with end of file; or a refusal with its status from $80.
#[derive(Clone, Copy)]
pub enum Got {
    Character(u8),
    Last(u8),
    Refused(u8),
}

// A PUT, an OPEN or another act: success, or a refusal with its status from $80. A Result with an error enum were no plainer: one caller asks
// which it is (cio's open), and `Refused(0x91)` reads as document 01's "else $91".
#[derive(Clone, Copy)]
pub enum Done {
    Success,
    Refused(u8),
}
