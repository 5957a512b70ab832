// The printer P: how much of the lent paper is used, and PUT, which appends a byte to it.
#![tactic(auto)]

ghost use Rattle.std.specs.Prelude.{◌≡◌};
ghost use Rattle.handler.specs.Answer.{answer};
ghost use Rattle.printer.specs.Printer.{fresh_printer, printer_group, put_of};

use handler::Done;

// The bytes of the lent paper.
pub const PAPER: u16 = 4096;

// How much of the paper is used stands beside it: the paper is lent, and there is no heap.
#[derive(Clone, Copy)]
pub struct Printer {
    pub used: u16,
}

impl Printer {
    // Nothing of the paper is used.
    pub fn fresh() -> Printer
        ensures { result ≡ fresh_printer }
    {
        Printer { used: 0 }
    }

    // The byte is appended; on a full paper $90, and nothing changes.
    pub fn put(&mut self, paper: &mut [u8], byte: u8) -> Done
        ensures { answer result (printer_group self.new.used paper.new) ≡ put_of byte (printer_group self.old.used paper.old) }
    {
        if PAPER <= self.used {
            return Done::Refused(0x90);
        }
        base::set_byte(paper, self.used as usize, byte);
        self.used += 1;
        Done::Success
    }
}
