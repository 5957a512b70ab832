// Each group's numbers in the devices' part of the lent state.
ghost use Rattle.std.specs.Prelude.{◌≡◌, drop};
ghost use Rattle.std.proofs.lemmas.List.Edits.{sets};
ghost use Rattle.layout.specs.Places.{console_place, printer_place, Numbers};
ghost use Rattle.layout.specs.Layout.{console_bytes, printer_bytes, console_in, printer_in};

use console::state::Console;
use layout::places::{CONSOLE, PRINTER};
use printer::Printer;

pub fn console_of(numbers: &[u8]) -> Console
    requires { Numbers numbers.now }
    ensures { result ≡ console_in (drop console_place numbers.now) }
{
    reading::console(&numbers[CONSOLE..])
}

pub fn set_console(numbers: &mut [u8], console: Console)
    requires { Numbers numbers.old }
    ensures { numbers.new ≡ sets numbers.old console_place (console_bytes console) }
{
    writing::console(&mut numbers[CONSOLE..], console);
}

pub fn printer_of(numbers: &[u8]) -> Printer
    requires { Numbers numbers.now }
    ensures { result ≡ printer_in (drop printer_place numbers.now) }
{
    reading::printer(&numbers[PRINTER..])
}

pub fn set_printer(numbers: &mut [u8], printer: Printer)
    requires { Numbers numbers.old }
    ensures { numbers.new ≡ sets numbers.old printer_place (printer_bytes printer) }
{
    writing::printer(&mut numbers[PRINTER..], printer);
}
