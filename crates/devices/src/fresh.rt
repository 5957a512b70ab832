// The devices as a fresh start leaves them.
ghost use Rattle.std.specs.Prelude.{◌≡◌};
ghost use Rattle.devices.specs.Lent.{Freshens, devices_lent, fresh_groups, lent_of};

use crate::numbers;

// Every number of a fresh printer and of a fresh cassette is 0, no character is pending, and every place of the diskettes is 0.
pub fn fresh(numbers: &mut [u8], screen: &mut [u8], paper: &[u8], tape: &[u8], images: &[u8])
    requires { Freshens numbers.old screen.old }
    ensures { devices_lent numbers.new screen.new paper.now tape.now images.now ≡ lent_of (fresh_groups paper.now tape.now images.now) }
{
    cells::part::paint(numbers, 0);
    let console = acts::fresh(screen);
    numbers::set_console(numbers, console);
}
