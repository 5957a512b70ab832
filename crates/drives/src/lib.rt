// The diskettes over what is lent of them: the places of the blocks that have D open, which are a part of the devices' numbers, and the
// images, which no act changes. A block's own place is lent on and never copied.
#![tactic(auto)]

ghost use Rattle.std.specs.Prelude.{◌≡◌, ◌+◌};
ghost use Rattle.handler.specs.Answer.{answer, seen};
ghost use Rattle.disk.specs.Disk.{disk_acts};
ghost use Rattle.layout.specs.Places.{Numbers};
ghost use Rattle.drives.specs.Drives.{disk_lent, get_disk, put_disk, block_place_in};

use handler::{Asked, Done, Got};
use layout::places::DISK;

// Where a block's place begins.
fn place_of(port: u8, iocb: u8) -> usize
    ensures { result ≡ block_place_in port iocb }
{
    let number = (8 * port as usize + iocb as usize) % 16;
    DISK + disk::PLACE * number
}

// OPEN, with an AUX1 that D offers.
pub fn open(numbers: &mut [u8], images: &[u8], asked: Asked) -> Done
    requires { Numbers numbers.old }
    ensures { answer result (disk_lent numbers.new images.now) ≡ seen (put_disk numbers.old) ((disk_acts asked).opens (get_disk numbers.old images.now)) }
{
    let at = place_of(asked.port, asked.iocb);
    let end = at + disk::PLACE;
    disk::open(&mut numbers[at..end], images, asked)
}

// A character is read.
pub fn read(numbers: &mut [u8], images: &[u8], asked: Asked) -> Got
    requires { Numbers numbers.old }
    ensures { answer result (disk_lent numbers.new images.now) ≡ seen (put_disk numbers.old) ((disk_acts asked).reads (get_disk numbers.old images.now)) }
{
    let at = place_of(asked.port, asked.iocb);
    let end = at + disk::PLACE;
    disk::read(&mut numbers[at..end], images)
}

// GET STATUS.
pub fn status(numbers: &[u8], images: &[u8], asked: Asked) -> Done
    requires { Numbers numbers.now }
    ensures { result ≡ (disk_acts asked).statuses (get_disk numbers.now images.now) }
{
    let at = place_of(asked.port, asked.iocb);
    let end = at + disk::PLACE;
    disk::status(&numbers[at..end], images)
}
