// A file of a diskette: what a read at a file block's place gives.
#![tactic(auto)]

ghost use Rattle.std.specs.Prelude.{◌≡◌, ◌+◌, ◌<◌};
ghost use Rattle.handler.specs.Answer.{answer};
ghost use Rattle.image.specs.Image.{sector_byte, stand_of};
ghost use Rattle.image.specs.Place.{unit_of, entry_of, place_of, sector_in, passed_in};
ghost use Rattle.files.specs.Files.{moved_to, before_stand, file_read};

use handler::Got;
use image::Stand;

// A file's place, moved on.
fn move_to(p: &mut [u8], sector: u16, place: u8, passed: u16)
    ensures { p.new ≡ moved_to p.old sector place passed }
{
    base::set_byte(p, 3, place);
    base::set_word(p, 4, sector);
    base::set_word(p, 6, passed);
}

// A character, by where the next one stands: the last one before the file's end.
fn before(byte: u8, next: Stand) -> Got
    ensures { result ≡ before_stand byte next }
{
    match next {
        Stand::End => Got::Last(byte),
        Stand::Bad | Stand::At(_, _, _) => Got::Character(byte),
    }
}

// Where the next character of a file stands.
fn stand(p: &[u8], images: &[u8]) -> Stand
    ensures { result ≡ stand_of images.now (unit_of p.now) (entry_of p.now) (sector_in p.now) (place_of p.now) (passed_in p.now) }
{
    let unit = base::byte_at(p, 0);
    let file = base::byte_at(p, 2);
    let place = base::byte_at(p, 3);
    image::stand_of(
        images,
        unit,
        file,
        base::word_at(p, 4, 5),
        place,
        base::word_at(p, 6, 7),
    )
}

// The character at a stand.
fn character(p: &[u8], images: &[u8], sector: u16, place: u8, passed: u16) -> Got
    requires { place < 255 }
    ensures { result ≡ before_stand (sector_byte images.now (unit_of p.now) sector place) (stand_of images.now (unit_of p.now) (entry_of p.now) sector (place + 1) passed) }
{
    let unit = base::byte_at(p, 0);
    let file = base::byte_at(p, 2);
    let byte = image::sector_byte(images, unit, sector, place);
    before(
        byte,
        image::stand_of(images, unit, file, sector, place + 1, passed),
    )
}

// The next character of a file.
#[tactic(auto, unfolding(crate::specs::Files::file_read))]
pub fn read(p: &mut [u8], images: &[u8]) -> Got
    ensures { answer result p.new ≡ file_read p.old images.now }
{
    let found = stand(p, images);
    match found {
        Stand::End => Got::Refused(0x88),
        Stand::Bad => Got::Refused(0xA4),
        Stand::At(sector, place, passed) => {
            let got = character(p, images, sector, place, passed);
            move_to(p, sector, place + 1, passed);
            got
        }
    }
}
