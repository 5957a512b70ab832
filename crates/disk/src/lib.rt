// The diskettes D1 to D4: OPEN, OPEN DIRECTORY, GET and GET STATUS at a block's own place, over the lent images, which no act changes.
#![tactic(auto)]

ghost use Rattle.std.specs.Prelude.{◌≡◌};
ghost use Rattle.std.proofs.lemmas.List.Edits.{sets};
ghost use Rattle.handler.specs.Answer.{answer};
ghost use Rattle.disk.specs.Disk.{directory_place, file_opened, place_opened, place_read, flag_status, place_status};
ghost use Rattle.disk.specs.Fit.{file_fits, directory_fits, place_fits};

use handler::{Asked, Done, Got};
use names::Pattern;

// The bytes of a block's place, and the places of all blocks of both ports.
pub const PLACE: usize = 15;

pub const PLACES: usize = 16 * PLACE;

// The first match opens.
#[tactic(auto, unfolding(crate::specs::Disk::file_opened))]
fn open_file(place: &mut [u8], images: &[u8], unit: u8, pattern: &Pattern) -> Done
    ensures { answer result place.new ≡ file_opened unit pattern.now place.old images.now }
{
    let Some(entry) = image::find(images, unit, pattern, 0) else {
        return Done::Refused(0xAA);
    };
    let [low, high] = image::first(images, unit, entry).to_le_bytes();
    base::lay(
        place,
        0,
        &[unit, 0, entry, 0, low, high, 0, 0, 0, 0, 0, 0, 0, 0, 0],
    );
    Done::Success
}

// The directory, with the name's pattern.
fn open_directory(place: &mut [u8], unit: u8, pattern: &Pattern)
    ensures { place.new ≡ sets place.old 0 (directory_place unit pattern.now) }
{
    base::lay(place, 0, &[unit, 1, 0, 0]);
    base::lay(place, 4, pattern);
}

// OPEN, with an AUX1 that D offers: a file, or the directory where it is exactly $06.
#[tactic(auto, unfolding(crate::specs::Disk::place_opened))]
pub fn open(place: &mut [u8], images: &[u8], asked: Asked) -> Done
    ensures { answer result place.new ≡ place_opened asked place.old images.now }
{
    let Some(pattern) = asked.name else {
        return Done::Refused(0xA5);
    };
    let unit = asked.number.saturating_sub(1);
    if asked.aux1 == 6 {
        open_directory(place, unit, &pattern);
        return Done::Success;
    }
    open_file(place, images, unit, &pattern)
}

// A character is read.
#[tactic(auto, unfolding(crate::specs::Disk::place_read))]
pub fn read(p: &mut [u8], images: &[u8]) -> Got
    ensures { answer result p.new ≡ place_read p.old images.now }
{
    if base::byte_at(p, 1) == 1 {
        return listing::read(p, images);
    }
    files::read(p, images)
}

// What an entry's flag says to GET STATUS.
fn flag_status(flag: u8) -> Done
    ensures { result ≡ flag_status flag }
{
    if image::in_use(flag) {
        if image::is_locked(flag) {
            return Done::Refused(0xA7);
        }
        return Done::Success;
    }
    Done::Refused(0xAA)
}

// GET STATUS.
#[tactic(auto, unfolding(crate::specs::Disk::place_status))]
pub fn status(p: &[u8], images: &[u8]) -> Done
    ensures { result ≡ place_status p.now images.now }
{
    if base::byte_at(p, 1) == 1 {
        return Done::Success;
    }
    let flag = image::flag(images, base::byte_at(p, 0), base::byte_at(p, 2));
    flag_status(flag)
}

// A file's numbers are in their ranges.
fn file_fits(p: &[u8]) -> bool
    ensures { result ≡ file_fits p.now }
{
    base::byte_at(p, 2) <= 63 && base::byte_at(p, 3) <= 125 && base::word_at(p, 6, 7) <= 718
}

// A directory's are.
fn directory_fits(p: &[u8]) -> bool
    ensures { result ≡ directory_fits p.now }
{
    let entry = base::byte_at(p, 2);
    let place = base::byte_at(p, 3);
    if entry < 64 {
        return place <= 17;
    }
    if entry == 64 {
        return place <= 16;
    }
    entry == 65 && place == 0
}

// The place fits a block that has D open with this number and this AUX1.
#[tactic(auto, unfolding(crate::specs::Fit::place_fits))]
pub fn fits(p: &[u8], number: u8, aux1: u8) -> bool
    ensures { result ≡ place_fits number aux1 p.now }
{
    if base::byte_at(p, 0) != number.saturating_sub(1) {
        return false;
    }
    let kind = base::byte_at(p, 1);
    if aux1 == 6 {
        return kind == 1 && directory_fits(p);
    }
    kind == 0 && file_fits(p)
}
