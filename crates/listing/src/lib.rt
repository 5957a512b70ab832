// A diskette's directory: the records that it is read as, and what a read at a directory block's place gives.
#![tactic(auto)]

ghost use Rattle.std.specs.Prelude.{◌≡◌, ◌<◌};
ghost use Rattle.handler.specs.Answer.{answer};
ghost use Rattle.image.specs.Place.{pattern_in};
ghost use Rattle.listing.specs.Directory.{free_of, digit_at, entry_byte_at, free_byte_at, record_byte, record_length};
ghost use Rattle.listing.specs.Listing.{listed_entry, listed_from, directory_read};

use handler::Got;
use names::Pattern;

// Sector 360's free count.
fn free(images: &[u8], unit: u8) -> u16
    ensures { result ≡ free_of images.now unit }
{
    base::word(
        image::sector_byte(images, unit, 360, 3),
        image::sector_byte(images, unit, 360, 4),
    )
}

// A digit of a count: its hundreds, tens or ones, by their place.
#[tactic(auto, unfolding(crate::specs::Directory::digit_at))]
fn digit(number: u16, place: u8) -> u8
    ensures { result ≡ digit_at number place }
{
    if place == 0 {
        return b'0' + (number / 100 % 10) as u8;
    }
    if place == 1 {
        return b'0' + (number / 10 % 10) as u8;
    }
    b'0' + (number % 10) as u8
}

// A character of an entry's record.
#[tactic(auto, unfolding(crate::specs::Directory::entry_byte_at))]
fn entry_character(images: &[u8], unit: u8, entry: u8, place: u8) -> u8
    ensures { result ≡ entry_byte_at images.now unit entry place }
{
    if place == 0 {
        if image::is_locked(image::flag(images, unit, entry)) {
            return b'*';
        }
        return b' ';
    }
    if place == 1 {
        return b' ';
    }
    if place < 13 {
        return image::entry_byte(images, unit, entry, place + 3);
    }
    if place == 13 {
        return b' ';
    }
    if place < 17 {
        return digit(image::count(images, unit, entry), place - 14);
    }
    0x9B
}

const FREE_SECTORS: [u8; 13] = *b" FREE SECTORS";

// A character of the free record.
#[tactic(auto, unfolding(crate::specs::Directory::free_byte_at))]
fn free_character(images: &[u8], unit: u8, place: u8) -> u8
    ensures { result ≡ free_byte_at images.now unit place }
{
    if place < 3 {
        return digit(free(images, unit), place);
    }
    if place < 16 {
        let at = (place - 3) as usize;
        let words = FREE_SECTORS;
        return words[at];
    }
    0x9B
}

// A character of an entry's record; 64 is the free record, a number as the entry that a block's place has.
pub fn record_character(images: &[u8], unit: u8, entry: u8, place: u8) -> u8
    ensures { result ≡ record_byte images.now unit entry place }
{
    if entry < 64 {
        return entry_character(images, unit, entry, place);
    }
    free_character(images, unit, place)
}

// How many characters the record has.
pub fn record_length(entry: u8) -> u8
    ensures { result ≡ record_length entry }
{
    if entry < 64 {
        return 18;
    }
    17
}

// A directory's pattern.
fn pattern(p: &[u8]) -> Pattern
    ensures { result ≡ pattern_in p.now }
{
    let mut pattern = [0; 11];
    for place in 0..11 {
        pattern[place] = base::byte_at(p, 4 + place);
    }
    pattern
}

// The entry whose record is read: before its first character the next match is looked for.
fn listed(p: &[u8], images: &[u8]) -> u8
    ensures { result ≡ listed_entry p.now images.now }
{
    let entry = base::byte_at(p, 2);
    if base::byte_at(p, 3) == 0 {
        return image::find(images, base::byte_at(p, 0), &pattern(p), entry).unwrap_or(64);
    }
    entry
}

// A character of an entry's record.
#[tactic(auto, unfolding(crate::specs::Listing::listed_from))]
fn list(p: &mut [u8], images: &[u8], entry: u8) -> Got
    requires { entry < 255 }
    ensures { answer result p.new ≡ listed_from p.old images.now entry }
{
    let place = base::byte_at(p, 3);
    let byte = record_character(images, base::byte_at(p, 0), entry, place);
    if (place as u16) + 1 < record_length(entry) as u16 {
        base::lay(p, 2, &[entry, place + 1]);
        return Got::Character(byte);
    }
    base::lay(p, 2, &[entry + 1, 0]);
    if entry < 64 {
        return Got::Character(byte);
    }
    Got::Last(byte)
}

// The next character of a directory.
#[tactic(auto, unfolding(crate::specs::Listing::directory_read))]
pub fn read(p: &mut [u8], images: &[u8]) -> Got
    ensures { answer result p.new ≡ directory_read p.old images.now }
{
    if base::byte_at(p, 2) < 65 {
        let entry = listed(p, images);
        return list(p, images, entry);
    }
    Got::Refused(0x88)
}
