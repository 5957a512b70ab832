// The lent images of four diskettes: their sectors and entries, the first entry that a name matches, and where a file's next character
// stands. A unit is a drive counted from 0: D1 is 0.
#![tactic(auto)]

ghost use Rattle.std.specs.Prelude.{◌≡◌, ◌+◌, set};
ghost use Rattle.image.specs.Image.{sector_place, sector_byte, entry_byte, flag_of, in_use, locked, count_of, first_of, matches_entry, match_from, found_entry, sector_of, stand_of};

use names::Pattern;

// The bytes of an image, and of the four.
pub const IMAGE: usize = 92160;

pub const IMAGES: usize = 368640;

// Where sector 361 lies in an image.
const DIRECTORY: usize = 46080;

// Where a file's next character stands: at its end, before a bad sector, or at a place of a sector, so many sectors passed.
#[derive(Clone, Copy)]
pub enum Stand {
    End,
    Bad,
    At(u16, u8, u16),
}

// What a good sector of a file holds: so many characters, and its link.
#[derive(Clone, Copy)]
pub struct Holding {
    pub count: u8,
    pub next: u16,
}

// A byte of a sector.
pub fn sector_byte(images: &[u8], unit: u8, sector: u16, place: u8) -> u8
    ensures { result ≡ sector_byte images.now unit sector place }
{
    let before = sector.saturating_sub(1);
    base::byte_at(
        images,
        IMAGE * unit as usize + 128 * before as usize + place as usize,
    )
}

// A byte of a sector is another then.
pub fn set_sector_byte(images: &mut [u8], unit: u8, sector: u16, place: u8, byte: u8)
    ensures { images.new ≡ set images.old (sector_place unit sector + place) byte }
{
    let before = sector.saturating_sub(1);
    base::set_byte(
        images,
        IMAGE * unit as usize + 128 * before as usize + place as usize,
        byte,
    );
}

// A byte of an entry.
pub fn entry_byte(images: &[u8], unit: u8, entry: u8, place: u8) -> u8
    ensures { result ≡ entry_byte images.now unit entry place }
{
    base::byte_at(
        images,
        IMAGE * unit as usize + DIRECTORY + 16 * entry as usize + place as usize,
    )
}

// An entry's flag.
pub fn flag(images: &[u8], unit: u8, entry: u8) -> u8
    ensures { result ≡ flag_of images.now unit entry }
{
    entry_byte(images, unit, entry, 0)
}

pub fn in_use(flag: u8) -> bool
    ensures { result ≡ in_use flag }
{
    flag / 64 % 2 == 1 && flag / 128 % 2 != 1
}

pub fn is_locked(flag: u8) -> bool
    ensures { result ≡ locked flag }
{
    flag / 32 % 2 == 1
}

// An entry's first sector.
pub fn first(images: &[u8], unit: u8, entry: u8) -> u16
    ensures { result ≡ first_of images.now unit entry }
{
    base::word(
        entry_byte(images, unit, entry, 3),
        entry_byte(images, unit, entry, 4),
    )
}

// An entry's sector count.
pub fn count(images: &[u8], unit: u8, entry: u8) -> u16
    ensures { result ≡ count_of images.now unit entry }
{
    base::word(
        entry_byte(images, unit, entry, 1),
        entry_byte(images, unit, entry, 2),
    )
}

// An entry in use whose name matches.
#[tactic(auto, unfolding(crate::specs::Image::matches_entry))]
fn matches_entry(images: &[u8], unit: u8, pattern: &Pattern, entry: u8, flag: u8) -> bool
    requires { flag ≡ flag_of images.now unit entry }
    ensures { result ≡ matches_entry images.now unit pattern.now entry }
{
    let place = 92160 * unit as u32 + 46080 + 16 * entry as u32 + 5;
    in_use(flag) && names::matches(pattern, images, place)
}

// The first match from an entry on, before the directory's end.
pub fn find(images: &[u8], unit: u8, pattern: &Pattern, from: u8) -> Option<u8>
    ensures { result ≡ found_entry (match_from images.now unit pattern.now from) }
{
    for entry in from..64 {
        let flag = flag(images, unit, entry);
        if flag == 0 {
            return None;
        }
        if matches_entry(images, unit, pattern, entry, flag) {
            return Some(entry);
        }
    }
    None
}

// What a sector holds for a file of this number, if it is a good one.
#[tactic(auto, unfolding(crate::specs::Image::sector_of))]
pub fn sector_of(images: &[u8], unit: u8, file: u8, sector: u16) -> Option<Holding>
    ensures { result ≡ sector_of images.now unit file sector }
{
    if 719 < sector {
        return None;
    }
    let link = sector_byte(images, unit, sector, 125);
    let count = sector_byte(images, unit, sector, 127);
    if link / 4 != file || 125 < count {
        return None;
    }
    let low = sector_byte(images, unit, sector, 126);
    Some(Holding {
        count: count,
        next: base::word(low, link % 4),
    })
}

// Where the next character of a file stands: links are followed over empty sectors too, and a chain has at most 719.
pub fn stand_of(images: &[u8], unit: u8, file: u8, sector: u16, place: u8, passed: u16) -> Stand
    ensures { result ≡ stand_of images.now unit file sector place passed }
{
    let mut at = sector;
    let mut character = place;
    for behind in passed..719 {
        if at == 0 {
            return Stand::End;
        }
        let Some(held) = sector_of(images, unit, file, at) else {
            return Stand::Bad;
        };
        if character < held.count {
            return Stand::At(at, character, behind);
        }
        at = held.next;
        character = 0;
    }
    if at == 0 {
        return Stand::End;
    }
    Stand::Bad
}
