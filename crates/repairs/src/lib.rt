// Each byte of an image that shall be right is noted where it is not: of a file's last sector and of its entry, of the free count and of
// the map. The image stays.
#![tactic(auto)]

ghost use Rattle.std.specs.Prelude.{◌≡◌, ◌∷◌, [], ◌<◌, ◌≤◌};
ghost use Rattle.chains.specs.Marks.{marked};
ghost use Rattle.changes.specs.Changes.{differing, as_listed, listed_on};
ghost use Rattle.repairs.specs.Repairs.{entry_change, cut_changes, count_changes, empty_changes, file_changes, free_changes, map_bit, map_byte, map_in, sectors_changes};

// A byte of an entry.
fn note_entry(image: &[u8], list: &mut [u8], number: u16, entry: u8, place: u8, new: u8) -> u16
    requires { (number < 512) × (place < 16) }
    ensures { as_listed result list.new ≡ listed_on number list.old (differing (entry_change image.now entry place new ∷ [])) }
{
    let sector = 361 + (entry / 8) as u16;
    changes::note(image, list, number, sector, 16 * (entry % 8) + place, new)
}

// An entry's sector count.
fn note_count(image: &[u8], list: &mut [u8], number: u16, entry: u8, count: u16) -> u16
    requires { number < 511 }
    ensures { as_listed result list.new ≡ listed_on number list.old (differing (count_changes image.now entry count)) }
{
    let [low, high] = count.to_le_bytes();
    let between = note_entry(image, list, number, entry, 1, low);
    note_entry(image, list, between, entry, 2, high)
}

// The link of the last sector that is kept.
fn note_cut(image: &[u8], list: &mut [u8], number: u16, last: u16) -> u16
    requires { number < 511 }
    ensures { as_listed result list.new ≡ listed_on number list.old (differing (cut_changes image.now last)) }
{
    let link = image::sector_byte(image, 0, last, 125);
    let between = changes::note(image, list, number, last, 125, 4 * (link / 4));
    changes::note(image, list, between, last, 126, 0)
}

// A file that keeps no sector: it is empty, or it is deleted.
fn note_empty(image: &[u8], list: &mut [u8], number: u16, entry: u8) -> u16
    requires { number < 511 }
    ensures { as_listed result list.new ≡ listed_on number list.old (differing (empty_changes image.now entry)) }
{
    let first = image::first(image, 0, entry);
    if first == 0 {
        return note_count(image, list, number, entry, 0);
    }
    note_entry(image, list, number, entry, 0, 0x80)
}

// A file by its last sector and how many it keeps.
pub fn note_file(
    image: &[u8],
    list: &mut [u8],
    number: u16,
    entry: u8,
    last: u16,
    count: u16,
) -> u16
    requires { number < 509 }
    ensures { as_listed result list.new ≡ listed_on number list.old (differing (file_changes image.now entry last count)) }
{
    if count == 0 {
        return note_empty(image, list, number, entry);
    }
    let between = note_cut(image, list, number, last);
    note_count(image, list, between, entry, count)
}

// The free count.
fn note_free(image: &[u8], list: &mut [u8], number: u16, free: u16) -> u16
    requires { number < 511 }
    ensures { as_listed result list.new ≡ listed_on number list.old (differing (free_changes image.now free)) }
{
    let [low, high] = free.to_le_bytes();
    let between = changes::note(image, list, number, 360, 3, low);
    changes::note(image, list, between, 360, 4, high)
}

// A sector's bit of the map; that of sector 0 stays.
fn map_bit(image: &[u8], marks: &[u8], sector: u16) -> u8
    ensures { (result ≡ map_bit image.now (marked marks.now) sector) × (result ≤ 1) }
{
    if sector == 0 {
        let byte = image::sector_byte(image, 0, 360, 10);
        return byte / 128 % 2;
    }
    chains::free(marks, sector)
}

// A byte of the map, by its first sector.
fn map_byte(image: &[u8], marks: &[u8], sector: u16) -> u8
    requires { sector < 2040 }
    ensures { result ≡ map_byte image.now (marked marks.now) sector }
{
    let mut byte: u8 = 0;
    for bit in 0..8 {
        byte = 2 * byte + map_bit(image, marks, sector + bit);
    }
    byte
}

// The map's 90 bytes.
fn note_map(image: &[u8], marks: &[u8], list: &mut [u8], number: u16) -> u16
    requires { number < 422 }
    ensures { as_listed result list.new ≡ listed_on number list.old (differing (map_in image.now (marked marks.now) 90 0)) }
{
    let mut there = number;
    for byte in 0..90 {
        let new = map_byte(image, marks, 8 * byte as u16);
        there = changes::note(image, list, there, 360, 10 + byte, new);
    }
    there
}

// The free count and the map, from the marks.
pub fn note_sectors(image: &[u8], marks: &[u8], list: &mut [u8], number: u16) -> u16
    requires { number < 420 }
    ensures { as_listed result list.new ≡ listed_on number list.old (differing (sectors_changes image.now (marked marks.now))) }
{
    let free = chains::count_free(marks);
    let between = note_free(image, list, number, free);
    note_map(image, marks, list, between)
}
