// The sectors of a diskette that a file keeps: its chain is walked as far as nothing stops it. What is claimed is remembered in marks, a
// byte for each of the sectors 0 to 719.
#![tactic(auto)]

ghost use Rattle.std.specs.Prelude.{◌≡◌, length, set};
ghost use Rattle.base.specs.Choice.{pick};
ghost use Rattle.chains.specs.Chains.{is_reserved, all_free, is_free};
ghost use Rattle.chains.specs.Marks.{marked, step_of, as_walked, walk_of};

use image::Holding;

// The marks of an image.
pub const MARKS: usize = 720;

// A walk: the last sector that is kept, 0 where none is, and how many are.
#[derive(Clone, Copy)]
pub struct Walk {
    pub last: u16,
    pub count: u16,
}

// Boot sectors, and the sectors of the map and of the directory.
fn reserved(sector: u16) -> bool
    ensures { result ≡ is_reserved sector }
{
    matches!(sector, 1..=3 | 360..=368)
}

// What a sector holds for a file that may keep it: nothing where the walk stops.
#[tactic(auto, unfolding(crate::specs::Marks::step_of, image::specs::Image::sector_of))]
fn step(image: &[u8], marks: &[u8], file: u8, sector: u16) -> Option<Holding>
    ensures { result ≡ step_of image.now marks.now file sector }
{
    if reserved(sector) || base::byte_at(marks, sector as usize) == 1 {
        return None;
    }
    image::sector_of(image, 0, file, sector)
}

fn mark(marks: &mut [u8], sector: u16)
    ensures { marks.new ≡ set marks.old sector 1 }
{
    base::set_byte(marks, sector as usize, 1);
}

// The sectors that a file keeps from its first on are marked.
pub fn keep(image: &[u8], marks: &mut [u8; MARKS], file: u8, first: u16) -> Walk
    ensures { as_walked result marks.new ≡ walk_of image.now marks.old file first }
{
    let mut at = first;
    let mut last: u16 = 0;
    for count in 0..719 {
        if at == 0 {
            return Walk { last, count };
        }
        match step(image, marks, file, at) {
            None => return Walk { last, count },
            Some(held) => {
                mark(marks, at);
                last = at;
                at = held.next;
            }
        }
    }
    Walk { last, count: 719 }
}

// 1 for a sector that is neither reserved nor claimed: a bit of the map, and a number that is summed.
pub fn free(marks: &[u8], sector: u16) -> u8
    ensures { result ≡ pick (is_free (marked marks.now) sector) 1 0 }
{
    if reserved(sector) || base::byte_at(marks, sector as usize) == 1 {
        return 0;
    }
    1
}

// How many of the sectors 1 to 719 are free, counted one by one.
pub fn count_free(marks: &[u8]) -> u16
    ensures { result ≡ length (all_free (marked marks.now)) }
{
    let mut count: u16 = 0;
    for sector in 1..720 {
        count += free(marks, sector) as u16;
    }
    count
}
