// The diskette doctor. It walks every file's chain over an image that it does not change, notes each byte that is not right, and then makes
// the image what the list says.
#![tactic(auto)]

ghost use Rattle.std.specs.Prelude.{◌≡◌, ◌∷◌, [], ◌<◌};
ghost use Rattle.image.specs.Image.{flag_of};
ghost use Rattle.chains.specs.Chains.{files_in};
ghost use Rattle.chains.specs.Marks.{marked};
ghost use Rattle.changes.specs.Changes.{as_listed, listed_on};
ghost use Rattle.doctor.specs.Visits.{as_visited, visited_on, file_at, files_at};
ghost use Rattle.doctor.specs.Doctor.{changes_of, leaving, doctor_of};

use chains::MARKS;

// The bytes of an image, and of a list of changes.
pub const IMAGE: usize = image::IMAGE;

pub const LIST: usize = changes::LIST;

// A file's chain is walked, and what is not right of it noted.
fn treat(image: &[u8], marks: &mut [u8; MARKS], list: &mut [u8], number: u16, entry: u8) -> u16
    requires { number < 509 }
    ensures { as_visited result list.new marks.new ≡ visited_on image.now number list.old marks.old (file_at image.now (marked marks.old) entry ∷ []) }
{
    let first = image::first(image, 0, entry);
    let walk = chains::keep(image, marks, entry, first);
    repairs::note_file(image, list, number, entry, walk.last, walk.count)
}

// An entry with this flag: a file, if it is in use.
fn visit(
    image: &[u8],
    marks: &mut [u8; MARKS],
    list: &mut [u8],
    number: u16,
    entry: u8,
    flag: u8,
) -> u16
    requires { (number < 509) × (flag ≡ flag_of image.now 0 entry) }
    ensures { as_visited result list.new marks.new ≡ visited_on image.now number list.old marks.old (files_at image.now (marked marks.old) entry) }
{
    if image::in_use(flag) {
        return treat(image, marks, list, number, entry);
    }
    number
}

// Every file, in directory order.
fn note_files(image: &[u8], marks: &mut [u8; MARKS], list: &mut [u8]) -> u16
    ensures { as_visited result list.new marks.new ≡ visited_on image.now 0 list.old marks.old (files_in image.now 64 0 (marked marks.old)) }
{
    let mut number: u16 = 0;
    for entry in 0..64 {
        let flag = image::flag(image, 0, entry);
        if flag == 0 {
            return number;
        }
        number = visit(image, marks, list, number, entry, flag);
    }
    number
}

// All that is not right is listed; how many changes there are.
fn examine(image: &[u8], list: &mut [u8]) -> u16
    ensures { as_listed result list.new ≡ listed_on 0 list.old (changes_of image.now) }
{
    let mut marks = [0u8; MARKS];
    let files = note_files(image, &mut marks, list);
    repairs::note_sectors(image, &marks, list, files)
}

// The answer in the low byte, the number of changes above it. An image or a list of another length is left alone.
#[tactic(auto, unfolding(crate::specs::Doctor::doctor_of))]
pub fn repair(image: &mut [u8], list: &mut [u8]) -> u32
    ensures { leaving result image.new list.new ≡ doctor_of image.old list.old }
{
    if image.len() != IMAGE || list.len() != LIST {
        return 1;
    }
    let number = examine(image, list);
    changes::replay(image, list, number);
    256 * number as u32
}
