// A list of changes of a diskette's image, five bytes each: sector (2), place, old, new. A change is noted in it if it is one, and the
// image becomes what the list says.
#![tactic(auto)]

ghost use Rattle.std.specs.Prelude.{◌≡◌, ◌∷◌, [], ◌<◌};
ghost use Rattle.changes.specs.Changes.{change_to, differing, as_listed, listed_on, replayed, replay_list};

// The bytes of a list: room for 512 changes.
pub const LIST: usize = 2560;

// A byte of the image that shall be this one is listed, behind so many others, if it is not; how many there are then. A struct that held
// the list and its number would ask of each function that notes one clause more, that it holds the same reference.
#[tactic(auto, unfolding(crate::specs::Changes::differing, crate::specs::Changes::list_bytes))]
pub fn note(image: &[u8], list: &mut [u8], number: u16, sector: u16, place: u8, new: u8) -> u16
    requires { number < 512 }
    ensures { as_listed result list.new ≡ listed_on number list.old (differing (change_to image.now sector place new ∷ [])) }
{
    let old = image::sector_byte(image, 0, sector, place);
    if old == new {
        return number;
    }
    let [low, high] = sector.to_le_bytes();
    base::lay(list, 5 * number as usize, &[low, high, place, old, new]);
    number + 1
}

// One change of the list is made.
fn make(image: &mut [u8], list: &[u8], from: u16)
    ensures { image.new ≡ replayed list.now from image.old }
{
    let at = 5 * from as usize;
    let sector = base::word_at(list, at, at + 1);
    let place = base::byte_at(list, at + 2);
    let new = base::byte_at(list, at + 4);
    image::set_sector_byte(image, 0, sector, place, new);
}

// So many changes of the list, in its order.
pub fn replay(image: &mut [u8], list: &[u8], number: u16)
    ensures { image.new ≡ replay_list list.now number image.old }
{
    for from in 0..number {
        make(image, list, from);
    }
}
