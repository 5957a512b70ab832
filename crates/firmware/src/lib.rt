// What the port firmware, written in C, calls: key translation, the five calls over a state that is lent as bytes, and the diskette doctor.
// For C a `&mut [u8]` is a pointer and a length. No call trusts its caller to have checked anything: a buffer of another length is answered 2,
// bytes that stand for no undamaged stick 3, a port above 1 with 1, and none of them changes a byte.
#![tactic(auto)]

ghost use Rattle.std.specs.Prelude.{◌≡◌};
ghost use Rattle.keys.specs.Translation.{translate_of};
ghost use Rattle.calls.specs.Bytes.{buffers, buffers_fit, bytes_refusal, fresh_bytes, take_bytes, tick_bytes, give_bytes, press_bytes};
ghost use Rattle.calls.specs.Returned.{returned, answer_of, both_of};
ghost use Rattle.doctor.specs.Doctor.{leaving, doctor_of};

use devices::Media;
use layout::places::{AREA, STATE};

// The cells of the lent screen, and the bytes of the lent paper, of the lent tape and of the lent images.
pub const SCREEN: usize = 61440;

pub const PAPER: usize = printer::PAPER as usize;

pub const TAPE: usize = cassette::TAPE;

pub const IMAGES: usize = image::IMAGES;

// The bytes of one image, and of the doctor's list of changes.
pub const IMAGE: usize = doctor::IMAGE;

pub const LIST: usize = doctor::LIST;

// uint16_t fixlomand_translate(uint8_t code, uint8_t lock, uint8_t inverse)
pub fn fixlomand_translate(code: u8, lock: u8, inverse: u8) -> u16
    ensures { result ≡ translate_of code lock inverse }
{
    keys::translate(code, lock, inverse)
}

// uint32_t fixlomand_doctor(image, list), each a pointer and a length
// The diskette doctor on one image: the answer in the low byte, the number of changes above it.
pub fn fixlomand_doctor(image: &mut [u8], list: &mut [u8]) -> u32
    ensures { leaving result image.new list.new ≡ doctor_of image.old list.old }
{
    doctor::repair(image, list)
}

#[tactic(auto, using(base::proofs::Tests::tests), unfolding(calls::specs::Bytes::six_fit))]
fn lengths_fit(
    state: &[u8],
    area: &[u8],
    screen: &[u8],
    paper: &[u8],
    tape: &[u8],
    images: &[u8],
) -> bool
    ensures { result ≡ buffers_fit (buffers state.now area.now screen.now paper.now tape.now images.now) }
{
    state.len() == STATE
        && area.len() == 2 * AREA
        && screen.len() == SCREEN
        && paper.len() == PAPER
        && tape.len() == TAPE
        && images.len() == IMAGES
}

// 2, 3 or 1, in this order, or 0.
fn guard(
    state: &[u8],
    area: &[u8],
    screen: &[u8],
    paper: &[u8],
    tape: &[u8],
    images: &[u8],
    port: u8,
) -> u8
    ensures { result ≡ bytes_refusal (buffers state.now area.now screen.now paper.now tape.now images.now) port }
{
    if !lengths_fit(state, area, screen, paper, tape, images) {
        return 2;
    }
    if !judge::undamaged(state, area, screen, paper, tape, images) {
        return 3;
    }
    if 2 <= port {
        return 1;
    }
    0
}

// uint8_t fixlomand_fresh(state, area, screen, paper, tape, images), each a pointer and a length; the same twelve in each call
// Everything as it is when the stick is plugged in, whatever the state held.
pub fn fixlomand_fresh(
    state: &mut [u8],
    area: &mut [u8],
    screen: &mut [u8],
    paper: &mut [u8],
    tape: &mut [u8],
    images: &mut [u8],
) -> u8
    ensures { returned result (buffers state.new area.new screen.new paper.new tape.new images.new) ≡ answer_of (fresh_bytes (buffers state.old area.old screen.old paper.old tape.old images.old)) }
{
    if lengths_fit(state, area, screen, paper, tape, images) {
        stick::started::fresh_all(state, area, screen, paper, tape, images);
        return 0;
    }
    2
}

// uint8_t fixlomand_take(.., uint8_t port, uint8_t byte)
// A byte offered by a port's host.
pub fn fixlomand_take(
    state: &mut [u8],
    area: &mut [u8],
    screen: &mut [u8],
    paper: &mut [u8],
    tape: &mut [u8],
    images: &mut [u8],
    port: u8,
    byte: u8,
) -> u8
    ensures { returned result (buffers state.new area.new screen.new paper.new tape.new images.new) ≡ answer_of (take_bytes (buffers state.old area.old screen.old paper.old tape.old images.old) port byte) }
{
    let refused = guard(state, area, screen, paper, tape, images, port);
    if refused == 0 {
        return stick::served::take_at(port, byte, state, area, screen, paper, tape, images);
    }
    refused
}

// uint8_t fixlomand_tick(.., uint8_t port)
// A ready request starts, or a running one moves one character.
pub fn fixlomand_tick(
    state: &mut [u8],
    area: &mut [u8],
    screen: &mut [u8],
    paper: &mut [u8],
    tape: &mut [u8],
    images: &mut [u8],
    port: u8,
) -> u8
    ensures { returned result (buffers state.new area.new screen.new paper.new tape.new images.new) ≡ answer_of (tick_bytes (buffers state.old area.old screen.old paper.old tape.old images.old) port) }
{
    let refused = guard(state, area, screen, paper, tape, images, port);
    if refused == 0 {
        let mut media = Media {
            screen,
            paper,
            tape,
            images,
        };
        return ticks::tick_at(port, state, area, &mut media);
    }
    refused
}

// uint16_t fixlomand_give(.., uint8_t port)
// The next byte of a port's reply: the answer in the low byte, the reply byte in the high.
pub fn fixlomand_give(
    state: &mut [u8],
    area: &mut [u8],
    screen: &mut [u8],
    paper: &mut [u8],
    tape: &mut [u8],
    images: &mut [u8],
    port: u8,
) -> u16
    ensures { returned result (buffers state.new area.new screen.new paper.new tape.new images.new) ≡ both_of (give_bytes (buffers state.old area.old screen.old paper.old tape.old images.old) port) }
{
    let refused = guard(state, area, screen, paper, tape, images, port);
    if refused == 0 {
        return stick::served::give_at(port, state, area, screen, paper, tape, images);
    }
    refused as u16
}

// uint8_t fixlomand_press(.., uint8_t code)
// A key of the console.
pub fn fixlomand_press(
    state: &mut [u8],
    area: &mut [u8],
    screen: &mut [u8],
    paper: &mut [u8],
    tape: &mut [u8],
    images: &mut [u8],
    code: u8,
) -> u8
    ensures { returned result (buffers state.new area.new screen.new paper.new tape.new images.new) ≡ answer_of (press_bytes (buffers state.old area.old screen.old paper.old tape.old images.old) code) }
{
    let refused = guard(state, area, screen, paper, tape, images, 0);
    if refused == 0 {
        return stick::served::press_at(code, state, area, screen, paper, tape, images);
    }
    refused
}
