// The static library that C links: each of the functions that the port firmware calls, exported under its name, with the promise of
// the library's function that it calls.
#![tactic(auto)]

ghost use Rattle.std.specs.Prelude.{◌≡◌};
ghost use Rattle.keys.specs.Translation.{translate_of};
ghost use Rattle.calls.specs.Bytes.{buffers, fresh_bytes, take_bytes, tick_bytes, give_bytes, press_bytes};
ghost use Rattle.calls.specs.Returned.{returned, answer_of, both_of};
ghost use Rattle.doctor.specs.Doctor.{leaving, doctor_of};

// uint16_t fixlomand_translate(uint8_t code, uint8_t lock, uint8_t inverse)
#[unsafe(no_mangle)]
pub extern "C" fn fixlomand_translate(code: u8, lock: u8, inverse: u8) -> u16
    ensures { result ≡ translate_of code lock inverse }
{
    firmware::fixlomand_translate(code, lock, inverse)
}

// uint32_t fixlomand_doctor(image, list), each a pointer and a length
// The diskette doctor on one image: the answer in the low byte, the number of changes above it.
#[unsafe(no_mangle)]
pub extern "C" fn fixlomand_doctor(image: &mut [u8], list: &mut [u8]) -> u32
    ensures { leaving result image.new list.new ≡ doctor_of image.old list.old }
{
    firmware::fixlomand_doctor(image, list)
}

// uint8_t fixlomand_fresh(state, area, screen, paper, tape, images), each a pointer and a length; the same twelve in each call
// Everything as it is when the stick is plugged in, whatever the state held.
#[unsafe(no_mangle)]
pub extern "C" fn fixlomand_fresh(
    state: &mut [u8],
    area: &mut [u8],
    screen: &mut [u8],
    paper: &mut [u8],
    tape: &mut [u8],
    images: &mut [u8],
) -> u8
    ensures { returned result (buffers state.new area.new screen.new paper.new tape.new images.new) ≡ answer_of (fresh_bytes (buffers state.old area.old screen.old paper.old tape.old images.old)) }
{
    firmware::fixlomand_fresh(state, area, screen, paper, tape, images)
}

// uint8_t fixlomand_take(.., uint8_t port, uint8_t byte)
// A byte offered by a port's host.
#[unsafe(no_mangle)]
pub extern "C" fn fixlomand_take(
    state: &mut [u8],
    area: &mut [u8],
    screen: &mut [u8],
    paper: &mut [u8],
    tape: &mut [u8],
    images: &mut [u8],
    port: u8,
    byte: u8,
) -> u8
    ensures { returned result (buffers state.new area.new screen.new paper.new tape.new images.new) ≡ answer_of (take_bytes (buffers state.old area.old screen.old paper.old tape.old images.old) port byte) }
{
    firmware::fixlomand_take(state, area, screen, paper, tape, images, port, byte)
}

// uint8_t fixlomand_tick(.., uint8_t port)
// A ready request starts, or a running one moves one character.
#[unsafe(no_mangle)]
pub extern "C" fn fixlomand_tick(
    state: &mut [u8],
    area: &mut [u8],
    screen: &mut [u8],
    paper: &mut [u8],
    tape: &mut [u8],
    images: &mut [u8],
    port: u8,
) -> u8
    ensures { returned result (buffers state.new area.new screen.new paper.new tape.new images.new) ≡ answer_of (tick_bytes (buffers state.old area.old screen.old paper.old tape.old images.old) port) }
{
    firmware::fixlomand_tick(state, area, screen, paper, tape, images, port)
}

// uint16_t fixlomand_give(.., uint8_t port)
// The next byte of a port's reply: the answer in the low byte, the reply byte in the high.
#[unsafe(no_mangle)]
pub extern "C" fn fixlomand_give(
    state: &mut [u8],
    area: &mut [u8],
    screen: &mut [u8],
    paper: &mut [u8],
    tape: &mut [u8],
    images: &mut [u8],
    port: u8,
) -> u16
    ensures { returned result (buffers state.new area.new screen.new paper.new tape.new images.new) ≡ both_of (give_bytes (buffers state.old area.old screen.old paper.old tape.old images.old) port) }
{
    firmware::fixlomand_give(state, area, screen, paper, tape, images, port)
}

// uint8_t fixlomand_press(.., uint8_t code)
// A key of the console.
#[unsafe(no_mangle)]
pub extern "C" fn fixlomand_press(
    state: &mut [u8],
    area: &mut [u8],
    screen: &mut [u8],
    paper: &mut [u8],
    tape: &mut [u8],
    images: &mut [u8],
    code: u8,
) -> u8
    ensures { returned result (buffers state.new area.new screen.new paper.new tape.new images.new) ≡ answer_of (press_bytes (buffers state.old area.old screen.old paper.old tape.old images.old) code) }
{
    firmware::fixlomand_press(state, area, screen, paper, tape, images, code)
}
