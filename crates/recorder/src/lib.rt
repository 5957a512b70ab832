// The cassette over what is lent of it: its three numbers and its pending characters, which are a part of the devices' numbers, and the
// tape. The pending characters are lent on to it and never copied.
#![tactic(auto)]

ghost use Rattle.std.specs.Prelude.{◌≡◌, eqb, leb, drop};
ghost use Rattle.std.proofs.lemmas.List.Edits.{sets};
ghost use Rattle.base.specs.Choice.{and, or};
ghost use Rattle.handler.specs.Answer.{answer, seen};
ghost use Rattle.cassette.specs.Cassette.{open_of, close_of, read_of, write_of};
ghost use Rattle.cassette.specs.Fit.{fits_cassette};
ghost use Rattle.layout.specs.Places.{cassette_place, Numbers};
ghost use Rattle.layout.specs.Layout.{cassette_bytes, cassette_in};
ghost use Rattle.recorder.specs.Recorder.{Wound, tape_lent, get_tape, put_tape};

use cassette::Cassette;
use handler::{Done, Got};
use layout::places::{CASSETTE, DISK, PENDING};

fn cassette_of(numbers: &[u8]) -> Cassette
    requires { Numbers numbers.now }
    ensures { result ≡ cassette_in (drop cassette_place numbers.now) }
{
    reading::cassette(&numbers[CASSETTE..])
}

fn set_cassette(numbers: &mut [u8], cassette: Cassette)
    requires { Numbers numbers.old }
    ensures { numbers.new ≡ sets numbers.old cassette_place (cassette_bytes cassette) }
{
    writing::cassette(&mut numbers[CASSETTE..], cassette);
}

// OPEN, with an AUX1 that C offers.
pub fn open(numbers: &mut [u8], tape: &[u8], aux1: u8) -> Done
    requires { Wound numbers.old tape.now }
    ensures { answer result (tape_lent numbers.new tape.now) ≡ seen (put_tape numbers.old) (open_of aux1 (get_tape numbers.old tape.now)) }
{
    let mut cassette = cassette_of(numbers);
    let done = cassette.open(aux1);
    set_cassette(numbers, cassette);
    done
}

// CLOSE.
pub fn close(numbers: &mut [u8], tape: &mut [u8])
    requires { Wound numbers.old tape.old }
    ensures { tape_lent numbers.new tape.new ≡ put_tape numbers.old (close_of (get_tape numbers.old tape.old)) }
{
    let mut cassette = cassette_of(numbers);
    cassette.close(&numbers[PENDING..DISK], tape);
    set_cassette(numbers, cassette);
}

// A character is read.
pub fn read(numbers: &mut [u8], tape: &[u8]) -> Got
    requires { Wound numbers.old tape.now }
    ensures { answer result (tape_lent numbers.new tape.now) ≡ seen (put_tape numbers.old) (read_of (get_tape numbers.old tape.now)) }
{
    let mut cassette = cassette_of(numbers);
    let got = cassette.read(tape);
    set_cassette(numbers, cassette);
    got
}

// A character is written.
pub fn write(numbers: &mut [u8], tape: &mut [u8], byte: u8) -> Done
    requires { Wound numbers.old tape.old }
    ensures { answer result (tape_lent numbers.new tape.new) ≡ seen (put_tape numbers.old) (write_of byte (get_tape numbers.old tape.old)) }
{
    let mut cassette = cassette_of(numbers);
    let done = cassette.write(&mut numbers[PENDING..DISK], tape, byte);
    set_cassette(numbers, cassette);
    done
}

// The tape's record and place, as it is written.
fn written(number: u8, place: u8) -> bool
    ensures { result ≡ or (and (leb number 248) (leb place 127)) (and (eqb number 249) (eqb place 0)) }
{
    if number <= 248 {
        return place <= 127;
    }
    if number == 249 {
        return place == 0;
    }
    false
}

// Its numbers are in their ranges.
pub fn fits(cassette: Cassette) -> bool
    ensures { result ≡ fits_cassette cassette }
{
    if cassette.mark == 1 {
        if cassette.record <= 250 {
            return cassette.place <= 127;
        }
        return false;
    }
    if cassette.mark == 2 {
        return written(cassette.record, cassette.place);
    }
    if cassette.mark <= 3 {
        if cassette.record == 0 {
            return cassette.place == 0;
        }
        return false;
    }
    false
}
