// The cassette C: how the lent tape is open, the record and the place that hold or take the next character; OPEN, CLOSE, GET and PUT.
#![tactic(auto)]

ghost use Rattle.std.specs.Prelude.{◌≡◌, ◌<◌};
ghost use Rattle.handler.specs.Answer.{answer};
ghost use Rattle.records.specs.Records.{WholeTape, Reel};
ghost use Rattle.records.specs.declared.Judged.TheVariants.{Characters};
ghost use Rattle.cassette.specs.Cassette.{cassette_group, fresh_cassette, mark_of, tape_opened, close_of, spent, stand_of, behind, comes_with, given_with, given_at, gotten_of, write_of, Found, RecordHolds};

use handler::{Done, Got};
use records::Judged;

// The bytes of the lent tape.
pub const TAPE: usize = 33000;

// How the tape is open: 0 closed, 1 reading, 2 writing, 3 with neither bit. The record that holds or takes the next character, and
// the place in it or the number of pending characters.
// The mark is a byte of the lent state, which a host may damage: `fits_cassette` speaks of marks past 3, so it is no enum.
#[derive(Clone, Copy)]
pub struct Cassette {
    pub mark: u8,
    pub record: u8,
    pub place: u8,
}

// Where the next character stands, and what its record is.
#[derive(Clone, Copy)]
pub struct Stand {
    pub record: u8,
    pub place: u8,
    pub judged: Judged,
}

// Behind a character of a record of n: the next one, or the next record.
fn next(number: u8, place: u8, n: u8) -> Cassette
    requires { number < 250 }
    ensures { result ≡ behind number place n }
{
    let further = place as u16 + 1;
    if further < n as u16 {
        return Cassette {
            mark: 1,
            record: number,
            place: further as u8,
        };
    }
    Cassette {
        mark: 1,
        record: number + 1,
        place: 0,
    }
}

// The place is at or behind the record's last character.
fn is_spent(place: u8, judged: Judged) -> bool
    ensures { result ≡ spent place judged }
{
    match judged {
        Judged::Bad => false,
        Judged::End => false,
        Judged::Characters(n) => n <= place,
    }
}

// A character, by what a read would find next: the last one before the tape's end.
fn with_next(byte: u8, judged: Judged) -> Got
    ensures { result ≡ comes_with byte judged }
{
    match judged {
        Judged::Bad => Got::Character(byte),
        Judged::End => Got::Last(byte),
        Judged::Characters(n) => Got::Character(byte),
    }
}

// The character at a place of a record of n: behind it stands the next of its record, or whatever the next record is.
fn character(tape: &[u8], number: u8, place: u8, n: u8, byte: u8) -> Got
    requires { RecordHolds tape.now number n }
    ensures { result ≡ given_with tape.now (behind number place n) byte }
{
    let further = place as u16 + 1;
    if further < n as u16 {
        return Got::Character(byte);
    }
    with_next(byte, records::found(tape, number + 1))
}

// How an OPEN with this AUX1 opens the tape.
fn mark_of(aux1: u8) -> u8
    ensures { result ≡ mark_of aux1 }
{
    if aux1 / 4 % 2 == 1 {
        return 1;
    }
    if aux1 / 8 % 2 == 1 {
        return 2;
    }
    3
}

impl Cassette {
    // Closed, and nothing pending.
    pub fn fresh() -> Cassette
        ensures { result ≡ fresh_cassette }
    {
        Cassette {
            mark: 0,
            record: 0,
            place: 0,
        }
    }

    // By AUX1, at the tape's beginning; $81 while it is open.
    pub fn open(&mut self, aux1: u8) -> Done
        ensures { answer result self.new ≡ tape_opened aux1 self.old }
    {
        if self.mark != 0 {
            return Done::Refused(0x81);
        }
        *self = Cassette {
            mark: mark_of(aux1),
            record: 0,
            place: 0,
        };
        Done::Success
    }

    // After writing, what is pending becomes a partial record, and the end record comes behind it; any other CLOSE leaves the tape.
    pub fn close(&mut self, pending: &[u8], tape: &mut [u8])
        requires { Reel pending.now tape.old }
        ensures { cassette_group self.new pending.now tape.new ≡ close_of (cassette_group self.old pending.now tape.old) }
    {
        let mark = self.mark;
        let number = self.record as u16;
        let place = self.place;
        *self = Cassette::fresh();
        if mark != 2 {
            return;
        }
        if place == 0 {
            records::lay(tape, number, pending, 0xFE, 0);
            return;
        }
        records::lay(tape, number, pending, 0xFA, place);
        records::lay(tape, number + 1, pending, 0xFE, 0);
    }

    // Where the next character stands.
    fn stand(self, tape: &[u8]) -> Stand
        requires { WholeTape tape.now }
        ensures { result ≡ stand_of self tape.now }
    {
        let judged = records::found(tape, self.record);
        if is_spent(self.place, judged) {
            let after = self.record + 1;
            return Stand {
                record: after,
                place: 0,
                judged: records::found(tape, after),
            };
        }
        Stand {
            record: self.record,
            place: self.place,
            judged,
        }
    }

    // The character there, or the record's refusal.
    fn give(&mut self, tape: &[u8], stand: Stand) -> Got
        requires { Found tape.now stand }
        ensures { answer result self.new ≡ given_at self.old tape.now stand }
    {
        match stand.judged {
            Judged::Bad => Got::Refused(0x8F),
            Judged::End => Got::Refused(0x88),
            Judged::Characters(n) => {
                let at = records::RECORD * stand.record as usize + 3 + stand.place as usize;
                let byte = base::byte_at(tape, at);
                *self = next(stand.record, stand.place, n);
                character(tape, stand.record, stand.place, n, byte)
            }
        }
    }

    // The next character; $83 if the tape is not open for reading.
    pub fn read(&mut self, tape: &[u8]) -> Got
        requires { WholeTape tape.now }
        ensures { answer result self.new ≡ gotten_of self.old tape.now }
    {
        if self.mark == 1 {
            let stand = self.stand(tape);
            return self.give(tape, stand);
        }
        Got::Refused(0x83)
    }

    // The character becomes pending, and the 128th makes a full record; $90 on a full tape, $87 if it is not open for writing.
    pub fn write(&mut self, pending: &mut [u8], tape: &mut [u8], byte: u8) -> Done
        requires { Reel pending.old tape.old }
        ensures { answer result (cassette_group self.new pending.new tape.new) ≡ write_of byte (cassette_group self.old pending.old tape.old) }
    {
        if self.mark != 2 {
            return Done::Refused(0x87);
        }
        if 249 <= self.record {
            return Done::Refused(0x90);
        }
        base::set_byte(pending, self.place as usize, byte);
        if self.place < 127 {
            self.place += 1;
            return Done::Success;
        }
        records::lay(tape, self.record as u16, pending, 0xFC, records::CHARACTERS);
        self.record += 1;
        self.place = 0;
        Done::Success
    }
}
