// A tape's records of 132 bytes: their checksum, what each of them is as it lies, and a record made of characters.
#![tactic(auto)]

ghost use Rattle.std.specs.Prelude.{◌≡◌, length, get_or, take};
ghost use Rattle.base.specs.Parts.{part};
ghost use Rattle.records.specs.Records.{checksum_of, judged_by, judged_of, found_at, record_data, sealed_record, record_made, laid_at, WholeTape, Reel};

// The bytes of a record, those of its data, and the records of a tape.
pub const RECORD: usize = 132;

pub const CHARACTERS: u8 = 128;

pub const RECORDS: u16 = 250;

// What a record is as it lies: bad, an end record, or one with so many characters.
#[derive(Clone, Copy)]
pub enum Judged {
    Bad,
    End,
    Characters(u8),
}

// The sum of 131 bytes, each carry out of eight bits added back.
fn checksum(bytes: &[u8]) -> u8
    requires { length bytes.now ≡ 131 }
    ensures { result ≡ checksum_of bytes.now }
{
    let mut sum: u16 = 0;
    for byte in bytes {
        sum += *byte as u16;
    }
    if sum == 0 {
        return 0;
    }
    ((sum - 1) % 255 + 1) as u8
}

// What a record with a right checksum is, by its control byte and its count.
fn kind(control: u8, count: u8) -> Judged
    ensures { result ≡ judged_by control count }
{
    match control {
        0xFC => Judged::Characters(CHARACTERS),
        0xFA => match count {
            1..=127 => Judged::Characters(count),
            _ => Judged::Bad,
        },
        0xFE => Judged::End,
        _ => Judged::Bad,
    }
}

// What a record is.
fn judge(bytes: &[u8]) -> Judged
    requires { length bytes.now ≡ 132 }
    ensures { result ≡ judged_of bytes.now }
{
    if checksum(&bytes[0..131]) == bytes[131] {
        return kind(bytes[2], bytes[130]);
    }
    Judged::Bad
}

// What a record of the tape is; past the last one the tape has run out.
pub fn found(tape: &[u8], number: u8) -> Judged
    requires { WholeTape tape.now }
    ensures { result ≡ found_at tape.now number }
{
    if (number as u16) < RECORDS {
        let at = RECORD * number as usize;
        let end = at + RECORD;
        return judge(&tape[at..end]);
    }
    Judged::End
}

// The pending characters, and zeros behind them.
fn fill(into: &mut [u8], pending: &[u8], count: u8)
    requires { (length into.old ≡ 128) × (length pending.now ≡ 128) }
    ensures { into.new ≡ record_data pending.now count }
{
    let some = (count as usize).min(pending.len());
    into[..some].copy_from_slice(&pending[..some]);
    into[some..].fill(0);
}

// $55, $55 and the control byte before the data, and the checksum behind.
fn seal(bytes: &mut [u8], control: u8)
    requires { length bytes.old ≡ 132 }
    ensures { bytes.new ≡ sealed_record control (part 3 128 bytes.old) }
{
    bytes[0] = 0x55;
    bytes[1] = 0x55;
    bytes[2] = control;
    let sum = checksum(&bytes[0..131]);
    bytes[131] = sum;
}

// A record of the pending characters; a partial one has their number before the checksum.
fn make(bytes: &mut [u8], pending: &[u8], control: u8, count: u8)
    requires { (length bytes.old ≡ 132) × (length pending.now ≡ 128) }
    ensures { bytes.new ≡ record_made control pending.now count }
{
    fill(&mut bytes[3..131], pending, count);
    if control == 0xFA {
        base::set_byte(bytes, 130, count);
        seal(bytes, control);
        return;
    }
    seal(bytes, control);
}

// Such a record is laid on the tape at its number; past the last one nothing changes.
pub fn lay(tape: &mut [u8], number: u16, pending: &[u8], control: u8, count: u8)
    requires { Reel pending.now tape.old }
    ensures { tape.new ≡ laid_at tape.old number (record_made control pending.now count) }
{
    if number < RECORDS {
        let at = RECORD * number as usize;
        let end = at + RECORD;
        make(&mut tape[at..end], pending, control, count);
    }
}
