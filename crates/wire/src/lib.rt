// A port's wire: gathering one message byte by byte, what a ready message says, and giving a reply. The port lends its room: while
// it gathers, the room keeps the value's bytes from 0 on, and while it replies, the reply's.
#![tactic(auto)]

ghost use Rattle.std.specs.Prelude.{true, ◌≡◌};
ghost use Rattle.wire.specs.Messages.{good_field, gathered, after_of, kept_of, take_of, goes_on, call_of, bad_status, message_of};
ghost use Rattle.wire.specs.Fits.{gather_fits, reply_fits};
ghost use Rattle.wire.specs.Giving.{give_of};

use blocks::{Gather, Header, Phase, Reply};

// The bytes of a port's room.
pub const ROOM: usize = 260;

// A CALL's request.
#[derive(Clone, Copy)]
pub struct Call {
    pub iocb: u8,
    pub command: u8,
    pub address: u16,
    pub length: u16,
    pub aux1: u8,
    pub aux2: u8,
    pub a: u8,
}

// What a message says; of LOAD's data the size, its bytes stay in the room from 2 on. A bad one has its reply's status.
#[derive(Clone, Copy)]
pub enum Message {
    Call(Call),
    Load { address: u16, size: u16 },
    Fetch { address: u16, count: u16 },
    Bad(u8),
}

// A reply's byte, and the port's phase once it is given.
#[derive(Clone, Copy)]
pub struct Given {
    pub byte: u8,
    pub phase: Phase,
}

// Whether the field has a known tag and that tag's length.
#[tactic(auto, using(base::proofs::Tests::tests), unfolding(crate::specs::Messages::good_field))]
pub fn field_is_good(tag: u8, length: u16) -> bool
    ensures { result ≡ good_field tag length }
{
    match tag {
        0x10 => length == 9,
        0x11 => 3 <= length && length <= 258,
        0x12 => length == 4,
        _ => false,
    }
}

// The phase with so many bytes taken, the header's three among them.
fn after(tag: u8, length: u16, taken: u64) -> Phase
    ensures { result ≡ after_of tag length taken }
{
    if 3 + length as u64 <= taken {
        return Phase::Ready(Header { tag, length });
    }
    Phase::Gathering(Gather {
        tag,
        length,
        taken: taken as u32,
    })
}

// A good field's value byte goes to its place in the room, a bad field's is dropped.
fn keep(tag: u8, length: u16, room: &mut [u8], place: u32, byte: u8)
    ensures { room.new ≡ kept_of tag length room.old place byte }
{
    if field_is_good(tag, length) {
        base::set_byte(room, place as usize, byte);
    }
}

// The next byte is one of the value, and not its last.
pub fn goes_on(gather: Gather) -> bool
    ensures { result ≡ goes_on gather }
{
    3 <= gather.taken && gather.taken as u64 + 1 < 3 + gather.length as u64
}

// Such a byte: the message is gathered on.
pub fn value(gather: Gather, room: &mut [u8], byte: u8) -> Gather
    requires { goes_on gather ≡ true }
    ensures { gathered (Phase.Gathering result) room.new ≡ take_of gather room.old byte }
{
    keep(gather.tag, gather.length, room, gather.taken - 3, byte);
    Gather {
        taken: gather.taken + 1,
        ..gather
    }
}

// A byte of a message: its tag, its length's two, or one of its value.
pub fn take(gather: Gather, room: &mut [u8], byte: u8) -> Phase
    ensures { gathered result room.new ≡ take_of gather room.old byte }
{
    match gather.taken {
        0 => Phase::Gathering(Gather {
            tag: byte,
            length: 0,
            taken: 1,
        }),
        1 => Phase::Gathering(Gather {
            length: byte as u16,
            taken: 2,
            ..gather
        }),
        2 => {
            let low = gather.length % 256;
            after(gather.tag, base::word(low as u8, byte), 3)
        }
        taken => {
            keep(gather.tag, gather.length, room, taken - 3, byte);
            after(gather.tag, gather.length, taken as u64 + 1)
        }
    }
}

fn call_of(room: &[u8]) -> Call
    ensures { result ≡ call_of room.now }
{
    Call {
        iocb: base::byte_at(room, 0),
        command: base::byte_at(room, 1),
        address: base::word_at(room, 2, 3),
        length: base::word_at(room, 4, 5),
        aux1: base::byte_at(room, 6),
        aux2: base::byte_at(room, 7),
        a: base::byte_at(room, 8),
    }
}

// A bad message's status, by its tag.
#[tactic(auto, using(base::proofs::Tests::tests), unfolding(crate::specs::Messages::bad_status))]
fn bad_status(tag: u8) -> u8
    ensures { result ≡ bad_status tag }
{
    match tag {
        0x10..=0x12 => 0x84,
        _ => 0x92,
    }
}

// What a ready message says.
pub fn message_of(header: Header, room: &[u8]) -> Message
    ensures { result ≡ message_of header room.now }
{
    let Header { tag, length } = header;
    if !field_is_good(tag, length) {
        return Message::Bad(bad_status(tag));
    }
    match tag {
        0x10 => Message::Call(call_of(room)),
        0x11 => Message::Load {
            address: base::word_at(room, 0, 1),
            size: length - 2,
        },
        _ => Message::Fetch {
            address: base::word_at(room, 0, 1),
            count: base::word_at(room, 2, 3),
        },
    }
}

// The reply's next byte; with the last the port gathers again.
pub fn give(reply: Reply, room: &[u8]) -> Given
    ensures { result ≡ give_of reply room.now }
{
    let length = reply.length;
    let given = reply.given;
    let byte = base::byte_at(room, given as usize);
    if length as u32 <= given as u32 + 1 {
        return Given {
            byte,
            phase: Phase::Gathering(Gather::fresh()),
        };
    }
    Given {
        byte,
        phase: Phase::Replying(Reply {
            length,
            given: given + 1,
        }),
    }
}

// Whether a gathering is undamaged.
#[tactic(auto, using(base::proofs::Tests::tests), unfolding(crate::specs::Fits::gather_fits))]
pub fn gather_fits(gather: Gather) -> bool
    ensures { result ≡ gather_fits gather }
{
    match gather.taken {
        0 => gather.tag == 0 && gather.length == 0,
        1 => gather.length == 0,
        2 => gather.length < 256,
        taken => (taken as u64) < 3 + gather.length as u64,
    }
}

// Whether a reply is undamaged.
#[tactic(auto, using(base::proofs::Tests::tests), unfolding(crate::specs::Fits::reply_fits))]
pub fn reply_fits(reply: Reply) -> bool
    ensures { result ≡ reply_fits reply }
{
    4 <= reply.length && reply.length as usize <= ROOM && reply.given < reply.length
}
