// Replies, made in a port's room: a CALL's, a status alone, and a FETCH's with its bytes. A reply stands in the room from 0 on.
#![tactic(auto)]

ghost use Rattle.std.specs.Prelude.{◌≡◌};
ghost use Rattle.std.proofs.lemmas.List.Edits.{sets};
ghost use Rattle.replies.specs.Replies.{call_reply, status_reply, bytes_at, fetch_reply, replied, replied_of};

use blocks::Reply;

// Byte by byte, for buffers that end before.
fn copy_each(to: &mut [u8], place: u16, from: &[u8], start: u16, count: u16)
    ensures { to.new ≡ sets to.old place (bytes_at from.now start count) }
{
    for i in 0..count as usize {
        let byte = base::byte_at(from, start as usize + i);
        base::set_byte(to, place as usize + i, byte);
    }
}

// `count` bytes of one lent buffer, from `start` on, into another, from `place` on. Past the one's end a byte is 0, past the
// other's nothing changes.
pub fn copy_bytes(to: &mut [u8], place: u16, from: &[u8], start: u16, count: u16)
    ensures { to.new ≡ sets to.old place (bytes_at from.now start count) }
{
    let first = start as usize;
    let last = first + count as usize;
    let at = place as usize;
    let end = at + count as usize;
    if last <= from.len() {
        if end <= to.len() {
            to[at..end].copy_from_slice(&from[first..last]);
            return;
        }
    }
    copy_each(to, place, from, start, count);
}

// A CALL's reply.
pub fn call_reply(room: &mut [u8], status: u8, count: u16, a: u8) -> Reply
    ensures { replied result room.new ≡ replied_of room.old (call_reply status count a) }
{
    let [low, high] = count.to_le_bytes();
    base::lay(room, 0, &[0x90, 4, 0, status, low, high, a]);
    Reply {
        length: 7,
        given: 0,
    }
}

// A reply that is a status alone.
pub fn status_reply(room: &mut [u8], tag: u8, status: u8) -> Reply
    ensures { replied result room.new ≡ replied_of room.old (status_reply tag status) }
{
    base::lay(room, 0, &[tag, 1, 0, status]);
    Reply {
        length: 4,
        given: 0,
    }
}

// A FETCH's reply, refused or with the bytes of the port's own half.
pub fn fetch_reply(room: &mut [u8], half: &[u8], address: u16, count: u16) -> Reply
    ensures { replied result room.new ≡ replied_of room.old (fetch_reply half.now address count) }
{
    if count < 1 {
        return status_reply(room, 0x92, 0x84);
    }
    if 256 < count {
        return status_reply(room, 0x92, 0x84);
    }
    if blocks::AREA < address as usize + count as usize {
        return status_reply(room, 0x92, 0xB0);
    }
    let [low, high] = (1 + count).to_le_bytes();
    base::lay(room, 0, &[0x92, low, high, 0x01]);
    copy_bytes(room, 4, half, address, count);
    Reply {
        length: 4 + count,
        given: 0,
    }
}
