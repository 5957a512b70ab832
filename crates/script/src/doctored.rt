// What is written of the doctor's work on an image.
use crate::say;
use crate::streams::Streams;
use std::io;

// The bytes of a change in the list.
const CHANGE: usize = 5;

// The answer, the number of changes, and so many of the list. What the doctor returned has the answer in its low byte and the
// number above it.
pub fn write(streams: &mut Streams, returned: u32, list: &[u8]) -> io::Result<()> {
    let [answer, low, high, _] = returned.to_le_bytes();
    let number = base::word(low, high);
    let end = (CHANGE * number as usize).min(list.len());
    say::byte(streams, answer)?;
    say::word(streams, number)?;
    say::bytes(streams, &list[..end])
}
