// The doctor's work on one of the images. It is lent that image whole, whatever length of the images is lent to the calls.
use firmware::{IMAGE, LIST};
use script::doctored;
use script::ops::Op;
use script::streams::Streams;
use std::io;

// What the doctor returns for a buffer of a wrong length.
const REFUSED: u32 = 1;

fn repair(streams: &mut Streams, image: &mut [u8]) -> io::Result<()> {
    let mut list = [0u8; LIST];
    let returned = firmware::fixlomand_doctor(image, &mut list);
    doctored::write(streams, returned, &list)
}

// What an op asks of the doctor: an image that is not there is refused like one of a wrong length.
pub fn done(streams: &mut Streams, op: Op, images: &mut [u8]) -> io::Result<()> {
    let Op::Doctor(n) = op else {
        return Ok(());
    };
    let from = IMAGE * (n as usize);
    let end = from + IMAGE;
    if end <= images.len() {
        return repair(streams, &mut images[from..end]);
    }
    doctored::write(streams, REFUSED, b"")
}
