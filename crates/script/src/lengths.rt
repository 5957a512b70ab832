// How much of each buffer is lent: its first so many bytes, at most its whole.
use crate::board::Buffer;
use crate::ops::Op;

#[derive(Clone, Copy)]
pub struct LentLengths {
    pub area: u32,
    pub screen: u32,
    pub paper: u32,
    pub state: u32,
    pub tape: u32,
    pub images: u32,
}

impl LentLengths {
    // No buffer has so many bytes: each is lent whole.
    pub fn whole() -> LentLengths {
        LentLengths {
            area: u32::MAX,
            screen: u32::MAX,
            paper: u32::MAX,
            state: u32::MAX,
            tape: u32::MAX,
            images: u32::MAX,
        }
    }

    // Another length for a buffer.
    fn lend(self, buffer: Buffer, length: u32) -> LentLengths {
        match buffer {
            Buffer::Area => LentLengths {
                area: length,
                ..self
            },
            Buffer::Screen => LentLengths {
                screen: length,
                ..self
            },
            Buffer::Paper => LentLengths {
                paper: length,
                ..self
            },
            Buffer::State => LentLengths {
                state: length,
                ..self
            },
            Buffer::Tape => LentLengths {
                tape: length,
                ..self
            },
            Buffer::Images => LentLengths {
                images: length,
                ..self
            },
        }
    }

    // How much is lent after an op.
    pub fn after(self, op: Op) -> LentLengths {
        match op {
            Op::Lend(Some(buffer), length) => self.lend(buffer, length),
            _ => self,
        }
    }
}
