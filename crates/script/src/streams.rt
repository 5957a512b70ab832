// Standard input and standard output of a script that is played: a conversation with whoever sends the ops. What is written is held
// back only while there is input at hand, so each op is answered before the next is waited for.
use std::alloc::Global;
use std::io;
use std::io::{BufReader, BufWriter, ErrorKind, Read, Stdin, Stdout, Write};

// The bytes that are read ahead, and the bytes that are held back, at most.
const ROOM: usize = 65536;

#[derive(Drop)]
pub struct Streams {
    input: BufReader<Stdin>,
    output: BufWriter<Stdout>,
}

impl Streams {
    pub fn new(alloc: Global, input: Stdin, output: Stdout) -> io::Result<Streams> {
        Ok(Streams {
            input: BufReader::with_capacity(alloc, ROOM, input)?,
            output: BufWriter::with_capacity(alloc, ROOM, output)?,
        })
    }

    // Reads until a buffer is full; false where the input ends before. If that may have to wait for input, what is held back goes out
    // first.
    pub fn fill(&mut self, some: &mut [u8]) -> io::Result<bool> {
        if self.input.buffer().len() < some.len() {
            self.output.flush()?;
        }
        match self.input.read_exact(some) {
            Ok(()) => Ok(true),
            Err(error) => {
                if error.kind() == ErrorKind::UnexpectedEof {
                    return Ok(false);
                }
                Err(error)
            }
        }
    }

    pub fn write(&mut self, some: &[u8]) -> io::Result<()> {
        self.output.write_all(some)
    }

    // What is held back goes out, as it must before a script ends.
    pub fn flush(&mut self) -> io::Result<()> {
        self.output.flush()
    }
}
