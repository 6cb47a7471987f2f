// Standard output and standard error, as the programs write them. What cannot be written is dropped: the program goes on with
// what is next and ends as it would have ended, and no call here gives an error.
ghost use Rattle.std.specs.Prelude.{◌≡◌};

use octets::read::part;
use octets::write::put_byte;
use std::fmt;
use std::io::Result;

// As much as is put together before it is written: every line but those of a table's strings.
const BUFFER_SIZE: usize = 128;

// What a program writes to.
#[derive(Clone, Copy)]
pub enum Stream {
    Output,
    Errors,
}

// What is put together for a stream.
#[derive(Drop)]
struct Buffer {
    to: Stream,
    bytes: [u8; BUFFER_SIZE],
    used: usize,
}

impl Buffer {
    fn flush(&mut self)
        ensures { self.new.used ≡ 0 }
    {
        self.to.put_bytes(part(&self.bytes, 0, self.used));
        self.used = 0;
    }
}

impl fmt::Write for Buffer {
    fn write_str(&mut self, s: &str) -> fmt::Result {
        for b in s.as_bytes() {
            if BUFFER_SIZE <= self.used {
                self.flush();
            }
            put_byte(&mut self.bytes, self.used, *b);
            self.used += 1;
        }
        Ok(())
    }
}

impl Stream {
    // Writes the bytes, as far as they can be written.
    fn put_bytes(self, bytes: &[u8]) {
        let fd = match self {
            Stream::Output => 1,
            Stream::Errors => 2,
        };
        io::write_all(fd, bytes);
    }

    // Writes the value and then `end`.
    fn put<D: fmt::Display + Drop>(self, value: D, end: &str) {
        let mut f = fmt::Formatter::new(Buffer {
            to: self,
            bytes: [0; BUFFER_SIZE],
            used: 0,
        });
        let _ = f.write(&value);
        let _ = f.write(end);
        f.into_inner().flush();
    }
}

impl Print for Stream {
    fn print<D: fmt::Display + Drop>(&self, value: D) -> Result<()> {
        self.put(value, "");
        Ok(())
    }

    fn println<D: fmt::Display + Drop>(&self, value: D) -> Result<()> {
        self.put(value, "\n");
        Ok(())
    }

    fn write_all(&self, bytes: &[u8]) -> Result<()> {
        self.put_bytes(bytes);
        Ok(())
    }
}

// Both streams: what is printed goes to standard output.
#[derive(Clone, Copy)]
pub struct Console;

impl Print for Console {
    fn print<D: fmt::Display + Drop>(&self, value: D) -> Result<()> {
        Stream::Output.print(value)
    }

    fn println<D: fmt::Display + Drop>(&self, value: D) -> Result<()> {
        Stream::Output.println(value)
    }

    fn write_all(&self, bytes: &[u8]) -> Result<()> {
        Stream::Output.write_all(bytes)
    }
}

impl Eprint for Console {
    fn eprint<D: fmt::Display + Drop>(&self, value: D) -> Result<()> {
        Stream::Errors.print(value)
    }

    fn eprintln<D: fmt::Display + Drop>(&self, value: D) -> Result<()> {
        Stream::Errors.println(value)
    }
}
