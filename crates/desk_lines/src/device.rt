//! Readers and writers that count their faults.
ghost use Rattle.std.specs.Prelude.{◌≡◌};
ghost use Rattle.desk_lines.specs.Device.{Reader, Reads, Writer, Writes};

use bell::FrontBell;
use std::io;
use std::sync::Arc;

/// A reader that counts its faults: each error of a read is one. At 2^64 - 1 the count stays, and so does that of the
/// bytes that came.
pub trait Source {
    /// What is seen of it: the bytes that reads will give, its faults, and how many bytes came.
    ghost seen: { Self → Reader };

    /// Reads as `std::io::Read::read` does.
    fn read(&mut self, buf: &mut [u8]) -> io::Result<usize>
        ensures { Reads (seen self.old) (seen self.new) result buf.new };

    /// How many faults there were.
    fn failures(&self) -> u64
        ensures { result ≡ (seen self.now).faults };

    /// From now on the bell is rung whenever a read that would have waited would answer at once. A source that can't do so does
    /// nothing.
    fn ring(&mut self, _bell: &Arc<FrontBell>)
        ensures { seen self.new ≡ seen self.old }
    {}

    /// Whether a read would answer at once, where that is known.
    fn at_hand(&mut self) -> Option<bool>
        ensures { seen self.new ≡ seen self.old }
    {
        None
    }
}

/// A writer that counts its faults: each error of a write is one, and each write of a piece that is not empty and of which
/// nothing was taken. At 2^64 - 1 the count stays.
pub trait Sink {
    /// What is seen of it: the bytes that were written, and its faults.
    ghost seen: { Self → Writer };

    /// Writes as `std::io::Write::write` does.
    fn write(&mut self, buf: &[u8]) -> io::Result<usize>
        ensures { Writes (seen self.old) (seen self.new) result buf.now };

    /// How many faults there were.
    fn failures(&self) -> u64
        ensures { result ≡ (seen self.now).faults };
}

/// A reader or a writer of std, with the count of its faults and, of a reader, that of the bytes that came.
#[derive(Drop)]
pub struct Counted<T> {
    /// The device itself.
    pub inner: T,
    failures: u64,
    came: u64,
}

impl<T> Counted<T> {
    ghost use Rattle.desk_lines.specs.Counted.{came_of, faults_of};

    /// The device with nothing counted yet.
    pub fn new(inner: T) -> Self
        ensures inner { result.inner ≡ inner }
        ensures no_fault { faults_of result ≡ 0 }
        ensures no_byte { came_of result ≡ 0 }
    {
        Counted {
            inner,
            failures: 0,
            came: 0,
        }
    }
}

impl<T: io::Read> Source for Counted<T> {
    ghost use Rattle.desk_lines.specs.Counted.{reader_of};

    ghost seen = { reader_of T.remaining };

    /// Reads as `std::io::Read::read` does.
    fn read(&mut self, buf: &mut [u8]) -> io::Result<usize> {
        let result = self.inner.read(buf);
        match &result {
            Ok(n) => self.came = self.came.saturating_add(*n as u64),
            Err(_) => self.failures = self.failures.saturating_add(1),
        }
        result
    }

    fn failures(&self) -> u64 {
        self.failures
    }
}

impl<T: io::Write> Sink for Counted<T> {
    ghost use Rattle.desk_lines.specs.Counted.{writer_of};

    ghost seen = { writer_of T.contents };

    fn write(&mut self, buf: &[u8]) -> io::Result<usize> {
        let result = self.inner.write(buf);
        let fails = match &result {
            Ok(n) => *n == 0 && !buf.is_empty(),
            Err(_) => true,
        };
        if fails {
            self.failures = self.failures.saturating_add(1);
        }
        result
    }

    fn failures(&self) -> u64 {
        self.failures
    }
}
