//! Devices that give and take bytes in pieces, or fail at some call.
use std::alloc::Global;
use std::io;

/// How a device gives or takes: the most bytes at a call, and the call at which it fails, counted from 1, if not 0.
#[derive(Clone, Copy)]
pub struct Way {
    pub most: usize,
    pub fails_at: u64,
}

/// All that a test has, and no fault.
pub const WELL: Way = Way {
    most: 10_000,
    fails_at: 0,
};

/// A byte at a call, and no fault.
pub const ONE_BYTE: Way = Way {
    most: 1,
    fails_at: 0,
};

/// Gives a text in its way.
#[derive(Drop)]
pub struct Pieces<'a> {
    text: &'a [u8],
    way: Way,
    calls: u64,
}

impl<'a> Pieces<'a> {
    pub fn new(text: &'a [u8], way: Way) -> Pieces<'a> {
        Pieces {
            text,
            way,
            calls: 0,
        }
    }
}

impl io::Read for Pieces<'_> {
    fn read(&mut self, buf: &mut [u8]) -> io::Result<usize> {
        self.calls = self.calls.saturating_add(1);
        if self.calls == self.way.fails_at {
            return Err(io::Error::from(io::ErrorKind::Other));
        }
        let n = self.text.len().min(self.way.most).min(buf.len());
        buf[..n].copy_from_slice(&self.text[..n]);
        self.text = &self.text[n..];
        Ok(n)
    }
}

/// Takes bytes in its way, and keeps them.
#[derive(Drop)]
pub struct Sips {
    pub taken: Vec<u8>,
    way: Way,
    calls: u64,
}

impl Sips {
    pub fn new(alloc: Global, way: Way) -> Sips {
        Sips {
            taken: Vec::new(alloc),
            way,
            calls: 0,
        }
    }
}

impl io::Write for Sips {
    fn write(&mut self, buf: &[u8]) -> io::Result<usize> {
        self.calls = self.calls.saturating_add(1);
        if self.calls == self.way.fails_at {
            return Err(io::Error::from(io::ErrorKind::Other));
        }
        let n = buf.len().min(self.way.most);
        if self.taken.extend_from_slice(&buf[..n]).is_err() {
            return Err(io::Error::from(io::ErrorKind::OutOfMemory));
        }
        Ok(n)
    }

    fn flush(&mut self) -> io::Result<()> {
        Ok(())
    }
}
