//! A writer that takes no memory.
use std::io;

/// A writer with room for so many bytes that takes no memory.
#[derive(Drop)]
pub struct Page {
    bytes: [u8; 1_000],
    used: usize,
}

impl io::Write for Page {
    fn write(&mut self, buf: &[u8]) -> io::Result<usize> {
        if self.used > self.bytes.len() {
            return Ok(0);
        }
        let rest = &mut self.bytes[self.used..];
        let n = buf.len().min(rest.len());
        rest[..n].copy_from_slice(&buf[..n]);
        self.used += n;
        Ok(n)
    }

    fn flush(&mut self) -> io::Result<()> {
        Ok(())
    }
}

impl Page {
    pub fn empty() -> Page {
        Page {
            bytes: [0; 1_000],
            used: 0,
        }
    }

    /// What was written.
    pub fn text(&self) -> &[u8] {
        if self.used > self.bytes.len() {
            return &self.bytes;
        }
        &self.bytes[..self.used]
    }
}
