use bell::FrontBell;
use desk_lines::{ReadAhead, Source, read_all};
use std::alloc::{AllocError, Global};
use std::io;
use std::marker::Brand;
use std::process::Abort;
use std::sync::Arc;

const TEXT: &[u8] = b"one\ntwo\nthree\nfour";

/// A place that no text of a test reaches.
const NOWHERE: usize = 1_000_000;

/// Gives a text, at most so many bytes at a read. Each read at some place and after it fails.
#[derive(Clone, Copy)]
struct Steps {
    text: &'static [u8],
    at: usize,
    most: usize,
    fails_at: usize,
}

/// All of the text.
fn device_of(most: usize, fails_at: usize) -> Steps {
    Steps {
        text: TEXT,
        at: 0,
        most,
        fails_at,
    }
}

impl io::Read for Steps {
    fn read(&mut self, buf: &mut [u8]) -> io::Result<usize> {
        if self.at >= self.fails_at {
            return Err(io::Error::from(io::ErrorKind::Other));
        }
        let left = self.text.len().saturating_sub(self.at);
        let n = left.min(self.most).min(buf.len());
        for (to, from) in buf.iter_mut().zip(self.text.iter().skip(self.at)).take(n) {
            *to = *from;
        }
        self.at = self.at.saturating_add(n);
        Ok(n)
    }
}

/// Appends what reads of three bytes give, up to the end.
fn drain<R: Source>(reader: &mut R, into: &mut Vec<u8>) -> io::Result<()> {
    let mut piece = [0u8; 3];
    for _ in 0..100_000 {
        let n = reader.read(&mut piece)?;
        if n == 0 {
            return Ok(());
        }
        into.extend_from_slice(piece.get(..n).unwrap_or(&[]))?;
    }
    Ok(())
}

fn bell(alloc: Global) -> Result<Arc<FrontBell>, AllocError> {
    Ok(Arc::new(alloc, FrontBell::new())?)
}

#[test]
fn all_comes(rt: HostRuntime) -> Result<(), AllocError> {
    let bell = bell(rt.alloc())?;
    for most in [1, 2, 7, 100] {
        for is_rung in [false, true] {
            let device = device_of(most, NOWHERE);
            let mut reader = ReadAhead::<_, _, Brand>::new(rt, rt.alloc(), device, true);
            if is_rung {
                reader.ring(&bell);
            }
            let mut into = Vec::new(rt.alloc());
            assert!(rt; drain(&mut reader, &mut into).is_ok(), "{most}");
            assert_eq!(rt; into.as_slice(), TEXT, "{most}");
            assert_eq!(rt; reader.failures(), 0, "{most}");
            assert_eq!(rt; reader.at_hand(), if is_rung { Some(true) } else { None });
        }
    }
    Ok(())
}

#[test]
fn a_fault_comes_after_the_bytes(rt: HostRuntime) -> Result<(), AllocError> {
    let bell = bell(rt.alloc())?;
    for most in [1, 4, 100] {
        let device = device_of(most, 8);
        let due = if most == 100 { TEXT } else { &TEXT[..8] };
        let mut reader = ReadAhead::<_, _, Brand>::new(rt, rt.alloc(), device, true);
        reader.ring(&bell);
        let mut into = Vec::new(rt.alloc());
        for times in 1..4 {
            assert!(rt; drain(&mut reader, &mut into).is_err(), "{most}");
            assert_eq!(rt; into.as_slice(), due, "{most}");
            assert_eq!(rt; reader.failures(), times, "{most}");
        }
    }
    Ok(())
}

#[test]
fn what_was_read_before_stays(rt: HostRuntime) -> Result<(), AllocError> {
    let bell = bell(rt.alloc())?;
    let device = device_of(2, NOWHERE);
    let mut reader = ReadAhead::<_, _, Brand>::new(rt, rt.alloc(), device, true);
    let mut piece = [0u8; 2];
    assert!(rt; reader.read(&mut piece).is_ok());
    reader.ring(&bell);
    let mut into = Vec::new(rt.alloc());
    assert!(rt; drain(&mut reader, &mut into).is_ok());
    assert_eq!(rt; into.as_slice(), &TEXT[2..]);
    assert_eq!(rt; reader.at_hand(), None);
    Ok(())
}

#[test]
fn more_than_the_ring_has_room_for(rt: HostRuntime) -> Result<(), AllocError> {
    let bell = bell(rt.alloc())?;
    let mut into = Vec::new(rt.alloc());
    assert!(rt; read_all(rt, rt.alloc(), TEXT, &bell, &mut into).is_ok());
    assert_eq!(rt; into.as_slice(), TEXT);
    let mut large = Large { left: 2_500_000 };
    let mut into = Vec::new(rt.alloc());
    assert!(rt; read_all(rt, rt.alloc(), large, &bell, &mut into).is_ok());
    assert_eq!(rt; into.len(), 2_500_000);
    assert!(rt; into.ends_with(&[7; 70_000]));
    large.left = 0;
    assert!(rt; read_all(rt, rt.alloc(), large, &bell, &mut into).is_ok());
    assert_eq!(rt; into.len(), 2_500_000);
    Ok(())
}

/// Gives so many bytes.
#[derive(Clone, Copy)]
struct Large {
    left: usize,
}

impl io::Read for Large {
    fn read(&mut self, buf: &mut [u8]) -> io::Result<usize> {
        let n = self.left.min(buf.len());
        if let Some(front) = buf.get_mut(..n) {
            front.fill(7);
        }
        self.left -= n;
        Ok(n)
    }
}
