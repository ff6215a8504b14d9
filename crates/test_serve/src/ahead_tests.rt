//! Where the input is read ahead, others are answered while a request runs.
use crate::runs::MODEL;
use crate::waits_tests::{Until, Watch};
use desk_front::{Counted, Options, ReadAhead, serve};
use std::io;
use std::marker::Brand;
use std::sync::atomic::{AtomicBool, Ordering};
use std::test::Fail;

/// Gives a text at each read.
#[derive(Clone, Copy)]
struct Pieces {
    texts: [&'static str; 4],
    at: usize,
}

impl io::Read for Pieces {
    fn read(&mut self, buf: &mut [u8]) -> io::Result<usize> {
        let Some(text) = self.texts.get(self.at) else {
            return Ok(0);
        };
        let n = text.len().min(buf.len());
        for (to, from) in buf.iter_mut().zip(text.as_bytes().iter()).take(n) {
            *to = *from;
        }
        self.at = self.at.saturating_add(1);
        Ok(n)
    }
}

/// A line of b that comes once the request of a runs, and which the request waits for. It comes in two pieces.
const TEXTS: [&str; 4] = [
    MODEL,
    "\n{\"client\":\"a\",\"service\":\"s\",\"inputs\":{\"a\":1}}\n",
    "{\"client\":\"b\",\"service\":\"s\",",
    "\"inputs\":{\"a\":10}}\n",
];

#[test]
fn a_request_waits_for_a_later_line(rt: HostRuntime) -> Result<(), Fail> {
    let options = Options {
        clients: 2,
        workers: 2,
        capacity: 1,
    };
    let seen = AtomicBool::new(false);
    let gate = Until::new(&seen);
    let device = Pieces {
        texts: TEXTS,
        at: 0,
    };
    let mut reader = ReadAhead::<_, _, Brand>::new(rt, rt.alloc(), device, true);
    let mut writer = Counted::new(Watch::new(&seen));
    let ended = serve(rt.alloc(), &rt, &mut reader, &mut writer, &gate, options);
    assert!(rt; ended.is_ok());
    assert!(rt; !gate.gave_up());
    assert!(rt; seen.load(Ordering::SeqCst));
    Ok(())
}
