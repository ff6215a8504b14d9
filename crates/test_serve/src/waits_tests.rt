//! While the front waits for one client, what it is handed for others is written.
use crate::runs::{Ended, serve_once, with_model};
use desk_front::Options;
use lanes::Gate;
use std::sync::atomic::{AtomicBool, Ordering};
use std::test::Fail;
use std::{io, thread};

/// How often a held request looks whether it may go on, at most.
const TURNS: u64 = 3_000_000;

/// Sees whether the result of b was written.
#[derive(Drop)]
pub struct Watch<'a> {
    seen: &'a AtomicBool,
}

impl<'a> Watch<'a> {
    /// Notes it there.
    pub fn new(seen: &'a AtomicBool) -> Watch<'a> {
        Watch { seen }
    }
}

impl io::Write for Watch<'_> {
    fn write(&mut self, buf: &[u8]) -> io::Result<usize> {
        if buf
            .windows(12)
            .any(|piece| piece == b"\"client\":\"b\"".as_slice())
        {
            self.seen.store(true, Ordering::SeqCst);
        }
        Ok(buf.len())
    }

    fn flush(&mut self) -> io::Result<()> {
        Ok(())
    }
}

/// Holds the first request of the first client until the result of b was written, or very long.
#[derive(Drop)]
pub struct Until<'a> {
    seen: &'a AtomicBool,
    gave_up: AtomicBool,
}

impl<'a> Until<'a> {
    /// Sees it there.
    pub fn new(seen: &'a AtomicBool) -> Until<'a> {
        Until {
            seen,
            gave_up: AtomicBool::new(false),
        }
    }

    /// Whether the result of b didn't come.
    pub fn gave_up(&self) -> bool {
        self.gave_up.load(Ordering::SeqCst)
    }
}

impl Gate for Until<'_> {
    fn enter(&self, client: u32, ticket: u64) {
        if client != 0 || ticket != 0 {
            return;
        }
        for _ in 0..TURNS {
            if self.seen.load(Ordering::SeqCst) {
                return;
            }
            thread::yield_now();
        }
        self.gave_up.store(true, Ordering::SeqCst);
    }

    fn leave(&self, _client: u32, _ticket: u64) {}
}

/// A request of a, one of b, and lines of a that wait for its request: for a place, or since what they are answered with stands
/// behind its result.
const WAITING: [&str; 5] = [
    r#"{"client":"a","service":"s","inputs":{"a":1}}
{"client":"b","service":"s","inputs":{"a":10}}
{"client":"a","service":"s","inputs":{"a":2}}
"#,
    r#"{"client":"a","service":"s","inputs":{"a":1}}
{"client":"b","service":"s","inputs":{"a":10}}
{"client":"a","service":"t","inputs":{"a":2}}
"#,
    r#"{"client":"a","service":"s","inputs":{"a":1}}
{"client":"b","service":"s","inputs":{"a":10}}
{"client":"a","service":"s","inputs":{"a":1.5}}
"#,
    r#"{"client":"a","service":"s","inputs":{"a":1}}
{"client":"b","service":"s","inputs":{"a":10}}
{"client":"a","close":true}
"#,
    r#"{"client":"a","service":"s","inputs":{"a":1}}
{"client":"b","service":"s","inputs":{"a":10}}
{"resize":"a","capacity":9}
"#,
];

#[test]
fn one_client_does_not_keep_back_others(rt: HostRuntime) -> Result<(), Fail> {
    let options = Options {
        clients: 2,
        workers: 2,
        capacity: 1,
    };
    for lines in WAITING {
        let input = with_model(rt.alloc(), lines.as_bytes())?;
        let seen = AtomicBool::new(false);
        let gate = Until::new(&seen);
        let writer = Watch::new(&seen);
        let (ended, _writer) = serve_once(
            rt.alloc(),
            &rt,
            input.as_slice(),
            writer,
            &gate,
            options,
        );
        assert_eq!(rt; ended, Ended::Whole(2));
        assert!(rt; !gate.gave_up(), "{lines}");
    }
    Ok(())
}
