//! A request for which there will never be memory ends the run.
use crate::runs::{Ended, serve_once};
use desk_front::{FrontFault, Options};
use lanes::Gate;
use std::alloc::{AllocError, Global};
use std::sync::atomic::{AtomicBool, Ordering};
use std::test::Fail;
use std::{io, thread};
use test_devices::FullHeap;

/// The service counts the entries `n` of a list of contexts, for which a list of them all is made.
const MODEL: &str =
    r#"{"model":{"inputs":["l"],"decisions":[{"name":"d","needs":["l"],"expr":"count(l.n)"}],"services":[{"name":"s","outputs":["d"],"encapsulated":[],"inputDecisions":[],"inputData":["l"]}]}}"#;

/// How many contexts the list of the first request has.
const LENGTH: u64 = 4_000;

/// What the heap has left once it is full, in bytes: less than a list so long takes.
const SPARE: usize = 20_000;

/// How often the first request looks whether the heap is full, at most.
const TURNS: u64 = 10_000_000;

/// Takes the heap once a result of b was written. It has room for so many bytes and takes no memory itself.
#[derive(Drop)]
struct Filling<'a> {
    alloc: Global,
    full: Option<FullHeap>,
    is_full: &'a AtomicBool,
    bytes: [u8; 1_000],
    used: usize,
}

impl io::Write for Filling<'_> {
    fn write(&mut self, buf: &[u8]) -> io::Result<usize> {
        let rest = &mut self.bytes[self.used.min(1_000)..];
        let n = buf.len().min(rest.len());
        rest[..n].copy_from_slice(&buf[..n]);
        self.used = self.used.saturating_add(n);
        let has_result = buf
            .windows(12)
            .any(|piece| piece == b"\"client\":\"b\"".as_slice());
        if has_result && self.full.is_none() {
            match FullHeap::but(self.alloc, SPARE) {
                Ok(full) => self.full = Some(full),
                Err(_) => return Err(io::Error::from(io::ErrorKind::OutOfMemory)),
            }
            self.is_full.store(true, Ordering::SeqCst);
        }
        Ok(n)
    }

    fn flush(&mut self) -> io::Result<()> {
        Ok(())
    }
}

/// Holds the requests of the first client until the heap is full.
#[derive(Drop)]
struct Held<'a> {
    is_full: &'a AtomicBool,
}

impl Gate for Held<'_> {
    fn enter(&self, client: u32, _ticket: u64) {
        if client != 0 {
            return;
        }
        for _ in 0..TURNS {
            if self.is_full.load(Ordering::SeqCst) {
                return;
            }
            thread::yield_now();
        }
    }

    fn leave(&self, _client: u32, _ticket: u64) {}
}

/// The model, a request of a with a long list, one of b with none, and another of a.
fn lines(alloc: Global) -> Result<Vec<u8>, AllocError> {
    let mut input = Vec::new(alloc);
    input.extend_from_slice(MODEL.as_bytes())?;
    input.extend_from_slice(b"\n{\"client\":\"a\",\"service\":\"s\",\"inputs\":{\"l\":[{\"n\":0}")?;
    for _ in 1..LENGTH {
        input.extend_from_slice(b",{\"n\":0}")?;
    }
    input.extend_from_slice(b"]}}\n{\"client\":\"b\",\"service\":\"s\",\"inputs\":{\"l\":[]}}\n")?;
    input.extend_from_slice(b"{\"client\":\"a\",\"service\":\"s\",\"inputs\":{\"l\":[]}}\n")?;
    Ok(input)
}

/// The workers have no heaps of their own, since the address space is full but for so many bytes when they start.
#[test]
fn a_request_that_never_fits_ends_the_run(rt: HostRuntime) -> Result<(), Fail> {
    let alloc = rt.alloc();
    let input = lines(alloc)?;
    let is_full = AtomicBool::new(false);
    let writer = Filling {
        alloc,
        full: None,
        is_full: &is_full,
        bytes: [0; 1_000],
        used: 0,
    };
    let options = Options {
        clients: 2,
        workers: 2,
        capacity: 1,
    };
    let gate = Held { is_full: &is_full };
    let full = FullHeap::but(alloc, 50_000_000)?;
    let (ended, writer) = serve_once(alloc, &rt, input.as_slice(), writer, &gate, options);
    let Filling {
        full: within,
        bytes,
        used,
        ..
    } = writer;
    drop(within);
    drop(full);
    let text = &bytes[..used.min(1_000)];
    println!(rt; "{ended:?} {used}")?;
    assert_eq!(rt; ended, Ended::Failed(FrontFault::Memory));
    assert_eq!(rt;
        text,
        b"{\"line\":1,\"model\":true}\n{\"client\":\"b\",\"result\":0,\"ticket\":0}\n".as_slice()
    );
    Ok(())
}
