//! `serve` over heaps of growing room: each run is right, or ends with `memory` behind whole lines that are a beginning of what is
//! due to each client.
ghost use Rattle.std.specs.Prelude.{◌≡◌, None};
ghost use Rattle.lanes.specs.Made.{fault_in};

use crate::gate_tests::{Holding, requests};
use crate::runs::{Ended, MODEL, is_begun, is_due, serve_once, with_model};
use desk_front::{FrontFault, Options};
use lanes::{Gate, OpenGate};
use std::alloc::{AllocError, Global};
use std::process::Abort;
use std::sync::Wait;
use std::test::Fail;
use std::thread::Threads;
use test_devices::{FullHeap, Page};

/// The least room, in bytes. It grows by a half from run to run.
const LEAST: usize = 256;

/// The most runs.
const RUNS: usize = 48;

/// Runs once while the heap gives no more than this, and answers whether all that is due was written.
fn is_whole_within<T, G>(
    alloc: Global,
    rt: &T,
    spare: usize,
    input: &[u8],
    gate: &G,
    options: Options,
    due: &[(&str, &str)],
) -> Result<bool, AllocError>
where
    T: Threads + Wait + Sync + Abort,
    G: Gate + Sync,
    requires { fault_in options.clients options.workers options.capacity ≡ None }
{
    let full = FullHeap::but(alloc, spare)?;
    let (ended, page) = serve_once(alloc, rt, input, Page::empty(), gate, options);
    drop(full);
    let text = page.text();
    let is_whole = ended == Ended::Whole(options.clients as usize) && is_due(text, due);
    let is_part = ended == Ended::Failed(FrontFault::Memory)
        && is_begun(text, due)
        && (text.is_empty() || text.ends_with(b"\n".as_slice()));
    assert!(rt; is_whole || is_part, "{spare}");
    Ok(is_whole)
}

/// Two requests of one client, of which a gate holds the first until the other has left.
const HELD: Options = Options {
    clients: 1,
    workers: 2,
    capacity: 2,
};

/// With enough room first: the stack grows to its size then, which it can't where the address space is full.
#[test]
fn two_requests_over_growing_heaps(rt: HostRuntime) -> Result<(), Fail> {
    let alloc = rt.alloc();
    let (input, of_a) = requests(alloc, 1, 3)?;
    let due = [("a", of_a.as_str()), ("", "{\"line\":1,\"model\":true}\n")];
    let mut spare: usize = 1 << 32;
    let mut is_whole = false;
    for run in 0..RUNS {
        let gate = Holding::new(alloc, 3, 100_000)?;
        is_whole = is_whole_within(alloc, &rt, spare, &input, &gate, HELD, &due)?;
        spare = if run == 0 {
            LEAST
        } else {
            spare.saturating_add(spare / 2)
        };
        if is_whole && run > 0 {
            println!(rt; "whole after {run} runs")?;
            break;
        }
    }
    assert!(rt; is_whole);
    Ok(())
}

/// Lines behind the model: of a client that is closed, of a name past the last lane, and a second model.
const CLOSED: &str = r#"{"client":"a","service":"s","inputs":{}}
{"client":"a","close":true}
{"client":"a","service":"s","inputs":{}}
{"client":"a","close":true}
{"client":"b","service":"s","inputs":{}}
"#;

const CLOSED_DUE: [(&str, &str); 3] = [
    (
        "a",
        r#"{"client":"a","result":null,"ticket":0}
{"client":"a","closed":true,"line":3}
{"client":"a","line":4,"refused":"closed"}
{"client":"a","line":5,"refused":"closed"}
"#,
    ),
    (
        "b",
        "{\"client\":\"b\",\"line\":6,\"refused\":\"clients\"}\n",
    ),
    (
        "",
        "{\"line\":1,\"model\":true}\n{\"line\":7,\"model\":true}\n",
    ),
];

#[test]
fn a_closed_client_over_growing_heaps(rt: HostRuntime) -> Result<(), Fail> {
    let alloc = rt.alloc();
    let mut input = with_model(alloc, CLOSED.as_bytes())?;
    input.extend_from_slice(MODEL.as_bytes())?;
    let mut spare: usize = 1 << 32;
    let mut is_whole = false;
    for run in 0..RUNS {
        is_whole = is_whole_within(alloc, &rt, spare, &input, &OpenGate, HELD, &CLOSED_DUE)?;
        spare = if run == 0 {
            LEAST
        } else {
            spare.saturating_add(spare / 2)
        };
        if is_whole && run > 0 {
            println!(rt; "whole after {run} runs")?;
            break;
        }
    }
    assert!(rt; is_whole);
    Ok(())
}
