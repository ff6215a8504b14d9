//! Devices that give and take bytes in pieces, or fail at some call, and heaps that refuse.
use crate::runs::{Ended, FEW, MODEL, is_begun, is_due, serve_once, with_model};
use desk_front::{FrontFault, Options};
use lanes::OpenGate;
use std::alloc::Global;
use std::process::Abort;
use std::sync::Wait;
use std::test::Fail;
use std::thread::Threads;
use test_devices::{FullHeap, ONE_BYTE, Page, Pieces, Sips, WELL, Way, lines_in};

/// Lines behind the model, each of which has one answer.
const TWO_LINES: &str = r#"{"client":"a","service":"s","inputs":{"a":1}}
{"client":"a","close":true}
"#;

const THEIR_DUE: [(&str, &str); 3] = [
    (
        "a",
        r#"{"client":"a","result":2,"ticket":0}
{"client":"a","closed":true,"line":3}
"#,
    ),
    ("b", ""),
    ("", "{\"line\":1,\"model\":true}\n"),
];

/// More of them.
const LINES: &str = r#"{"client":"a","service":"s","inputs":{"a":1}}
{"client":"b","service":"s","inputs":{"a":10}}
{"client":"a","service":"s","inputs":{"a":2}}
{"client":"a","service":"s","inputs":{"a":1.5}}
{"resize":"b","capacity":1}
{"client":"b","service":"s","inputs":{"a":11}}
{"client":"b","service":"s","inputs":{"a":12}}
{"client":"a","close":true}
{"client":"a","service":"s","inputs":{}}
no json
{"client":"b","service":"s","inputs":{}}
"#;

const DUE: [(&str, &str); 3] = [
    (
        "a",
        r#"{"client":"a","result":2,"ticket":0}
{"client":"a","result":3,"ticket":1}
{"client":"a","line":5,"refused":"value"}
{"client":"a","closed":true,"line":9}
{"client":"a","line":10,"refused":"closed"}
"#,
    ),
    (
        "b",
        r#"{"client":"b","result":11,"ticket":0}
{"client":"b","line":6,"resized":1}
{"client":"b","result":12,"ticket":1}
{"client":"b","result":13,"ticket":2}
{"client":"b","result":null,"ticket":3}
"#,
    ),
    (
        "",
        r#"{"line":1,"model":true}
{"line":11,"refused":"syntax"}
"#,
    ),
];

fn served_by<T: Threads + Wait + Sync>(
    alloc: Global,
    rt: &T,
    text: &[u8],
    reads: Way,
    writes: Way,
) -> (Ended, Vec<u8>) {
    let reader = Pieces::new(text, reads);
    let writer = Sips::new(alloc, writes);
    let (ended, writer) = serve_once(alloc, rt, reader, writer, &OpenGate, FEW);
    (ended, writer.taken)
}

#[test]
fn devices_may_give_and_take_in_pieces(rt: HostRuntime) -> Result<(), Fail> {
    let text = with_model(rt.alloc(), LINES.as_bytes())?;
    for (reads, writes) in [
        (WELL, WELL),
        (ONE_BYTE, WELL),
        (WELL, ONE_BYTE),
        (ONE_BYTE, ONE_BYTE),
    ] {
        let (ended, output) = served_by(rt.alloc(), &rt, &text, reads, writes);
        assert_eq!(rt; ended, Ended::Whole(4));
        assert!(rt; is_due(&output, &DUE));
    }
    Ok(())
}

/// An input, what is due to it, and the most bytes that a device gives or takes of it at a call.
type Case = (&'static str, [(&'static str, &'static str); 3], usize);

const CASES: [Case; 3] = [
    (TWO_LINES, THEIR_DUE, 1),
    (LINES, DUE, 7),
    (LINES, DUE, 100),
];

/// Whether all is answered, or the reader failed behind so many bytes and the lines that came whole are answered, and no other.
fn is_right_reading(
    ended: Ended,
    output: &[u8],
    text: &[u8],
    due: &[(&str, &str)],
    came: usize,
) -> bool {
    match ended {
        Ended::Whole(4) => is_due(output, due),
        Ended::Failed(FrontFault::Read) => {
            is_begun(output, due)
                && lines_in(output) == lines_in(&text[..came.min(text.len())])
                && matches!(output.last(), None | Some(b'\n'))
        }
        _ => false,
    }
}

/// Whether all is answered, or the writer failed and there is a beginning of it.
fn is_right_writing(ended: Ended, output: &[u8], due: &[(&str, &str)]) -> bool {
    match ended {
        Ended::Whole(4) => is_due(output, due),
        Ended::Failed(FrontFault::Write) => is_begun(output, due),
        _ => false,
    }
}

/// Whether all is read before the reader fails.
fn ends_reading<T: Threads + Wait + Sync + Abort>(
    alloc: Global,
    rt: &T,
    text: &[u8],
    due: &[(&str, &str)],
    way: Way,
) -> bool {
    let (ended, output) = served_by(alloc, rt, text, way, WELL);
    let came = (way.fails_at as usize)
        .saturating_sub(1)
        .saturating_mul(way.most);
    assert!(rt;
        is_right_reading(ended, &output, text, due, came),
        "{} {}",
        way.most,
        way.fails_at
    );
    ended == Ended::Whole(4)
}

/// Whether all is written before the writer fails.
fn ends_writing<T: Threads + Wait + Sync + Abort>(
    alloc: Global,
    rt: &T,
    text: &[u8],
    due: &[(&str, &str)],
    reads: Way,
    way: Way,
) -> bool {
    let (ended, output) = served_by(alloc, rt, text, reads, way);
    assert!(rt;
        is_right_writing(ended, &output, due),
        "{} {}",
        way.most,
        way.fails_at
    );
    ended == Ended::Whole(4)
}

/// The first run that meets no fault is the last.
#[test]
fn a_reader_may_fail_at_any_call(rt: HostRuntime) -> Result<(), Fail> {
    for (lines, due, most) in CASES {
        let text = with_model(rt.alloc(), lines.as_bytes())?;
        for fails_at in 1..1000 {
            if ends_reading(rt.alloc(), &rt, &text, &due, Way { most, fails_at }) {
                break;
            }
        }
    }
    Ok(())
}

#[test]
fn a_writer_may_fail_at_any_call(rt: HostRuntime) -> Result<(), Fail> {
    for reads in [WELL, ONE_BYTE] {
        for (lines, due, most) in CASES {
            let text = with_model(rt.alloc(), lines.as_bytes())?;
            for fails_at in 1..1000 {
                if ends_writing(rt.alloc(), &rt, &text, &due, reads, Way { most, fails_at }) {
                    break;
                }
            }
        }
    }
    Ok(())
}

/// Where both fail the writer's fault is told.
#[test]
fn a_fault_of_the_writer_is_told_before_one_of_the_reader(rt: HostRuntime) -> Result<(), Fail> {
    let text = with_model(rt.alloc(), LINES.as_bytes())?;
    for (most, fails_at) in [(0, 0), (5, 1), (5, 2)] {
        let reads = Way {
            most: 300,
            fails_at: 2,
        };
        let (ended, output) = served_by(rt.alloc(), &rt, &text, reads, Way { most, fails_at });
        assert_eq!(rt; ended, Ended::Failed(FrontFault::Write));
        assert!(rt; is_begun(&output, &DUE));
        assert_eq!(rt;
            output.len(),
            most.saturating_mul(fails_at.saturating_sub(1) as usize)
        );
    }
    Ok(())
}

const TWO: Options = Options {
    clients: 2,
    workers: 2,
    capacity: 1,
};

/// Runs once, and answers how it ended, if it was lawful: all that is due was written, or memory was refused behind a whole
/// line.
fn lawful_end<T: Threads + Wait + Sync>(alloc: Global, rt: &T, input: &[u8]) -> Option<Ended> {
    let (ended, page) = serve_once(alloc, rt, input, Page::empty(), &OpenGate, TWO);
    let text = page.text();
    let is_whole = text.is_empty() || text.ends_with(b"\n".as_slice());
    let is_lawful = match ended {
        Ended::Whole(ends) => ends == 2 && is_due(text, &DUE),
        Ended::Failed(FrontFault::Memory) => is_whole && is_begun(text, &DUE),
        _ => false,
    };
    if is_lawful { Some(ended) } else { None }
}

/// With one request refused, whichever it is, at most one of two runs meets it, and the other is right. A worker that meets it
/// tries again, so that both may be right.
#[test]
fn a_refused_serve(rt: HostRuntime) -> Result<(), Fail> {
    let alloc = rt.alloc();
    let input = match with_model(alloc, LINES.as_bytes()) {
        Ok(input) => input,
        Err(_) => with_model(alloc, LINES.as_bytes())?,
    };
    let first = lawful_end(alloc, &rt, &input);
    let second = lawful_end(alloc, &rt, &input);
    assert!(rt; first.is_some() && second.is_some());
    assert!(rt; first == Some(Ended::Whole(2)) || second == Some(Ended::Whole(2)));
    println!(rt; "refused: {}", first != second)?;
    Ok(())
}

/// Where the heap gives nothing, nothing is written.
#[test]
fn a_full_heap_ends_a_run(rt: HostRuntime) -> Result<(), Fail> {
    let alloc = rt.alloc();
    let full = FullHeap::but(alloc, 0)?;
    let (ended, page) = serve_once(alloc, &rt, MODEL.as_bytes(), Page::empty(), &OpenGate, TWO);
    drop(full);
    assert_eq!(rt; ended, Ended::Failed(FrontFault::Memory));
    assert!(rt; page.text().is_empty());
    Ok(())
}

/// Where the heap gives little, a run is right, or ends behind a whole line: also where the model is read and no worker finds
/// memory for a request.
#[test]
fn a_heap_that_gives_little(rt: HostRuntime) -> Result<(), Fail> {
    let alloc = rt.alloc();
    let input = with_model(alloc, TWO_LINES.as_bytes())?;
    // With the whole heap first: the stack grows to its size then, which it can't where the address space is full.
    let (whole, _) = serve_once(alloc, &rt, input.as_slice(), Page::empty(), &OpenGate, TWO);
    assert_eq!(rt; whole, Ended::Whole(2));
    for spare in [1_000, 10_000, 100_000, 1_000_000, 10_000_000, 100_000_000] {
        let full = FullHeap::but(alloc, spare)?;
        let (ended, page) = serve_once(alloc, &rt, input.as_slice(), Page::empty(), &OpenGate, TWO);
        drop(full);
        let text = page.text();
        if ended == Ended::Whole(2) {
            assert!(rt; is_due(text, &THEIR_DUE), "{spare}");
        } else {
            assert_eq!(rt; ended, Ended::Failed(FrontFault::Memory), "{spare}");
            assert!(rt; is_begun(text, &THEIR_DUE), "{spare}");
            assert!(rt;
                text.is_empty() || text.ends_with(b"\n".as_slice()),
                "{spare}"
            );
        }
        println!(rt; "{spare}: {ended:?}")?;
    }
    Ok(())
}
