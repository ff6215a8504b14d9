//! `replay` over heaps of growing room.
use crate::script::{ANSWERS, LINES, is_lawful};
use desk_lines::{Counted, FrontFault};
use desk_replaying::replay;
use std::alloc::{AllocError, Global};
use std::process::Abort;
use std::test::Fail;
use test_devices::{FullHeap, Page};

/// How a run ends, and what it writes, where the heap gives no more than this.
fn ran_within(alloc: Global, spare: usize) -> Result<(Result<(), FrontFault>, Page), AllocError> {
    let mut reader = Counted::new(LINES);
    let mut writer = Counted::new(Page::empty());
    let full = FullHeap::but(alloc, spare)?;
    let ended = replay(alloc, &mut reader, &mut writer);
    drop(full);
    Ok((ended, writer.inner))
}

/// Whether all answers are written, where the heap gives no more than this. If not, what is written may stand there.
fn is_whole_within(rt: &impl Abort, alloc: Global, spare: usize) -> Result<bool, AllocError> {
    let (ended, page) = ran_within(alloc, spare)?;
    assert!(rt; is_lawful(alloc, ended, page.text())?, "{spare}");
    Ok(ended == Ok(()) && page.text() == ANSWERS)
}

/// The room grows by an eighth from run to run, until nothing is refused. With enough room first: the stack grows to its size then,
/// which it can't where the address space is full.
#[test]
fn replay_over_growing_heaps(rt: HostRuntime) -> Result<(), Fail> {
    assert!(rt; is_whole_within(&rt, rt.alloc(), 100_000_000)?);
    let mut is_whole = false;
    let mut spare: usize = 256;
    for _ in 0..100usize {
        is_whole = is_whole_within(&rt, rt.alloc(), spare)?;
        if is_whole {
            println!(rt; "whole with {spare} bytes")?;
            break;
        }
        spare = spare.saturating_add(spare / 8);
    }
    assert!(rt; is_whole);
    Ok(())
}
