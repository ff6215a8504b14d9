//! Runs in which a request for memory is refused, whichever it is.
use crate::script::{ANSWERS, LINES, is_lawful};
use desk_lines::Counted;
use desk_replaying::replay;
use std::alloc::{AllocError, Global};
use std::test::Fail;
use test_devices::Page;

/// Runs once, and answers whether the run was lawful, and whether it met no refusal.
fn run_once(alloc: Global) -> Result<(bool, bool), AllocError> {
    let mut reader = Counted::new(LINES);
    let mut writer = Counted::new(Page::empty());
    let ended = replay(alloc, &mut reader, &mut writer);
    let text = writer.inner.text();
    let is_lawful_run = match is_lawful(alloc, ended, text) {
        Ok(lawful) => lawful,
        Err(_) => is_lawful(alloc, ended, text)?,
    };
    Ok((is_lawful_run, ended == Ok(()) && text == ANSWERS))
}

/// With one request refused, whichever it is, one of two runs meets it, and the other is right.
#[test]
fn a_refused_replay(rt: HostRuntime) -> Result<(), Fail> {
    let (first_is_lawful, first_is_right) = run_once(rt.alloc())?;
    let (second_is_lawful, second_is_right) = run_once(rt.alloc())?;
    assert!(rt; first_is_lawful && second_is_lawful);
    assert!(rt; first_is_right || second_is_right);
    Ok(())
}
