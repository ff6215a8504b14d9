//! Readers while the heap refuses requests for memory.
use feel_lang::{ReadFault, is_name, read_expr, read_literal, read_tests};
use std::alloc::{AllocError, Global};
use std::process::Abort;
use std::test::Fail;
use test_devices::FullHeap;

/// Sizes of what the heap still gives, from nothing to more than enough.
const SPARES: &[usize] = &[0, 1040, 1600, 2080, 4096, 16384, 65536];

/// Why one of the three readers doesn't read the text.
fn fault(alloc: Global, reader: &str, text: &str) -> Option<ReadFault> {
    match reader {
        "expression" => read_expr(alloc, text).err(),
        "tests" => read_tests(alloc, text).err(),
        _ => read_literal(alloc, text).err(),
    }
}

/// Readers with texts that they read.
const TEXTS: &[(&str, &str)] = &[
    (
        "expression",
        "[a.b, -\"c\", if 1 < 2 then modulo(3, 4) else not(d between 5 and 6)]",
    ),
    ("tests", "not(< 1, [2..a], \"b\", (3))"),
    ("tests", "(1..5], \"a\", not(2), > b"),
    ("literal", "\"a long enough text\""),
    ("literal", "-5"),
];

/// Why the reader doesn't read the text while the heap gives no more than this.
fn fault_within(
    rt: &impl Abort,
    alloc: Global,
    spare: usize,
    reader: &str,
    text: &str,
) -> Result<Option<ReadFault>, AllocError> {
    let full = FullHeap::but(alloc, spare)?;
    let found = fault(alloc, reader, text);
    assert!(rt; full.blocks() > 0);
    Ok(found)
}

/// A reading is whole, or says that it found no memory; it is whole once the heap gives again.
fn is_whole_or_refused(
    rt: &impl Abort,
    alloc: Global,
    spare: usize,
    reader: &str,
    text: &str,
) -> Result<(), AllocError> {
    let found = fault_within(rt, alloc, spare, reader, text)?;
    assert!(rt; spare > 0 || found == Some(ReadFault::Memory));
    assert!(rt; spare < 65536 || found.is_none());
    assert!(rt; found != Some(ReadFault::Syntax), "at {spare}");
    assert_eq!(rt; fault(alloc, reader, text), None);
    Ok(())
}

#[test]
fn a_text_is_read_whole_or_refused(rt: HostRuntime) -> Result<(), Fail> {
    for (reader, text) in TEXTS {
        for spare in SPARES {
            is_whole_or_refused(&rt, rt.alloc(), *spare, reader, text)?;
        }
    }
    Ok(())
}

#[test]
fn a_name_is_told_without_memory(rt: HostRuntime) -> Result<(), Fail> {
    let full = FullHeap::but(rt.alloc(), 0)?;
    let name = is_name("rate");
    let keyword = is_name("then");
    drop(full);
    assert!(rt; name && !keyword);
    Ok(())
}
