//! Answers under tickets that were never given, as many as come.
use desk_lines::Counted;
use desk_replaying::replay;
use std::alloc::{AllocError, Global};
use std::test::Fail;

/// How many answers come under the greatest ticket that a line can have.
const STRANGE: u64 = 10_000;

/// A request that was taken.
const TAKEN: &[u8] = b"\
{\"model\":{\"inputs\":[\"a\"],\"decisions\":[{\"name\":\"d\",\"needs\":[\"a\"],\"expr\":\"a + 1\"}],\"services\":[{\"name\":\"s\",\"outputs\":[\"d\"],\"encapsulated\":[],\"inputDecisions\":[],\"inputData\":[\"a\"]}]}}\n\
{\"open\":\"a\",\"capacity\":2}\n\
{\"submit\":\"a\",\"service\":\"s\",\"inputs\":{\"a\":4}}\n\
{\"take\":\"a\",\"ticket\":0}\n";

const ITS_REPORTS: &[u8] = b"\
{\"line\":1,\"model\":true}\n\
{\"client\":\"a\",\"line\":2,\"opened\":2}\n\
{\"accepted\":0,\"client\":\"a\",\"line\":3}\n\
{\"client\":\"a\",\"line\":4,\"taken\":0}\n";

/// The lines: the last but two has a ticket that is past the greatest.
fn lines(alloc: Global) -> Result<Vec<u8>, AllocError> {
    let mut lines = Vec::new(alloc);
    lines.extend_from_slice(TAKEN)?;
    for _ in 0..STRANGE {
        lines.extend_from_slice(b"{\"answer\":\"a\",\"ticket\":9223372036854775807}\n")?;
    }
    lines.extend_from_slice(b"{\"answer\":\"a\",\"ticket\":9223372036854775808}\n")?;
    lines.extend_from_slice(b"{\"answer\":\"a\",\"ticket\":0}\n{\"release\":\"a\"}\n")?;
    Ok(lines)
}

/// What is due to them.
fn reports(alloc: Global) -> Result<String, AllocError> {
    let mut due = String::new(alloc);
    for number in 5..5 + STRANGE {
        due.push_str(format!(in alloc;
            "{{\"client\":\"a\",\"line\":{number},\"refused\":\"strange\"}}\n"
        )?.as_str())?;
    }
    let number = 5 + STRANGE;
    let answered = 6 + STRANGE;
    due.push_str(format!(in alloc; "{{\"line\":{number},\"refused\":\"shape\"}}\n")?.as_str())?;
    due.push_str(format!(in alloc;
        "{{\"client\":\"a\",\"kept\":0,\"line\":{answered}}}\n"
    )?.as_str())?;
    due.push_str("{\"client\":\"a\",\"result\":5,\"ticket\":0}\n")?;
    Ok(due)
}

#[test]
fn tickets_that_were_never_given(rt: HostRuntime) -> Result<(), Fail> {
    let alloc = rt.alloc();
    let lines = lines(alloc)?;
    let due = reports(alloc)?;
    let mut reader = Counted::new(lines.as_slice());
    let mut writer = Counted::new(Vec::new(alloc));
    let ended = replay(alloc, &mut reader, &mut writer);
    let output = writer.inner;
    assert_eq!(rt; ended, Ok(()));
    assert_eq!(rt; output.strip_prefix(ITS_REPORTS), Some(due.as_bytes()));
    Ok(())
}
