//! A line that is cut. Whole inputs with their answers stand in the program's stored run.
use desk_lines::Counted;
use desk_replaying::replay;
use std::alloc::Global;
use std::test::Fail;

/// Whether these lines have these answers, and the input is read to its end.
fn says(alloc: Global, lines: &[u8], answers: &[u8]) -> bool {
    let mut reader = Counted::new(lines);
    let mut writer = Counted::new(Vec::new(alloc));
    let ended = replay(alloc, &mut reader, &mut writer);
    ended.is_ok() && writer.inner.as_slice() == answers
}

/// A line with a model of one decision.
const MODEL: &[u8] = b"\
{\"model\":{\"inputs\":[\"a\"],\"decisions\":[{\"name\":\"d\",\"needs\":[\"a\"],\"expr\":\"a + 1\"}],\"services\":[{\"name\":\"s\",\"outputs\":[\"d\"],\"encapsulated\":[],\"inputDecisions\":[],\"inputData\":[\"a\"]}]}}";

#[test]
fn a_model_that_is_cut_is_no_json_text(rt: HostRuntime) -> Result<(), Fail> {
    let refused = b"{\"line\":1,\"refused\":\"syntax\"}\n";
    for length in 1..MODEL.len() {
        assert!(rt; says(rt.alloc(), &MODEL[..length], refused), "{length}");
    }
    assert!(rt; says(rt.alloc(), MODEL, b"{\"line\":1,\"model\":true}\n"));
    Ok(())
}
