//! Models are replaced while answers under others are out, and more models are read than are told apart by marks.
use crate::gate_tests::{Holding, TURNS};
use crate::marked_runs::serve_once_marked;
use crate::runs::{Ended, MODEL, is_due};
use desk_front::Options;
use lanes::OpenGate;
use std::alloc::{AllocError, Global};
use std::test::Fail;

/// Another model, of which no part is longer or shorter than in the first.
const OTHER: &str =
    r#"{"model":{"inputs":["a"],"decisions":[{"name":"d","needs":["a"],"expr":"a + 5"}],"services":[{"name":"s","outputs":["d"],"encapsulated":[],"inputDecisions":[],"inputData":["a"]}]}}"#;

const REQUEST: &str = r#"{"client":"a","service":"s","inputs":{"a":1}}"#;

const ONE: Options = Options {
    clients: 1,
    workers: 2,
    capacity: 4,
};

/// Lines, each with its end.
fn lines(alloc: Global, texts: &[&str]) -> Result<Vec<u8>, AllocError> {
    let mut input = Vec::new(alloc);
    for text in texts {
        input.extend_from_slice(text.as_bytes())?;
        input.push(b'\n')?;
    }
    Ok(input)
}

/// One request four times, each under another model than the one before, and the third under the first model once more. The
/// first answer is held until the second was given.
#[test]
fn models_replaced_while_answers_are_out(rt: HostRuntime) -> Result<(), Fail> {
    let alloc = rt.alloc();
    let texts = [
        MODEL, REQUEST, OTHER, REQUEST, MODEL, REQUEST, OTHER, REQUEST,
    ];
    let input = lines(alloc, &texts)?;
    let of_a =
        "{\"client\":\"a\",\"result\":2,\"ticket\":0}\n{\"client\":\"a\",\"result\":6,\"ticket\":1}\n{\"client\":\"a\",\"result\":2,\"ticket\":2}\n{\"client\":\"a\",\"result\":6,\"ticket\":3}\n";
    let of_none =
        "{\"line\":1,\"model\":true}\n{\"line\":3,\"model\":true}\n{\"line\":5,\"model\":true}\n{\"line\":7,\"model\":true}\n";
    for _ in 0..10 {
        let gate = Holding::new(alloc, 4, TURNS)?;
        let (ended, output) = serve_once_marked(
            alloc,
            &rt,
            input.as_slice(),
            Vec::new(alloc),
            &gate,
            ONE,
        );
        assert_eq!(rt; ended, Ended::Whole(1));
        assert!(rt; is_due(&output, &[("a", of_a), ("", of_none)]));
        assert!(rt; gate.was_patient());
    }
    Ok(())
}

/// How many models are read: more than get a mark.
const MODELS: u64 = 4_100;

#[test]
fn more_models_than_marks(rt: HostRuntime) -> Result<(), Fail> {
    let alloc = rt.alloc();
    let mut input = Vec::new(alloc);
    let mut of_none = String::new(alloc);
    for number in 1..=MODELS {
        input.extend_from_slice(MODEL.as_bytes())?;
        input.push(b'\n')?;
        let said = format!(in alloc; "{{\"line\":{number},\"model\":true}}\n")?;
        of_none.push_str(said.as_str())?;
    }
    input.extend_from_slice(&lines(alloc, &[REQUEST, REQUEST])?)?;
    let (ended, output) = serve_once_marked(
        alloc,
        &rt,
        input.as_slice(),
        Vec::new(alloc),
        &OpenGate,
        ONE,
    );
    let of_a =
        "{\"client\":\"a\",\"result\":2,\"ticket\":0}\n{\"client\":\"a\",\"result\":2,\"ticket\":1}\n";
    assert_eq!(rt; ended, Ended::Whole(1));
    assert!(rt; is_due(&output, &[("a", of_a), ("", of_none.as_str())]));
    Ok(())
}
