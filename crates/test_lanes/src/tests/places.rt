//! What a client that takes answers in tells those that wait for a place.
use super::{ANSWERED, Call, Nothing, Reply, Seen, Task, Ticket, are_seen, ends_of, seen_by};
use lanes::Client;
use std::process::Abort;
use std::sync::Arc;
use std::sync::atomic::AtomicU64;
use std::test::Fail;

/// Calls on two lanes, what they answer, and how often the clients of both had taken answers in after it.
const CALLS: &[(Call, Seen, [u64; 2])] = &[
    (Call::Submit(0, 10), Ticket(0), [0, 0]),
    (Call::Submit(0, 11), Ticket(1), [0, 0]),
    (Call::Poll(0), Nothing, [0, 0]),
    (Call::Step(0), ANSWERED, [0, 0]),
    (Call::Step(0), ANSWERED, [0, 0]),
    (Call::Poll(1), Nothing, [0, 0]),
    (Call::Poll(0), Reply(0, 10), [1, 0]),
    (Call::Poll(0), Reply(1, 11), [1, 0]),
    (Call::Submit(1, 20), Ticket(0), [1, 0]),
    (Call::Step(0), ANSWERED, [1, 0]),
    (Call::Poll(1), Reply(0, 20), [1, 1]),
];

fn have_taken(rt: &impl Abort, client: &Client<Task>, due: &[u64; 2]) {
    assert_eq!(rt; client.signals().takes(0), due[0]);
    assert_eq!(rt; client.signals().takes(1), due[1]);
}

#[test]
fn each_poll_that_takes_answers_in_is_counted(rt: HostRuntime) -> Result<(), Fail> {
    let alloc = rt.alloc();
    let runs = Arc::new(alloc, AtomicU64::new(0))?;
    let (mut clients, mut workers) = ends_of(alloc, 2, 1, 4)?;
    for (call, answer, taken) in CALLS {
        let seen = seen_by(alloc, &mut clients, &mut workers, &runs, &[*call])?;
        are_seen(&rt, &seen, &[*answer]);
        let Some(client) = clients.first() else {
            panic!(rt; "there are two clients");
        };
        have_taken(&rt, client, taken);
    }
    Ok(())
}
