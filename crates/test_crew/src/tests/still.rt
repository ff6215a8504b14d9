//! A host that stands still while workers hold answers for which there is no place.
use super::{ASLEEP, Asking, Task, Until, ends_of};
use crew::{Crew, Host, beside};
use lanes::OpenGate;
use std::alloc::AllocError;
use std::process::Abort;
use std::sync::Wait;
use std::test::Fail;
use std::thread::{self, Parker};
use std::time::Duration;

// Puts so many requests of the first client, which has a place for each.
fn put_all<R: Wait>(rt: &R, asking: &mut Asking, requests: u64) -> Result<(), AllocError> {
    for number in 0..requests {
        let task = Task {
            number,
            is_too_large: false,
        };
        asking.put(rt, 0, task)?;
    }
    Ok(())
}

// Takes results until all requests have theirs.
fn take_all<R: Wait>(rt: &R, asking: &mut Asking) -> Result<(), AllocError> {
    for _ in rt.forever() {
        if asking.is_whole() {
            break;
        }
        asking.take(0)?;
        thread::yield_now();
    }
    Ok(())
}

fn stand_still<R: Wait>(rt: &R, millis: u64) {
    Parker::new().park_timeout(rt, Duration::from_millis(millis));
}

/// How many requests are put: more than eight workers have places for and hold, which is forty.
const MORE: u64 = 60;
/// How long the host stands still, in milliseconds.
const STILL: u64 = 200;
/// How often eight workers may find their rings full meanwhile: each a few times before it sleeps, and ten times a second then.
const FEW: u64 = 200;

/// Puts requests, stands still, and then takes the results.
#[derive(Drop)]
struct Standing {
    asking: Asking,
    // How often a worker had found its ring full once one had, and when the host went on.
    asleep: u64,
    awake: u64,
}

impl Host for Standing {
    type Out = Result<(), AllocError>;

    ghost ready = { λ _. Unit {0} };

    ghost done = { λ _ _ _. Unit {0} };

    fn run<R: Wait>(&mut self, rt: &R, crew: &Crew) -> Result<(), AllocError> {
        put_all(rt, &mut self.asking, MORE)?;
        crew.signals().go_away();
        for _ in rt.forever() {
            stand_still(rt, ASLEEP);
            if crew.signals().times_full() > 0 {
                break;
            }
        }
        self.asleep = crew.signals().times_full();
        stand_still(rt, STILL);
        self.awake = crew.signals().times_full();
        take_all(rt, &mut self.asking)
    }
}

// Whether these are the results of so many requests, in their order.
fn are_results(outcomes: &[u64], requests: u64) -> bool {
    let mut due: u64 = 0;
    for outcome in outcomes {
        if *outcome != due {
            return false;
        }
        due = due.wrapping_add(1);
    }
    due == requests
}

#[test]
fn workers_sleep_over_answers_while_the_host_stands_still(rt: HostRuntime) -> Result<(), Fail> {
    let alloc = rt.alloc();
    let (clients, workers) = ends_of(alloc, 1, 8, 64)?;
    let mut host = Standing {
        asking: Asking::of(alloc, clients, Until::Whole)?,
        asleep: 0,
        awake: 0,
    };
    let (ran, _) = beside(&rt, &OpenGate, workers, &mut host)?;
    ran?;
    assert!(rt; host.awake.saturating_sub(host.asleep) < FEW);
    assert_eq!(rt; host.asking.outcomes.len(), 1);
    for outcomes in &host.asking.outcomes {
        assert!(rt; are_results(outcomes, MORE));
    }
    Ok(())
}
