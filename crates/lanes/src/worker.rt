//! A worker's end of every lane.
ghost use Rattle.std.specs.Prelude.{◌≡◌, ◌<◌, ◌≤◌, false, vec_len, length, sum_by};
ghost use Rattle.lanes.specs.Ports.{held_at};

use crate::gate::{AtGate, Gate, Stepped, Watch};
use crate::port::{Held, Port};
use crate::signals::Signals;
use box_core::Work;
use crossbeam_deque::Steal;
use std::alloc::{AllocError, Global};
use std::marker::Model;
use std::sync::Arc;

/// A worker's end of every lane: it takes jobs, runs them, and sends their answers.
///
/// It belongs to one thread. No call of it waits for another thread.
#[derive(Drop)]
pub struct Worker<W: Work> {
    alloc: Global,
    pub(crate) ports: Vec<Port<W>>,
    // The lane that it looks at first: the one behind the last that gave a job.
    first: u32,
    // Whether it holds a job or an answer.
    holds: bool,
    signals: Arc<Signals>,
    ghost few: { vec_len ports ≤ 64 },
    // It holds at most one job or answer.
    ghost one: { sum_by (λ p. length (held_at p)) ports.items ≤ 1 },
    ghost free: { holds ≡ false → sum_by (λ p. length (held_at p)) ports.items ≡ 0 },
}

impl<W: Work> Model for Worker<W> {
    ghost use Rattle.lanes.specs.Ends.{WorkerEnd};

    ghost Value = { WorkerEnd W W.Out };

    ghost view = { λ worker. record { lanes = worker.ports.items } };
}

impl<W: Work> Worker<W> {
    ghost use Rattle.std.specs.Prelude.{◌≡◌, ◌<◌, ◌++◌, [], ◌∷◌, length, IfOk, IfSome, IfNone};
    ghost use Rattle.lanes.specs.Ports.{held_at};
    ghost use Rattle.lanes.specs.Steps.{Steps, HoldNothing, Holds};
    ghost use Rattle.lanes.specs.Watched.{Watches};
    ghost use Rattle.lanes.specs.Workers.{worker_links, ports_of};

    // A worker without a lane.
    pub(crate) fn without_lanes(alloc: Global, signals: Arc<Signals>) -> Worker<W>
        ensures { ports_of result ≡ [] }
    {
        Worker {
            alloc,
            ports: Vec::new(alloc),
            first: 0,
            holds: false,
            signals,
        }
    }

    // One lane more.
    pub(crate) fn add(&mut self, port: Port<W>) -> Result<(), AllocError>
        requires few { length (ports_of self.old) < 64 }
        requires free { held_at port ≡ [] }
        ensures { IfOk result (λ _. ports_of self.new ≡ ports_of self.old ++ port ∷ []) }
    {
        self.ports.push(port)?;
        Ok(())
    }

    // The last lane, out of the others.
    pub(crate) fn remove(&mut self) -> Option<Port<W>>
        ensures some { IfSome result (λ port. ports_of self.old ≡ ports_of self.new ++ port ∷ []) }
        ensures none { IfNone result ((ports_of self.old ≡ []) × (ports_of self.new ≡ [])) }
    {
        self.ports.pop()
    }

    /// What wakes the threads of all lanes.
    pub fn signals(&self) -> &Arc<Signals> {
        &self.signals
    }

    /// Does one step: what the worker holds is tried first, and is then the whole step. Otherwise it takes the oldest
    /// job of some lane, where one waits, runs it, and posts the answer. The lanes have their turns: it looks first at the
    /// lane behind the last that gave a job, and passes the lanes that nothing was put into since they were found empty. A
    /// step that finds nothing takes no memory.
    pub fn step<G: Gate>(&mut self, gate: &G) -> Stepped
        ensures same { worker_links self.new ≡ worker_links self.old }
        ensures steps { Steps (ports_of self.old) result (ports_of self.new) }
    {
        self.step_watched(&mut AtGate(gate))
    }

    /// The same. The watch is called before and after the run of the job at hand, with its lane and ticket, and not after a
    /// run that was refused memory, nor for an answer that was held.
    pub fn step_watched<V: Watch>(&mut self, watch: &mut V) -> Stepped
        ensures same { worker_links self.new ≡ worker_links self.old }
        ensures steps { Steps (ports_of self.old) result (ports_of self.new) }
        ensures seen { Watches V.entered V.left (ports_of self.old) result (ports_of self.new) watch.old watch.new }
    {
        let alloc = self.alloc;
        match self.held_lane() {
            Some(lane) => {
                let stepped = finish_held(&mut self.ports, alloc, watch, lane);
                self.holds = stepped.keeps();
                stepped
            }
            None => {
                let stepped = look(
                    &mut self.ports,
                    &mut self.first,
                    &self.signals,
                    alloc,
                    watch,
                );
                self.holds = stepped.keeps();
                stepped
            }
        }
    }

    // The lane for which something is held.
    fn held_lane(&self) -> Option<usize>
        ensures found { IfSome result (λ lane. (lane < length (ports_of self.now)) × Holds (ports_of self.now) lane) }
        ensures none { IfNone result (HoldNothing (ports_of self.now)) }
    {
        if !self.holds {
            return None;
        }
        first_held(&self.ports)
    }
}

ghost use Rattle.std.specs.Prelude.{◌≢◌, [], ℕ, All, IfSome, IfNone, slice_index_or};
ghost use Rattle.lanes.specs.Steps.{HoldNothing, Holds, Unchanged, Serves, ServesOne, Steps};
ghost use Rattle.lanes.specs.Watched.{Watches};

// The lane for which something is held.
fn first_held<W: Work>(ports: &Vec<Port<W>>) -> Option<usize>
    requires few { vec_len ports.now ≤ 64 }
    ensures found { IfSome result (λ lane. (lane < vec_len ports.now) × Holds ports.now.items lane) }
    ensures none { IfNone result (HoldNothing ports.now.items) }
{
    for lane in 0..ports.len() {
        let port = &ports[lane];
        match port.held {
            Held::Nothing => {}
            _ => return Some(lane),
        }
    }
    None
}

// Tries what is held again.
fn finish_held<W: Work, V: Watch>(
    ports: &mut Vec<Port<W>>,
    alloc: Global,
    watch: &mut V,
    lane: usize,
) -> Stepped
    requires lane { lane < vec_len ports.old }
    requires held { Holds ports.old.items lane }
    requires few { vec_len ports.old ≤ 64 }
    requires one { sum_by (λ p. length (held_at p)) ports.old.items ≤ 1 }
    ensures steps { Steps ports.old.items result ports.new.items }
    ensures seen { Watches V.entered V.left ports.old.items result ports.new.items watch.old watch.new }
{
    let port = &mut ports[lane];
    port.finish(alloc, watch, lane as u32)
}

// The lane of a turn, where 64 lanes have their turns in order from this one on.
fn lane_of(first: u32, turn: u32) -> u32
    ensures { result < 64 }
{
    first.wrapping_add(turn) % 64
}

// Takes a job of some lane that may hold one, and runs it.
fn look<W: Work, V: Watch>(
    ports: &mut Vec<Port<W>>,
    first: &mut u32,
    signals: &Signals,
    alloc: Global,
    watch: &mut V,
) -> Stepped
    requires nothing { HoldNothing ports.old.items }
    requires few { vec_len ports.old ≤ 64 }
    ensures steps { Steps ports.old.items result ports.new.items }
    ensures seen { Watches V.entered V.left ports.old.items result ports.new.items watch.old watch.new }
{
    let mut again = false;
    // The turns of the marked lanes that are left, a bit each.
    let mut turns = signals.marked().rotate_right(*first);
    while turns != 0 {
        let lane = lane_of(*first, turns.trailing_zeros());
        turns &= turns - 1;
        let Some(port) = ports.get_mut(lane as usize) else {
            continue;
        };
        match port.steal_marked(signals, lane) {
            Steal::Success(()) => {
                *first = lane + 1;
                return port.finish(alloc, watch, lane);
            }
            Steal::Retry => again = true,
            Steal::Empty => {}
        }
    }
    if again { Stepped::Again } else { Stepped::Idle }
}
