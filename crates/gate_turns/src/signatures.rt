//! Threads that sign with their handles' numbers.
ghost use Rattle.std.specs.Prelude.{◌≡◌, ◌<◌, ◌≤◌, All, IfOk, OnOk, length};

use std::alloc::{AllocError, Global};
use std::snapshot::Snapshot;
use std::sync::Wait;
use std::thread;
use std::thread::Threads;
use turn_gate::{Chronicle, Deed, Gate, GateSeat};

/// A history of handle numbers.
#[derive(Drop)]
struct Signatures {
    numbers: Vec<u32>,
}

impl Chronicle for Signatures {
    type Entry = u32;

    type Origin = ();

    ghost origin = { λ _. tt };

    ghost entries = { λ s. s.numbers.items };

    ghost number = { λ e. e };
}

/// Signs with the handle's number.
#[derive(Drop)]
struct Sign {
    seat: Snapshot<GateSeat<Signatures>>,
}

impl Deed<Signatures> for Sign {
    type Out = Result<usize, AllocError>;

    ghost origin = { λ d. d.seat.value.origin };

    ghost known = { λ d. d.seat.value.observed };

    ghost relates = { λ _ _ out after. IfOk out (λ n. n ≡ length after) };

    fn act(self, value: &mut Signatures, desk: u32) -> Result<usize, AllocError> {
        value.numbers.push(desk)?;
        Ok(value.numbers.len())
    }
}

/// A thread's work: so many turns, and whether each was later than the one before.
#[derive(Drop)]
struct Worker {
    seat: GateSeat<Signatures>,
    turns: u32,
    in_order: bool,
}

fn work<R: Wait>(rt: &R, gate: &Gate<Signatures>, worker: &mut Worker)
    requires gate { worker.old.seat.gate ≡ gate.now }
    ensures gate { worker.new.seat.gate ≡ gate.now }
{
    let mut last = 0;
    for _ in 0..worker.turns {
        let sign = Sign {
            seat: Snapshot::of(&worker.seat),
        };
        match gate.turn(rt, &mut worker.seat, sign) {
            Ok(count) => {
                worker.in_order = worker.in_order && last < count;
                last = count;
            }
            Err(AllocError) => worker.in_order = false,
        }
    }
}

/// The handle numbers that threads signed with, in the order of their turns.
#[derive(Drop)]
pub struct Signed {
    pub numbers: Vec<u32>,
    /// Each thread's turns came one after the other, and none of them found no memory.
    pub in_order: bool,
}

/// The signatures that so many threads leave, with as many turns each: no number is above that of the threads.
///
/// An `Err` says that there is no memory for the lock or for the list of the threads.
pub fn signatures_of<R: Threads + Wait + Sync>(
    rt: &R,
    alloc: Global,
    threads: u32,
    turns: u32,
) -> Result<Signed, AllocError>
    requires { (0 < threads) × (threads < 100) }
    ensures { IfOk result (λ signed. All (λ number. number ≤ threads) signed.numbers.items) }
{
    let value = Signatures {
        numbers: Vec::new(alloc),
    };
    let Ok((gate, mut root)) = Gate::make(alloc, value) else {
        return Err(AllocError);
    };
    let mut workers = workers_of(&gate, &mut root, alloc, threads, turns)?;
    work_all(rt, &gate, workers.as_mut_slice());
    let in_order = join_all(&gate, &mut root, workers);
    let value = gate.close(rt, root);
    Ok(Signed {
        numbers: value.numbers,
        in_order,
    })
}

fn workers_of(
    gate: &Gate<Signatures>,
    root: &mut GateSeat<Signatures>,
    alloc: Global,
    threads: u32,
    turns: u32,
) -> Result<Vec<Worker>, AllocError>
    requires gate { root.old.gate ≡ gate.now }
    requires root { (root.old.number ≡ 0) × (root.old.given ≡ 0) × (threads < 100) }
    ensures gate { root.new.gate ≡ gate.now }
    ensures root { OnOk result ((root.new.number ≡ 0) × (root.new.given ≡ threads)) }
    ensures workers { IfOk result (λ ws. All (λ w. w.seat.gate ≡ gate.now) ws.items) }
{
    let mut workers = Vec::new(alloc);
    for _ in 0..threads {
        let seat = gate.seat(alloc, root)?;
        workers.push(Worker {
            seat,
            turns,
            in_order: true,
        })?;
    }
    Ok(workers)
}

fn work_all<R: Threads + Wait + Sync>(rt: &R, gate: &Gate<Signatures>, workers: &mut [Worker])
    requires gate { All (λ w. w.seat.gate ≡ gate.now) workers.old }
    ensures gate { All (λ w. w.seat.gate ≡ gate.now) workers.new }
{
    let threads = workers.len().max(1);
    thread::for_each_mut(
        rt,
        workers,
        threads,
        &|_, worker: &mut Worker| work(rt, gate, worker),
    );
}

fn join_all(
    gate: &Gate<Signatures>,
    root: &mut GateSeat<Signatures>,
    mut workers: Vec<Worker>,
) -> bool
    requires gate { (root.old.gate ≡ gate.now) × All (λ w. w.seat.gate ≡ gate.now) workers.items }
    ensures gate { root.new.gate ≡ gate.now }
    ensures same { (root.new.number ≡ root.old.number) × (root.new.given ≡ root.old.given) }
{
    let mut in_order = true;
    while let Some(worker) = workers.pop() {
        in_order = in_order && worker.in_order;
        gate.merge(root, worker.seat);
    }
    in_order
}
