//! Numbers run by one worker and by many, and two workers that wait for each other.

ghost use Rattle.std.specs.Prelude.{◌≡◌, ◌<◌, ◌≤◌, ◌+◌, ◌*◌, ◌/◌, min, length, slice_index, IfOk};

use crew::{Job, Work, Workers, run_numbers};
use gate::{Gate, NoGate};
use list_of::ListOf;
use meeting::Meet;
use memory::NoMemory;
use std::alloc::Global;
use std::sync::atomic::{AtomicBool, AtomicU64, Ordering};
use std::test::Fail;
use std::thread::Threads;

/// Doubles numbers, and is refused memory at one of them.
#[derive(Drop)]
struct Doubles {
    count: u32,
    refused: Option<u32>,
    made: AtomicU64,
}

impl Doubles {
    fn new(count: u32) -> Doubles
        ensures { result.count ≡ count }
    {
        Doubles {
            count,
            refused: None,
            made: AtomicU64::new(0),
        }
    }

    fn refused_at(count: u32, number: u32) -> Doubles
        ensures { result.count ≡ count }
    {
        Doubles {
            count,
            refused: Some(number),
            made: AtomicU64::new(0),
        }
    }
}

/// How many runs were made. It stays at its greatest value.
#[derive(Drop)]
struct Counter {
    runs: u64,
}

impl Job<Counter, u64, u64> for Doubles {
    ghost use Rattle.std.specs.Prelude.{◌≡◌, ◌*◌, ◌-◌, ◌^◌, min, length, ⊤};
    ghost use Rattle.std.specs.List.{All};

    ghost count = { λ job. job.count };

    ghost fits = { λ _ _. ⊤ };

    ghost has_parts = { λ _ _. ⊤ };

    ghost owns = { λ _ _. ⊤ };

    ghost stands = { λ _ seat runs. All (λ run. run.1 ≡ 2 * run.0) runs × (seat.runs ≡ min (length runs) (2 ^ 64 - 1)) };

    ghost may_split = { λ _. ⊤ };

    fn own(&self, _alloc: Global) -> Result<u64, NoMemory> {
        Ok(0)
    }

    fn split(&self, _seat: &mut Counter) -> Counter {
        Counter { runs: 0 }
    }

    fn join_back(&self, seat: &mut Counter, other: Counter) {
        seat.runs = seat.runs.saturating_add(other.runs);
    }
}

/// Doubles a number.
fn double(job: &Doubles, own: &mut u64, seat: &mut Counter, number: u32) -> Result<u64, NoMemory>
    ensures value { IfOk result (λ end. end ≡ 2 * number) }
    ensures counted { IfOk result (λ end. seat.new.runs ≡ min (seat.old.runs + 1) 18446744073709551615) }
{
    if job.refused == Some(number) {
        return Err(NoMemory);
    }
    job.made.fetch_add(1, Ordering::SeqCst);
    *own = own.saturating_add(1);
    seat.runs = seat.runs.saturating_add(1);
    Ok(2 * u64::from(number))
}

/// Doubles all numbers.
fn double_all<R: Threads + Sync, C: Gate + Sync>(
    rt: &R,
    alloc: Global,
    crew: &mut Workers,
    job: &Doubles,
    count: u32,
    gate: &C,
    seat: &mut Counter,
) -> Result<ListOf<u64>, NoMemory>
    requires count { count ≡ job.now.count }
    requires none { seat.old.runs ≡ 0 }
{
    let run = |own: &mut u64, seat: &mut Counter, number: u32| -> Result<u64, NoMemory>
        ensures value { IfOk result (λ end. end ≡ 2 * number) }
        ensures counted { IfOk result (λ end. seat.exit.now.runs ≡ min (seat.entry.now.runs + 1) 18446744073709551615) }
    { double(job, own, seat, number) };
    let work = Work {
        job: &*job,
        run: &run,
        count,
    };
    let ends = run_numbers(rt, alloc, crew, &work, gate, seat)?;
    Ok(ends)
}

/// Whether the ends are the doubled numbers, in order.
fn are_doubled(ends: &ListOf<u64>, count: u32) -> bool {
    ends.len() == count as usize
        && ends
            .as_slice()
            .iter()
            .enumerate()
            .all(|(i, end)| i as u64 * 2 == *end)
}

#[test]
fn every_crew_gives_the_ends_in_order(rt: HostRuntime) -> Result<(), Fail> {
    for workers in [1, 2, 3, 64] {
        for count in [0, 1, 2, 64] {
            for steals in [false, true] {
                let job = Doubles::new(count);
                let mut crew = Workers::new(rt.alloc(), workers, steals)?;
                let mut seat = Counter { runs: 0 };
                let ends = double_all(&rt, rt.alloc(), &mut crew, &job, count, &NoGate, &mut seat)?;
                assert!(rt; are_doubled(&ends, count));
                assert_eq!(rt; seat.runs, u64::from(count));
            }
        }
    }
    Ok(())
}

#[test]
fn where_memory_is_refused_all_workers_are_taken_in(rt: HostRuntime) -> Result<(), Fail> {
    for workers in [1, 2, 3] {
        for steals in [false, true] {
            let job = Doubles::refused_at(64, 5);
            let mut crew = Workers::new(rt.alloc(), workers, steals)?;
            let mut seat = Counter { runs: 0 };
            let ends = double_all(&rt, rt.alloc(), &mut crew, &job, 64, &NoGate, &mut seat);
            assert!(rt; ends.is_err());
            assert_eq!(rt; seat.runs, job.made.load(Ordering::SeqCst));
            assert!(rt; seat.runs < 64);
        }
    }
    Ok(())
}

/// Asks that the turns of each of two workers follow one another.
#[derive(Drop)]
struct Rising {
    first: AtomicU64,
    second: AtomicU64,
    was_wrong: AtomicBool,
}

impl Rising {
    fn new() -> Rising {
        Rising {
            first: AtomicU64::new(0),
            second: AtomicU64::new(0),
            was_wrong: AtomicBool::new(false),
        }
    }

    /// How many passes there were.
    fn passes(&self) -> u64 {
        let first = self.first.load(Ordering::SeqCst);
        first.saturating_add(self.second.load(Ordering::SeqCst))
    }
}

impl Gate for Rising {
    fn pass(&self, worker: u32, turn: u64) {
        let next = if worker == 0 {
            &self.first
        } else {
            &self.second
        };
        if worker > 1 || turn != next.fetch_add(1, Ordering::SeqCst) {
            self.was_wrong.store(true, Ordering::SeqCst);
        }
    }
}

#[test]
fn turns_go_on_over_two_calls(rt: HostRuntime) -> Result<(), Fail> {
    for (workers, passes) in [(1, 5), (2, 7)] {
        for steals in [false, true] {
            let gate = Rising::new();
            let mut crew = Workers::new(rt.alloc(), workers, steals)?;
            for count in [2, 1] {
                let job = Doubles::new(count);
                let mut seat = Counter { runs: 0 };
                let ends = double_all(&rt, rt.alloc(), &mut crew, &job, count, &gate, &mut seat)?;
                assert!(rt; are_doubled(&ends, count));
            }
            assert!(rt; !gate.was_wrong.load(Ordering::SeqCst));
            assert_eq!(rt; gate.passes(), passes);
        }
    }
    Ok(())
}

/// Counts the passes of all workers.
#[derive(Drop)]
struct Passes {
    count: AtomicU64,
}

impl Gate for Passes {
    fn pass(&self, _worker: u32, _turn: u64) {
        self.count.fetch_add(1, Ordering::SeqCst);
    }
}

#[test]
fn each_worker_passes_before_each_number_and_once_more(rt: HostRuntime) -> Result<(), Fail> {
    for (workers, passes) in [(1, 8), (3, 10)] {
        for steals in [false, true] {
            let gate = Passes {
                count: AtomicU64::new(0),
            };
            let mut crew = Workers::new(rt.alloc(), workers, steals)?;
            let job = Doubles::new(7);
            let mut seat = Counter { runs: 0 };
            let ends = double_all(&rt, rt.alloc(), &mut crew, &job, 7, &gate, &mut seat)?;
            assert!(rt; are_doubled(&ends, 7));
            assert_eq!(rt; gate.count.load(Ordering::SeqCst), passes);
        }
    }
    Ok(())
}

#[test]
fn two_workers_meet(rt: HostRuntime) -> Result<(), Fail> {
    for steals in [false, true] {
        let job = Doubles::new(4);
        let mut crew = Workers::new(rt.alloc(), 2, steals)?;
        let mut seat = Counter { runs: 0 };
        let gate = Meet::new();
        let ends = double_all(&rt, rt.alloc(), &mut crew, &job, 4, &gate, &mut seat)?;
        assert!(rt; are_doubled(&ends, 4));
        assert!(rt; gate.was_passed());
    }
    Ok(())
}

/// Halves the numbers of a list, for which the workers share nothing.
#[derive(Drop)]
struct Halves<'a> {
    numbers: &'a [u32],
}

impl<'a> Job<(), (), u32> for Halves<'a> {
    ghost use Rattle.std.specs.Prelude.{◌≡◌, ◌/◌, length, slice_index, ⊤};
    ghost use Rattle.std.specs.List.{All};

    ghost count = { λ job. length job.numbers.now };

    ghost fits = { λ _ _. ⊤ };

    ghost has_parts = { λ _ _. ⊤ };

    ghost owns = { λ _ _. ⊤ };

    ghost stands = { λ job _ runs. All (λ run. run.1 ≡ slice_index job.numbers.now run.0 / 2) runs };

    ghost may_split = { λ _. ⊤ };

    fn own(&self, _alloc: Global) -> Result<(), NoMemory> {
        Ok(())
    }

    fn split(&self, _seat: &mut ()) {}

    fn join_back(&self, _seat: &mut (), _other: ()) {}
}

/// Halves all numbers.
fn halve_all<R: Threads + Sync>(
    rt: &R,
    alloc: Global,
    crew: &mut Workers,
    job: &Halves<'_>,
    count: u32,
) -> Result<ListOf<u32>, NoMemory>
    requires { count ≡ length job.now.numbers.now }
{
    let run = |_own: &mut (), _seat: &mut (), number: u32| -> Result<u32, NoMemory>
        requires { number < length job.now.numbers.now }
        ensures { IfOk result (λ end. end ≡ slice_index job.entry.now.numbers.now number / 2) }
    { Ok(job.numbers[number as usize] / 2) };
    let work = Work {
        job: &*job,
        run: &run,
        count,
    };
    let ends = run_numbers(rt, alloc, crew, &work, &NoGate, &mut ())?;
    Ok(ends)
}

#[test]
fn workers_may_share_nothing(rt: HostRuntime) -> Result<(), Fail> {
    let numbers = [9, 8, 1, 0, 7];
    for steals in [false, true] {
        let mut crew = Workers::new(rt.alloc(), 2, steals)?;
        let job = Halves { numbers: &numbers };
        let ends = halve_all(&rt, rt.alloc(), &mut crew, &job, 5)?;
        assert_eq!(rt; ends.as_slice(), [4, 4, 0, 0, 3].as_slice());
    }
    Ok(())
}
