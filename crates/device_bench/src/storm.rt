//! Eight seats, each on a machine thread of its own, give and release until they find the latch shut. A ninth does the same
//! for a while, shuts it, and fires.
ghost use Rattle.std.specs.Prelude.{◌≡◌, IfOk, All, length};
ghost use Rattle.device_bench.specs.Givers.{IsFresh, IsFreshSeat};

use crate::latched::give_once;
use lw_base::NoMemory;
use lw_latch::{DeviceSeat, Firing, Shutting, device_latch};
use std::alloc::Global;
use std::sync::Wait;
use std::thread;
use std::thread::Threads;

/// How often each seat gives at most.
const GIVES: u64 = 1_000_000_000;

/// From which ordinal on the ninth seat shuts the latch.
const SHUT_FROM: u64 = 200_000;

/// A seat, and the ordinals that it was given.
#[derive(Drop)]
struct Giver {
    seat: DeviceSeat,
    ordinals: Vec<u64>,
    /// Whether it found the latch shut.
    found_shut: bool,
}

/// Whether the eight found the latch shut, the ninth fired, and the ordinals given are those below the count that it was
/// told, each once.
pub fn is_whole<R: Threads + Wait + Sync>(rt: &R, alloc: Global) -> Result<bool, NoMemory> {
    let (givers, ninth) = new_givers(alloc)?;
    let (eight, ninth, given) = run_all(rt, givers, ninth);
    let Some(given) = given else { return Ok(false) };
    let mut seen = Vec::new(alloc);
    seen.resize(given as usize, false)?;
    let mut count = mark_all(&mut seen, &ninth.ordinals);
    for giver in eight.iter() {
        if !giver.found_shut {
            return Ok(false);
        }
        count = count.saturating_add(mark_all(&mut seen, &giver.ordinals));
    }
    Ok(count == given && !seen.contains(&false))
}

// Marks these ordinals, and answers how many there are.
fn mark_all(seen: &mut [bool], ordinals: &[u64]) -> u64 {
    for ordinal in ordinals {
        if let Some(place) = seen.get_mut(*ordinal as usize) {
            *place = true;
        }
    }
    ordinals.len() as u64
}

// Eight, and a ninth, of one latch.
fn new_givers(alloc: Global) -> Result<(Vec<Giver>, Giver), NoMemory>
    ensures eight { IfOk result (λ r. All IsFresh r.0.items) }
    ensures ninth { IfOk result (λ r. IsFresh r.1) }
{
    let mut seats = new_seats(alloc)?;
    let ninth = Giver::new(alloc, seats.pop().unwrap());
    let mut eight = Vec::new(alloc);
    for seat in seats {
        eight.push(Giver::new(alloc, seat))?;
    }
    Ok((eight, ninth))
}

fn new_seats(alloc: Global) -> Result<Vec<DeviceSeat>, NoMemory>
    ensures count { IfOk result (λ v. length v.items ≡ 9) }
    ensures fresh { IfOk result (λ v. All IsFreshSeat v.items) }
{
    device_latch(alloc, 9)
}

// The eight and the ninth, side by side.
fn run_all<R: Threads + Wait + Sync>(
    rt: &R,
    eight: Vec<Giver>,
    ninth: Giver,
) -> (Vec<Giver>, Giver, Option<u64>)
    requires { All IsFresh eight.items × IsFresh ninth }
{
    let (eight, (ninth, given)) = thread::join(
        rt,
        move ||
            requires { All IsFresh eight.items }
        { give_all(rt, eight) },
        move ||
            requires { IsFresh ninth }
        { ninth.shut_and_fire(rt) },
    );
    (eight, ninth, given)
}

fn give_all<R: Threads + Sync>(rt: &R, mut givers: Vec<Giver>) -> Vec<Giver>
    requires { All IsFresh givers.items }
{
    thread::for_each_mut(
        rt,
        givers.as_mut_slice(),
        8,
        &|_, giver| giver.give_until(GIVES),
    );
    givers
}

impl Giver {
    fn new(alloc: Global, seat: DeviceSeat) -> Self
        ensures { result.seat ≡ seat }
    {
        Giver {
            seat,
            ordinals: Vec::new(alloc),
            found_shut: false,
        }
    }

    // Gives and releases until it finds the latch shut, or its ordinal is at least this.
    fn give_until(&mut self, last: u64)
        requires { IsFresh self.old }
    {
        for round in 0..GIVES {
            let Some(ordinal) = give_once(&mut self.seat) else {
                self.found_shut = true;
                return;
            };
            if self.ordinals.push(ordinal).is_err() || last <= ordinal {
                return;
            }
        }
    }

    // Gives and releases for a while, shuts the latch, and fires. Answers how many were given, if it did both.
    fn shut_and_fire<R: Wait>(mut self, rt: &R) -> (Self, Option<u64>)
        requires { IsFresh self }
    {
        self.give_until(SHUT_FROM);
        let Shutting::Began { given } = self.seat.shut() else {
            return (self, None);
        };
        for _ in rt.forever() {
            if self.seat.fire() == Firing::Fired {
                return (self, Some(given));
            }
            thread::yield_now();
        }
        unreachable!()
    }
}
