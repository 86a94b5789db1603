//! The orders of all rounds, to be looked up by round, thread and reactor.
ghost use Rattle.std.specs.Prelude.{◌≡◌, ◌||◌, [], List, IfOk, OnOk};
ghost use Rattle.lw_base.specs.declared.moves.Hop.{Hop};
ghost use Rattle.lw_model.specs.declared.record.Record.{Record};
ghost use Rattle.lw_model.specs.Moves.{hop_fits, is_ordered};
ghost use Rattle.lw_judge_threads.specs.Firsts.{first_unfit};
ghost use Rattle.lw_judge_rounds.specs.OrdersOf.{AreOrders, is_in_round, knows, least_round};
ghost use Rattle.lw_judge_rounds.specs.declared.orders.Move.{Move};

use lw_base::{Hop, NoMemory, Round};
use std::alloc::Global;
use std::collections::HashSet;

/// A move that a round orders.
#[derive(Copy, Clone, PartialEq, Eq, Hash)]
pub struct Move {
    /// The number of the round.
    pub round: u32,
    pub thread: u32,
    pub to: u32,
}

/// The moves that all rounds order. A number may be that of several rounds, in whatever order these stand.
#[derive(Drop)]
pub struct Orders {
    moves: HashSet<Move>,
}

impl Orders {
    /// What these rounds order.
    pub fn of(alloc: Global, rounds: &[Round]) -> Result<Self, NoMemory>
        ensures { IfOk result (AreOrders rounds.now) }
    {
        let mut orders = Orders {
            moves: HashSet::new(alloc),
        };
        for round in rounds {
            orders.add(round)?;
        }
        Ok(orders)
    }

    /// The place of the first hop of a thread that isn't of a later round than the hop before it, or that no round with
    /// its number orders.
    pub fn unfit_hop(&self, thread: u32, hops: &[Hop]) -> Option<usize>
        ensures { (r : Record) → AreOrders r.rounds self.now
            → result ≡ first_unfit (hop_fits r thread) 0 [] hops.now }
    {
        let mut least = 0;
        for (place, hop) in hops.iter().enumerate() {
            if !self.fits(thread, least, hop) {
                return Some(place);
            }
            least = hop.round as u64 + 1;
        }
        None
    }

    // Adds the orders of one round more.
    fn add(&mut self, round: &Round) -> Result<(), NoMemory>
        ensures { OnOk result ((m : Move) → knows self.new m ≡ (knows self.old m || is_in_round m round.now)) }
    {
        for order in round.orders.as_slice() {
            self.moves.insert(Move {
                round: round.number,
                thread: order.thread,
                to: order.to,
            })?;
        }
        Ok(())
    }

    // Whether a hop of a thread is of a round from `least` on, and is ordered.
    fn fits(&self, thread: u32, least: u64, hop: &Hop) -> bool
        ensures { (r : Record) (past : List Hop) → AreOrders r.rounds self.now → least ≡ least_round past
            → result ≡ hop_fits r thread past hop.now }
    {
        hop.round as u64 >= least && self.has(thread, hop)
    }

    // Whether a round with the hop's number orders it of the thread.
    fn has(&self, thread: u32, hop: &Hop) -> bool
        ensures { (r : Record) → AreOrders r.rounds self.now → result ≡ is_ordered r thread hop.now }
    {
        self.moves.contains(&Move {
            round: hop.round,
            thread,
            to: hop.reactor,
        })
    }
}
