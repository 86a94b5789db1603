//! The same two additions over a bare word, which lies alone on its cache line as a latch's does.
ghost use Rattle.std.specs.Prelude.{◌≡◌, ◌≤◌};

use atomic_table::{Play, Seat, Split, Table, TableRule};
use lw_base::NoMemory;
use lw_latch::device_word::{GIVEN, OPEN};
use lw_latch::own_line::{WORD, WORDS};
use std::alloc::Global;
use std::marker::Model;
use std::sync::Arc;
use std::thread;
use std::thread::Threads;

/// A rule that asks nothing, and a step that tells nothing.
struct Anything;

impl TableRule<(), (), ()> for Anything {
    ghost holds = { λ _ _. Unit {0} };

    ghost first = { λ _. tt };
}

impl Play<(), ()> for Anything {
    ghost then = { λ _ _ _ _. Unit {0} };
}

impl Split<()> for Anything {
    ghost left = { λ _. tt };

    ghost right = { λ _. tt };
}

type Word = Table<(), (), (), Anything, Global>;

/// A thread's seat at the word.
#[derive(Drop)]
struct Adder {
    word: Arc<Word, Global>,
    seat: Seat<(), ()>,
}

impl Model for Adder {
    ghost use Rattle.std.specs.Prelude.{◌≡◌};
    ghost use Rattle.std.specs.Arc.{arc_value};
    ghost use Rattle.lw_latch.specs.OwnLine.{table_words};

    ghost Value = { Unit {0} };

    ghost view = { λ _. tt };

    ghost invariant = { λ a. (a.seat.table_id ≡ (arc_value a.word).shared.table_id) × (a.seat.table_id.words ≡ table_words) };
}

impl Adder {
    fn new(alloc: Global) -> Result<Adder, NoMemory> {
        let (word, seat) = Word::of_words(alloc, &[0; WORDS], &())?;
        let word = Arc::new(alloc, word)?;
        Ok(Adder { word, seat })
    }

    // One more, of the same word.
    fn split(&mut self) -> Result<Adder, NoMemory> {
        let word = Arc::try_clone(&self.word)?;
        let seat = self.word.shared.split_seat::<Anything>(&mut self.seat);
        Ok(Adder { word, seat })
    }

    fn run(&mut self, rounds: u32) {
        for _ in 0..rounds {
            self.add_and_subtract();
        }
    }

    fn add_and_subtract(&mut self) {
        self.word
            .shared
            .fetch_add::<Anything>(&mut self.seat, WORD, GIVEN + OPEN);
        self.word
            .shared
            .fetch_sub::<Anything>(&mut self.seat, WORD, OPEN);
    }
}

/// So many rounds of each of so many machine threads, over one word.
pub fn run<R: Threads + Sync>(
    rt: &R,
    alloc: Global,
    rounds: u32,
    threads: u32,
) -> Result<(), NoMemory>
    requires { 1 ≤ threads }
{
    let mut adders = Vec::new(alloc);
    adders.push(Adder::new(alloc)?)?;
    for _ in 1..threads {
        let next = adders[0].split()?;
        adders.push(next)?;
    }
    thread::for_each_mut(
        rt,
        adders.as_mut_slice(),
        threads as usize,
        &|_, adder| adder.run(rounds),
    );
    Ok(())
}
