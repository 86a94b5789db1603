//! A place, and the word that holds it.
ghost use Rattle.std.specs.Prelude.{◌≡◌, ◌<◌};
ghost use Rattle.lw_place.specs.PlaceWord.{held_word, word_of, listed_place, place_of, start_place, IsWord};

/// The word of a thread that has ended.
const ENDED: u64 = 18_446_744_073_709_551_615;

/// The word of a thread that reactor 0 holds. Those of the other reactors follow.
const HELD: u64 = 64;

/// Where a light thread is when its run begins.
#[derive(Copy, Clone, PartialEq, Eq, Debug)]
pub enum Start {
    /// In the list of the reactor of this number.
    List(u32),
    /// Held by the reactor of this number, which doesn't poll it before it is started.
    Held(u32),
}

impl Start {
    // The place.
    pub(crate) fn place(self) -> Place
        ensures { result ≡ start_place self }
    {
        match self {
            Start::List(reactor) => Place::List(reactor),
            Start::Held(reactor) => Place::Held(reactor),
        }
    }
}

/// Where a light thread stands.
#[derive(Copy, Clone, PartialEq, Eq, Debug)]
pub enum Place {
    /// In the list of the reactor of this number.
    List(u32),
    /// In an event to the reactor of this number, which waits or is just being taken.
    Event(u32),
    /// Held by the reactor of this number, until it is started.
    Held(u32),
    /// Nowhere: it has ended.
    Ended,
}

impl Place {
    // Twice the reactor's number, and one more for an event; 64 and the reactor's number where it is held; the greatest
    // number where the thread has ended.
    pub(crate) fn word(self) -> u64
        ensures { result ≡ word_of self }
    {
        match self {
            Place::List(reactor) => 2 * (reactor as u64),
            Place::Event(reactor) => 2 * (reactor as u64) + 1,
            Place::Held(reactor) => HELD + reactor as u64,
            Place::Ended => ENDED,
        }
    }
}

// The place that the word of a thread in a list or an event holds.
fn listed(word: u64) -> Place
    requires { word < held_word }
    ensures { result ≡ listed_place word }
{
    let reactor = (word / 2) as u32;
    if word % 2 == 0 {
        Place::List(reactor)
    } else {
        Place::Event(reactor)
    }
}

// The place that a word holds.
pub(crate) fn place_in(word: u64) -> Place
    requires { IsWord word }
    ensures { result ≡ place_of word }
{
    if word == ENDED {
        return Place::Ended;
    }
    if word < HELD {
        listed(word)
    } else {
        Place::Held((word - HELD) as u32)
    }
}
