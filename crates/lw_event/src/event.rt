//! What one reactor sends to another.
ghost use Rattle.std.specs.Prelude.{◌≡◌, ℕ};
ghost use Rattle.lw_event.specs.declared.event.Event.TheVariants.{Arrive, Order};

use crate::letter::{EventLetter, Run};
use lw_base::{Tag, Tagged, What};
use lw_thread::{Body, LightThread};

/// An event. `sender` and `number` are set when it is sent: the reactor, and how many events it had sent to the same one before.
#[derive(Drop)]
pub enum Event<B: Body> {
    /// A light thread, whose number is `id`, comes to the reactor, by the order of this round.
    Arrive {
        sender: u32,
        number: u64,
        round: u32,
        id: u32,
        thread: LightThread<B>,
    },
    /// The reactor is to send the thread of this number to the reactor `to`, by the order of this round. In round 0 it is to start
    /// the thread, which it holds.
    Order {
        sender: u32,
        number: u64,
        round: u32,
        thread: u32,
        to: u32,
    },
}

impl<B: Body> Event<B> {
    /// An arrival that isn't sent yet.
    pub fn arrive(round: u32, thread: LightThread<B>) -> Event<B>
        ensures { result ≡ Arrive 0 0 round thread.seat.thread thread }
    {
        Event::Arrive {
            sender: 0,
            number: 0,
            round,
            id: thread.number(),
            thread,
        }
    }

    /// An order that isn't sent yet.
    pub fn order(round: u32, thread: u32, to: u32) -> Event<B>
        ensures { result ≡ Order 0 0 round thread to }
    {
        Event::Order {
            sender: 0,
            number: 0,
            round,
            thread,
            to,
        }
    }
}

impl<B: Body> Tagged for Event<B> {
    ghost use Rattle.std.specs.Prelude.{refl};
    ghost use Rattle.lw_event.specs.Letters.{tag_in, with_name};
    ghost use Rattle.lw_event.specs.Events.{letter_of, event_fits, named};

    type Letter = EventLetter;

    type Family = Run<<<B as Body>::Message as Tagged>::Family>;

    ghost letter = { letter_of };

    ghost tag_of = { tag_in };

    ghost fits = { event_fits };

    ghost marked = { with_name };

    ghost marked_tag = { λ x s n. refl };

    ghost marked_last = { λ x s n t k. refl };

    ghost marked_same = { λ x. refl };

    fn tag(&self) -> Tag {
        match self {
            Event::Arrive {
                sender,
                number,
                round,
                id,
                thread: _,
            } => Tag {
                sender: *sender,
                number: *number,
                what: What::Arrive {
                    round: *round,
                    thread: *id,
                },
            },
            Event::Order {
                sender,
                number,
                round,
                thread,
                to,
            } => Tag {
                sender: *sender,
                number: *number,
                what: What::Order {
                    round: *round,
                    thread: *thread,
                    to: *to,
                },
            },
        }
    }

    fn mark(&mut self, by: u32, count: u64)
        ensures letter { letter_of self.new ≡ with_name (letter_of self.old) by count }
        ensures fits { (to : ℕ) (run : _) → event_fits to run self.old → event_fits to run self.new }
        ensures named { self.new ≡ named self.old by count }
    {
        match self {
            Event::Arrive {
                sender,
                number,
                round: _,
                id: _,
                thread: _,
            } => {
                *sender = by;
                *number = count;
            }
            Event::Order {
                sender,
                number,
                round: _,
                thread: _,
                to: _,
            } => {
                *sender = by;
                *number = count;
            }
        }
    }
}
