//! What contracts see of an event, and of a run.
use std::marker::{Model, PhantomData};

/// What contracts see of an event: its tag and, of an arrival, the hops that its thread has made. No value of it is ever made.
pub struct EventLetter {
    of: (),
}

impl Model for EventLetter {
    ghost use Rattle.lw_event.specs.Letters.{Letter, no_letter};

    ghost Value = { Letter };

    ghost view = { λ _. no_letter };
}

/// Names a run: the ring of each of its threads, the family of their messages, the places and the cells of the figures. No
/// value of it is ever made; only contracts see it.
pub struct Run<F> {
    of: PhantomData<F>,
}

impl<F> Model for Run<F> {
    ghost use Rattle.lw_thread.specs.Runs.{RunId, no_run};

    ghost Value = { RunId F };

    ghost view = { λ _. no_run };
}
