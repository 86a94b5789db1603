//! The ring of a thread that may end is closed.
use crate::body::Body;
use crate::ending::{Ending, Why};
use crate::links::Links;
use crate::remains::Remains;
use crate::thread::LightThread;
use lw_base::{Tag, Tagged};
use lw_ring::{Closing, RecvEnd, SendEnd};

// What is left of the links of a thread whose ring is closed.
#[derive(Drop)]
pub(crate) struct Unlinked<M: Tagged + Drop> {
    pub(crate) recv: RecvEnd<M>,
    pub(crate) ends: Vec<SendEnd<M>>,
    pub(crate) ran: Vec<Tag>,
}

// What came of a try to close a ring.
#[derive(Drop)]
pub(crate) enum Unlinking<M: Tagged + Drop> {
    Closed(Unlinked<M>),
    NotYet(Links<M>, u64),
}

impl<M: Tagged + Drop> Links<M> {
    ghost use Rattle.lw_thread.specs.Closings.{UnlinksAs};

    // Closes the ring, if all that was sent was taken and no sender is inside a send.
    pub(crate) fn close(self) -> Unlinking<M>
        ensures { UnlinksAs self result }
    {
        let Links {
            thread,
            mut recv,
            ends,
            ran,
            batch,
            gone,
        } = self;
        match recv.close() {
            Closing::Closed => Unlinking::Closed(Unlinked { recv, ends, ran }),
            Closing::NotYet { seen } => {
                let links = Links {
                    thread,
                    recv,
                    ends,
                    ran,
                    batch,
                    gone,
                };
                Unlinking::NotYet(links, seen)
            }
        }
    }
}

impl<B: Body> LightThread<B> {
    ghost use Rattle.std.specs.Prelude.{◌≡◌, false};
    ghost use Rattle.lw_place.specs.PlaceSeats.{IsList};
    ghost use Rattle.lw_thread.specs.Endings.{EndsAs, MayEnd};

    // Closes the ring of a thread that may end.
    pub(crate) fn close(self) -> Ending<B>
        requires place { IsList self.seat.place }
        requires going { self.stopped ≡ false }
        requires may { MayEnd B.ends self }
        ensures { EndsAs B.ends self result }
    {
        let LightThread {
            alloc,
            body,
            acts,
            links,
            mut seat,
            load,
            trail,
            stopped,
        } = self;
        match links.close() {
            Unlinking::Closed(Unlinked { recv, ends, ran }) => {
                seat.end();
                Ending::Ended(Remains {
                    body,
                    recv,
                    ends,
                    seat,
                    load,
                    ran,
                    trail,
                })
            }
            Unlinking::NotYet(links, seen) => {
                let same = LightThread {
                    alloc,
                    body,
                    acts,
                    links,
                    seat,
                    load,
                    trail,
                    stopped,
                };
                Ending::NotYet(same, Why::Ring { seen })
            }
        }
    }
}
