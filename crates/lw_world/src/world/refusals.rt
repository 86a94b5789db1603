//! Which events a world refuses, and why.
ghost use Rattle.std.specs.Prelude.{◌≡◌};
ghost use Rattle.lw_world.specs.World.{refusal_of};

use crate::world::World;
use crate::world_event::{WorldEvent, WorldRefusal};

impl World {
    fn send_refusal(&self, sender: u32, receiver: u32) -> Option<WorldRefusal>
        ensures { result ≡ refusal_of self.now (WorldEvent.Send sender receiver) }
    {
        if !self.are_threads(sender, receiver) {
            Some(WorldRefusal::Unknown)
        } else if self.is_ended(receiver) {
            Some(WorldRefusal::Exited)
        } else if !self.acts(sender) {
            Some(WorldRefusal::NotHere)
        } else {
            None
        }
    }

    fn run_refusal(&self, receiver: u32, sender: u32) -> Option<WorldRefusal>
        ensures { result ≡ refusal_of self.now (WorldEvent.Run receiver sender) }
    {
        if !self.are_threads(sender, receiver) {
            Some(WorldRefusal::Unknown)
        } else if self.is_run(sender, receiver) {
            Some(WorldRefusal::Nothing)
        } else if !self.acts(receiver) {
            Some(WorldRefusal::NotHere)
        } else {
            None
        }
    }

    fn leave_refusal(&self, thread: u32, reactor: u32) -> Option<WorldRefusal>
        ensures { result ≡ refusal_of self.now (WorldEvent.LeaveFor thread reactor) }
    {
        if !self.has_reactor(thread, reactor) {
            Some(WorldRefusal::Unknown)
        } else if self.is_ended(thread) {
            Some(WorldRefusal::Exited)
        } else if !self.acts(thread) {
            Some(WorldRefusal::NotHere)
        } else {
            None
        }
    }

    fn arrive_refusal(&self, thread: u32) -> Option<WorldRefusal>
        ensures { result ≡ refusal_of self.now (WorldEvent.Arrive thread) }
    {
        if !self.is_thread(thread) {
            Some(WorldRefusal::Unknown)
        } else if self.is_ended(thread) {
            Some(WorldRefusal::Exited)
        } else if !self.comes(thread) {
            Some(WorldRefusal::NotHere)
        } else {
            None
        }
    }

    fn end_refusal(&self, thread: u32) -> Option<WorldRefusal>
        ensures { result ≡ refusal_of self.now (WorldEvent.End thread) }
    {
        if !self.is_thread(thread) {
            Some(WorldRefusal::Unknown)
        } else if self.is_ended(thread) {
            Some(WorldRefusal::Exited)
        } else if !self.acts(thread) {
            Some(WorldRefusal::NotHere)
        } else if self.has_unrun(thread) {
            Some(WorldRefusal::Unrun)
        } else if self.owns_some(thread) {
            Some(WorldRefusal::HasChannel)
        } else if self.holds_up(thread) {
            Some(WorldRefusal::InUse)
        } else {
            None
        }
    }

    fn give_refusal(&self, thread: u32, device: u32) -> Option<WorldRefusal>
        ensures { result ≡ refusal_of self.now (WorldEvent.Give thread device) }
    {
        if !self.has_device(thread, device) {
            Some(WorldRefusal::Unknown)
        } else if self.is_ended(thread) {
            Some(WorldRefusal::Exited)
        } else if !self.acts(thread) {
            Some(WorldRefusal::NotHere)
        } else if self.is_shut(device) {
            Some(WorldRefusal::Shut)
        } else if self.owns(thread, device) {
            Some(WorldRefusal::Already)
        } else {
            None
        }
    }

    fn destroy_refusal(&self, thread: u32, device: u32) -> Option<WorldRefusal>
        ensures { result ≡ refusal_of self.now (WorldEvent.Destroy thread device) }
    {
        if !self.has_device(thread, device) {
            Some(WorldRefusal::Unknown)
        } else if self.is_ended(thread) {
            Some(WorldRefusal::Exited)
        } else if !self.acts(thread) {
            Some(WorldRefusal::NotHere)
        } else if !self.owns(thread, device) {
            Some(WorldRefusal::NoChannel)
        } else {
            None
        }
    }

    fn shut_refusal(&self, thread: u32, device: u32) -> Option<WorldRefusal>
        ensures { result ≡ refusal_of self.now (WorldEvent.Shut thread device) }
    {
        if !self.has_device(thread, device) {
            Some(WorldRefusal::Unknown)
        } else if self.is_ended(thread) {
            Some(WorldRefusal::Exited)
        } else if !self.acts(thread) {
            Some(WorldRefusal::NotHere)
        } else if self.is_shut(device) {
            Some(WorldRefusal::Already)
        } else {
            None
        }
    }

    fn fire_refusal(&self, thread: u32, device: u32) -> Option<WorldRefusal>
        ensures { result ≡ refusal_of self.now (WorldEvent.Fire thread device) }
    {
        if !self.has_device(thread, device) {
            Some(WorldRefusal::Unknown)
        } else if self.is_ended(thread) {
            Some(WorldRefusal::Exited)
        } else if !self.acts(thread) {
            Some(WorldRefusal::NotHere)
        } else if self.is_fired(device) {
            Some(WorldRefusal::Already)
        } else if !self.is_shut_by(thread, device) {
            Some(WorldRefusal::NotShut)
        } else if self.is_in_use(device) {
            Some(WorldRefusal::InUse)
        } else {
            None
        }
    }

    fn visit_refusal(&self, thread: u32, device: u32) -> Option<WorldRefusal>
        ensures { result ≡ refusal_of self.now (WorldEvent.BeginVisit thread device) }
    {
        if !self.has_device(thread, device) {
            Some(WorldRefusal::Unknown)
        } else if self.is_ended(thread) {
            Some(WorldRefusal::Exited)
        } else if !self.acts(thread) {
            Some(WorldRefusal::NotHere)
        } else if self.is_shut(device) {
            Some(WorldRefusal::Shut)
        } else if self.visits(thread, device) {
            Some(WorldRefusal::Already)
        } else {
            None
        }
    }

    fn unvisit_refusal(&self, thread: u32, device: u32) -> Option<WorldRefusal>
        ensures { result ≡ refusal_of self.now (WorldEvent.EndVisit thread device) }
    {
        if !self.has_device(thread, device) {
            Some(WorldRefusal::Unknown)
        } else if self.is_ended(thread) {
            Some(WorldRefusal::Exited)
        } else if !self.visits(thread, device) {
            Some(WorldRefusal::Nothing)
        } else if !self.acts(thread) {
            Some(WorldRefusal::NotHere)
        } else {
            None
        }
    }

    fn sleep_refusal(&self, reactor: u32) -> Option<WorldRefusal>
        ensures { result ≡ refusal_of self.now (WorldEvent.Sleep reactor) }
    {
        if !self.is_reactor(reactor) {
            Some(WorldRefusal::Unknown)
        } else if self.sleeps(reactor) {
            Some(WorldRefusal::Already)
        } else if self.has_listed(reactor) {
            Some(WorldRefusal::NotIdle)
        } else {
            None
        }
    }

    fn wake_refusal(&self, reactor: u32) -> Option<WorldRefusal>
        ensures { result ≡ refusal_of self.now (WorldEvent.Wake reactor) }
    {
        if !self.is_reactor(reactor) {
            Some(WorldRefusal::Unknown)
        } else if !self.sleeps(reactor) {
            Some(WorldRefusal::Nothing)
        } else {
            None
        }
    }

    // Why an event is refused, if it is.
    pub(crate) fn refusal(&self, event: &WorldEvent) -> Option<WorldRefusal>
        ensures { result ≡ refusal_of self.now event.now }
    {
        match *event {
            WorldEvent::Send { sender, receiver } => self.send_refusal(sender, receiver),
            WorldEvent::Run { receiver, sender } => self.run_refusal(receiver, sender),
            WorldEvent::LeaveFor { thread, reactor } => self.leave_refusal(thread, reactor),
            WorldEvent::Arrive { thread } => self.arrive_refusal(thread),
            WorldEvent::End { thread } => self.end_refusal(thread),
            WorldEvent::Give { thread, device } => self.give_refusal(thread, device),
            WorldEvent::Destroy { thread, device } => self.destroy_refusal(thread, device),
            WorldEvent::Shut { thread, device } => self.shut_refusal(thread, device),
            WorldEvent::Fire { thread, device } => self.fire_refusal(thread, device),
            WorldEvent::BeginVisit { thread, device } => self.visit_refusal(thread, device),
            WorldEvent::EndVisit { thread, device } => self.unvisit_refusal(thread, device),
            WorldEvent::Sleep { reactor } => self.sleep_refusal(reactor),
            WorldEvent::Wake { reactor } => self.wake_refusal(reactor),
        }
    }
}
