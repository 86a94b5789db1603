//! What an event does that isn't refused.
ghost use Rattle.std.specs.Prelude.{◌≡◌, None};
ghost use Rattle.lw_world.specs.World.{HasRoom, after, arrived, refusal_of};

use crate::world::World;
use crate::world_event::WorldEvent;
use crate::world_state::{Stage, Standing};

impl World {
    fn send(&mut self, sender: u32, receiver: u32)
        requires allowed { refusal_of self.old (WorldEvent.Send sender receiver) ≡ None }
        requires room { HasRoom self.old (WorldEvent.Send sender receiver) }
        ensures { self.new ≡ after self.old (WorldEvent.Send sender receiver) }
    {
        let sent = self.sent.at(sender, receiver);
        self.sent.set(sender, receiver, sent + 1);
    }

    fn run_next(&mut self, receiver: u32, sender: u32)
        requires { refusal_of self.old (WorldEvent.Run receiver sender) ≡ None }
        ensures { self.new ≡ after self.old (WorldEvent.Run receiver sender) }
    {
        let run = self.run.at(sender, receiver);
        self.run.set(sender, receiver, run + 1);
    }

    fn leave_for(&mut self, thread: u32, reactor: u32)
        requires { refusal_of self.old (WorldEvent.LeaveFor thread reactor) ≡ None }
        ensures { self.new ≡ after self.old (WorldEvent.LeaveFor thread reactor) }
    {
        self.standing.set(thread, Standing::Event { reactor });
    }

    fn arrive(&mut self, thread: u32)
        requires { refusal_of self.old (WorldEvent.Arrive thread) ≡ None }
        ensures { self.new ≡ after self.old (WorldEvent.Arrive thread) }
    {
        let arrived = arrived(self.standing.get(thread));
        self.standing.set(thread, arrived);
    }

    fn end(&mut self, thread: u32)
        requires { refusal_of self.old (WorldEvent.End thread) ≡ None }
        ensures { self.new ≡ after self.old (WorldEvent.End thread) }
    {
        self.standing.set(thread, Standing::Ended);
    }

    fn give(&mut self, thread: u32, device: u32)
        requires { refusal_of self.old (WorldEvent.Give thread device) ≡ None }
        ensures { self.new ≡ after self.old (WorldEvent.Give thread device) }
    {
        self.channels.set(thread, device, 1);
    }

    fn destroy(&mut self, thread: u32, device: u32)
        requires { refusal_of self.old (WorldEvent.Destroy thread device) ≡ None }
        ensures { self.new ≡ after self.old (WorldEvent.Destroy thread device) }
    {
        self.channels.set(thread, device, 0);
    }

    fn shut(&mut self, thread: u32, device: u32)
        requires { refusal_of self.old (WorldEvent.Shut thread device) ≡ None }
        ensures { self.new ≡ after self.old (WorldEvent.Shut thread device) }
    {
        self.stage.set(device, Stage::Shut { by: thread });
    }

    fn fire(&mut self, thread: u32, device: u32)
        requires { refusal_of self.old (WorldEvent.Fire thread device) ≡ None }
        ensures { self.new ≡ after self.old (WorldEvent.Fire thread device) }
    {
        self.stage.set(device, Stage::Fired);
    }

    fn begin_visit(&mut self, thread: u32, device: u32)
        requires { refusal_of self.old (WorldEvent.BeginVisit thread device) ≡ None }
        ensures { self.new ≡ after self.old (WorldEvent.BeginVisit thread device) }
    {
        self.visits.set(thread, device, 1);
    }

    fn end_visit(&mut self, thread: u32, device: u32)
        requires { refusal_of self.old (WorldEvent.EndVisit thread device) ≡ None }
        ensures { self.new ≡ after self.old (WorldEvent.EndVisit thread device) }
    {
        self.visits.set(thread, device, 0);
    }

    fn sleep(&mut self, reactor: u32)
        requires { refusal_of self.old (WorldEvent.Sleep reactor) ≡ None }
        ensures { self.new ≡ after self.old (WorldEvent.Sleep reactor) }
    {
        self.asleep[reactor as usize] = true;
    }

    fn wake(&mut self, reactor: u32)
        requires { refusal_of self.old (WorldEvent.Wake reactor) ≡ None }
        ensures { self.new ≡ after self.old (WorldEvent.Wake reactor) }
    {
        self.asleep[reactor as usize] = false;
    }

    // Does what an event does that isn't refused.
    pub(crate) fn apply(&mut self, event: &WorldEvent)
        requires allowed { refusal_of self.old event.now ≡ None }
        requires room { HasRoom self.old event.now }
        ensures { self.new ≡ after self.old event.now }
    {
        match *event {
            WorldEvent::Send { sender, receiver } => self.send(sender, receiver),
            WorldEvent::Run { receiver, sender } => self.run_next(receiver, sender),
            WorldEvent::LeaveFor { thread, reactor } => self.leave_for(thread, reactor),
            WorldEvent::Arrive { thread } => self.arrive(thread),
            WorldEvent::End { thread } => self.end(thread),
            WorldEvent::Give { thread, device } => self.give(thread, device),
            WorldEvent::Destroy { thread, device } => self.destroy(thread, device),
            WorldEvent::Shut { thread, device } => self.shut(thread, device),
            WorldEvent::Fire { thread, device } => self.fire(thread, device),
            WorldEvent::BeginVisit { thread, device } => self.begin_visit(thread, device),
            WorldEvent::EndVisit { thread, device } => self.end_visit(thread, device),
            WorldEvent::Sleep { reactor } => self.sleep(reactor),
            WorldEvent::Wake { reactor } => self.wake(reactor),
        }
    }
}

// The list of the reactor that a thread is on its way to.
fn arrived(standing: Standing) -> Standing
    ensures { result ≡ arrived standing }
{
    match standing {
        Standing::Event { reactor } => Standing::List { reactor },
        Standing::List { .. } | Standing::Ended => standing,
    }
}
