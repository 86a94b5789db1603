//! How a client runs the messages that it awaits.
ghost use Rattle.std.specs.Prelude.{◌≡◌, ◌<◌, ◌≤◌, false, Some, OnOk};
ghost use Rattle.lw_pool.specs.PoolEnds.{IsOf, given_of, taken_of, filled_bytes, with_given};
ghost use Rattle.lw_channel.specs.Channels.{Channels, channel_of, destroys};
ghost use Rattle.lw_client.specs.Doing.{with_use, with_set, use_put};
ghost use Rattle.lw_client.specs.Handling.{answered_by, put_run, visit_ended, cast_ended};
ghost use Rattle.lw_client.specs.Serving.{MayAnswer, MayRunPut, MayEndVisit};

use crate::client::{Client, Use, Waits};
use lw_base::{Items, NoMemory};
use lw_channel::{After, ChannelSet};
use lw_model::{Replied, Reply, Seen, SeenBy};
use lw_pool::Buffer;
use lw_visit::{CastToken, VisitToken, finish_visit};
use std::sync::Wait;

// Runs a PutSelf, one of which is pending.
fn run_put(set: &mut ChannelSet, device: u32)
    requires { 1 ≤ (channel_of set.old device).pending }
    ensures { set.new ≡ put_run (destroys (channel_of set.old device)) device set.old }
{
    match set.put_message(device) {
        After::Destroyed | After::Kept => {}
    }
}

impl Client {
    // Lists the reply to an unanswered request.
    pub(crate) fn answer(&mut self, op: u32, image: u32, answer: Replied) -> Result<(), NoMemory>
        requires { MayAnswer op image self.old }
        ensures { OnOk result (self.new ≡ answered_by image op answer self.old) }
    {
        let kept = self.uses.at(image as usize);
        self.uses.put(
            image as usize,
            Use {
                requests: kept.requests - 1,
                puts: kept.puts,
                owes: kept.owes,
            },
        );
        self.unanswered.put(op as usize, false);
        self.requests -= 1;
        self.replies.push(Reply { op, answer })
    }

    // Lists the bytes of a read, and then gives the buffer back to the pool.
    pub(crate) fn answer_read<R: Wait>(
        &mut self,
        rt: &R,
        op: u32,
        image: u32,
        buffer: Buffer,
    ) -> Result<(), NoMemory>
        requires may { MayAnswer op image self.old }
        requires pool { IsOf self.old.pool.pool buffer }
        requires lent { given_of buffer.class self.old.pool < taken_of buffer.class self.old.pool }
        ensures { OnOk result (self.new ≡ record (answered_by image op (Replied.Bytes (filled_bytes buffer)) self.old) { pool = with_given buffer.class self.old.pool }) }
    {
        let bytes = Vec::from_slice(self.alloc, buffer.filled())?;
        self.answer(op, image, Replied::Bytes(Items::from_vec(bytes)))?;
        self.pool.give_back(rt, buffer);
        Ok(())
    }

    // Runs a PutSelf of a device, of which one is pending.
    pub(crate) fn run_put(&mut self, device: u32)
        requires { MayRunPut device self.old }
        ensures { (x : Channels) → self.old.set ≡ Some x → self.new ≡ with_use device use_put (with_set (put_run (destroys (channel_of x device)) device x) self.old) }
    {
        let Some(set) = &mut self.set else {
            unreachable!()
        };
        run_put(set, device);
        let kept = self.uses.at(device as usize);
        self.uses.put(
            device as usize,
            Use {
                requests: kept.requests,
                puts: kept.puts - 1,
                owes: kept.owes,
            },
        );
    }

    // Lists the results of a visit, which has come home.
    pub(crate) fn end_visit(&mut self, token: VisitToken) -> Result<(), NoMemory>
        requires { MayEndVisit token.device self.old }
        ensures { OnOk result ((x : Channels) → self.old.set ≡ Some x → self.new ≡ visit_ended token.op token.device token.marks x self.old) }
    {
        let Some(set) = &mut self.set else {
            unreachable!()
        };
        let op = token.op();
        let marks = finish_visit(set, token);
        self.waits = Waits::Nothing;
        self.seen.push(Seen {
            op,
            results: SeenBy::Visit(Items::from_vec(marks)),
        })
    }

    // Lists the results of a cast, which has come home.
    pub(crate) fn end_cast(&mut self, token: CastToken) -> Result<(), NoMemory>
        ensures { OnOk result (self.new ≡ cast_ended token.op token.ran self.old) }
    {
        let op = token.op();
        let ran = token.results();
        self.waits = Waits::Nothing;
        self.seen.push(Seen {
            op,
            results: SeenBy::Cast(Items::from_vec(ran)),
        })
    }
}
