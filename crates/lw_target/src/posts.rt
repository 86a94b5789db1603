//! The messages under way between the threads of a run of one client on one image.
ghost use Rattle.std.specs.Prelude.{◌≡◌, ◌<◌, length, OnOk, IfOk};
ghost use Rattle.lw_target.specs.Messages.{IsPrintable};

use crate::acts::{Acts, Outgoing};
use crate::app::APP;
use crate::post::Post;
use lw_base::NoMemory;
use std::alloc::Global;

/// The client's thread.
pub const CLIENT: u32 = 1;

/// The owner's thread.
pub const OWNER: u32 = 2;

/// How many threads there are.
const THREADS: usize = 3;

/// What waits for each thread.
#[derive(Drop)]
pub struct Posts {
    pub app: Post,
    pub client: Post,
    pub owner: Post,
}

impl Posts {
    ghost use Rattle.std.specs.Prelude.{[], ◌∷◌};
    ghost use Rattle.lw_target.specs.Turns.{Carried, HasSenders, unused};

    /// Nothing waits.
    pub fn new(alloc: Global) -> Result<Posts, NoMemory>
        ensures senders { IfOk result HasSenders }
        ensures empty { IfOk result (λ p. (p.app ≡ unused) × (p.client ≡ unused) × (p.owner ≡ unused)) }
    {
        Ok(Posts {
            app: Post::new(alloc, THREADS)?,
            client: Post::new(alloc, THREADS)?,
            owner: Post::new(alloc, THREADS)?,
        })
    }

    /// Makes the sends that a thread asked for, in order.
    pub fn carry(&mut self, sender: u32, acts: &mut Acts) -> Result<(), NoMemory>
        requires sender { sender < 3 }
        requires senders { HasSenders self.old }
        ensures carried { OnOk result (Carried sender self.old self.new acts.old.sends) }
        ensures empty { OnOk result (acts.new.sends ≡ []) }
    {
        while let Some(out) = acts.next() {
            self.deliver(sender, out)?;
        }
        Ok(())
    }

    fn deliver(&mut self, sender: u32, out: Outgoing) -> Result<(), NoMemory>
        requires sender { sender < 3 }
        requires senders { HasSenders self.old }
        requires printable { IsPrintable out.what out.load }
        ensures { OnOk result (Carried sender self.old self.new (out ∷ [])) }
    {
        match out.to {
            APP => self.app.push(sender, out),
            CLIENT => self.client.push(sender, out),
            _ => self.owner.push(sender, out),
        }
    }
}
