//! Which messages a client awaits.
ghost use Rattle.std.specs.Prelude.{◌≡◌, ◌==◌, ◌&&◌, Some, None, true, false};
ghost use Rattle.lw_client.specs.Handling.{awaited, awaits_visit, awaits_cast, has_put, is_strange, goes_past};

use crate::client::{Client, Waits};
use lw_mail::Content;
use lw_ops::{Kind, is_a_client, op_of, requested};

impl Client {
    // The image of an op that is an unanswered request of this kind.
    pub(crate) fn awaited(&self, op: u32, kind: Kind) -> Option<u32>
        ensures { result ≡ awaited self.now op kind }
    {
        if op as usize >= self.unanswered.len() || !self.unanswered.at(op as usize) {
            return None;
        }
        match op_of(&self.script, self.thread, op) {
            Some(of) => requested(of, kind),
            None => None,
        }
    }

    // Whether it awaits this visit.
    fn awaits_visit(&self, op: u32, device: u32) -> bool
        ensures { result ≡ awaits_visit self.now.waits op device }
    {
        match self.waits {
            Waits::Visit {
                op: own,
                device: its,
            } => own == op && its == device,
            _ => false,
        }
    }

    // Whether it awaits this cast.
    fn awaits_cast(&self, op: u32) -> bool
        ensures { result ≡ awaits_cast self.now.waits op }
    {
        match self.waits {
            Waits::Cast { op: own } => own == op,
            _ => false,
        }
    }

    // Whether a PutSelf of the device is pending.
    fn has_put(&self, device: u32) -> bool
        ensures { result ≡ has_put self.now device }
    {
        self.set.is_some()
            && (device as usize) < self.uses.len()
            && self.uses.at(device as usize).puts > 0
    }

    // Whether no run sends this message to the client as it is.
    pub(crate) fn is_strange(&self, content: &Content) -> bool
        ensures { result ≡ is_strange self.now content.now }
    {
        match content {
            Content::Written { op } => self.awaited(*op, Kind::Write).is_none(),
            Content::Filled { op, .. } => self.awaited(*op, Kind::Read).is_none(),
            Content::Flushed { op, .. } => self.awaited(*op, Kind::Flush).is_none(),
            Content::PutSelf { device } => !self.has_put(*device),
            Content::Visit(token) => {
                !is_a_client(&self.script, token.origin())
                    || (token.origin() == self.thread
                        && !self.awaits_visit(token.op(), token.device()))
            }
            Content::Visited(token) => !self.awaits_visit(token.op(), token.device()),
            Content::Cast(token) => {
                !is_a_client(&self.script, token.origin())
                    || (token.origin() == self.thread && !self.awaits_cast(token.op()))
            }
            Content::Casted(token) => !self.awaits_cast(token.op()),
            _ => true,
        }
    }

    // Whether a message that comes back from this thread goes past it.
    pub(crate) fn goes_past(&self, to: u32, content: &Content) -> bool
        ensures { result ≡ goes_past self.now to content.now }
    {
        match content {
            Content::Visit(token) => is_a_client(&self.script, to) && token.origin() != to,
            Content::Cast(token) => is_a_client(&self.script, to) && token.origin() != to,
            _ => false,
        }
    }
}
