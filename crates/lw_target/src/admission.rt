//! What a client's next op is answered, and whether it has to wait.
ghost use Rattle.std.specs.Prelude.{◌≡◌, ◌<◌, length, vec_len, IfSome, slice_get};
ghost use Rattle.std.specs.List.{list_any};
ghost use Rattle.lw_target.specs.Actions.{device_of, names_image};

use crate::action::{Action, is_about};
use crate::client::Client;
use crate::device::Device;
use lw_model::Answer;

impl Client {
    ghost use Rattle.lw_target.specs.Answers.{get_answer, put_answer, request_answer, answer_to};

    /// What an op is answered, and None where it has to wait.
    pub fn answer(&self, action: Action, devices: &[Device]) -> Option<Answer>
        requires devices { device_of action < length devices.now }
        requires channels { device_of action < vec_len self.now.channels }
        ensures { IfSome (slice_get devices.now (device_of action)) (λ v.
            IfSome (slice_get self.now.channels.items (device_of action)) (λ k.
            result ≡ answer_to self.now.of.ops self.now.unanswered.items self.now.of.depth action v k)) }
    {
        match action {
            Action::Get(image) => Some(self.answer_get(image as usize, &devices[image as usize])),
            Action::Put(image) => self.answer_put(image),
            Action::Ask(image) => self.answer_request(image as usize),
        }
    }

    fn answer_get(&self, image: usize, device: &Device) -> Answer
        requires { image < vec_len self.now.channels }
        ensures { IfSome (slice_get self.now.channels.items image) (λ k. result ≡ get_answer device.now k) }
    {
        if device.is_shut() {
            return Answer::Shut;
        }
        match self.channels[image].ordinal {
            Some(ordinal) => Answer::Again { ordinal },
            None => Answer::Given {
                ordinal: device.given,
            },
        }
    }

    fn answer_put(&self, image: u32) -> Option<Answer>
        requires { image < vec_len self.now.channels }
        ensures { IfSome (slice_get self.now.channels.items image) (λ k.
            result ≡ put_answer (list_any (names_image self.now.of.ops image) self.now.unanswered.items) k) }
    {
        let references = self.channels[image as usize].references;
        if references == 0 {
            return Some(Answer::NoChannel);
        }
        if self.awaits_reply(image) {
            return None;
        }
        if references > 1 {
            Some(Answer::Counted)
        } else {
            Some(Answer::Deferred)
        }
    }

    // Whether a request on the image is unanswered.
    fn awaits_reply(&self, image: u32) -> bool
        ensures { result ≡ list_any (names_image self.now.of.ops image) self.now.unanswered.items }
    {
        let ops = self.of.ops.as_slice();
        self.unanswered.iter().any(|op| is_about(ops, *op, image))
    }

    fn answer_request(&self, image: usize) -> Option<Answer>
        requires { image < vec_len self.now.channels }
        ensures { IfSome (slice_get self.now.channels.items image) (λ k.
            result ≡ request_answer (length self.now.unanswered.items) self.now.of.depth k) }
    {
        if self.channels[image].references == 0 {
            return Some(Answer::NoChannel);
        }
        if self.unanswered.len() >= self.of.depth as usize {
            None
        } else {
            Some(Answer::Sent)
        }
    }
}
