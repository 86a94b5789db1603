//! The answers that the journal of an image gives.
ghost use Rattle.std.specs.Prelude.{◌≡◌, ℕ, ◌+◌, ◌<◌, ◌++◌, ◌∷◌, [], List, Option, Some, length, OnOk, filter_map};
ghost use Rattle.lw_model.specs.declared.script.Op.{Op};
ghost use Rattle.lw_model.specs.Threads.{is_on, op_at, owner_of, ran_of};
ghost use Rattle.lw_model.specs.Journal.{request_of};
ghost use Rattle.lw_model.specs.Replay.{answer_after};
ghost use Rattle.lw_judge_devices.specs.Replayed.{IsAfter};
ghost use Rattle.lw_judge_devices.specs.Owed.{HasPlaces, OwesBelow};
ghost use Rattle.lw_judge_devices.specs.Answered.{IsImageOf, IsBehind, NotesAnswer, ReadsFit};
ghost use Rattle.lw_judge_devices.specs.declared.table.Owed.{Owed};

use crate::replay::Replay;
use crate::table::Owed;
use lw_base::{NoMemory, Tag, What};
use lw_judge_threads::{image_at, op_at};
use lw_model::{Op, Record, Script};
use std::alloc::Global;

/// Notes what the journal of an image answers.
pub fn answer_journal(
    alloc: Global,
    owed: &mut Owed,
    of: &Record,
    device: usize,
) -> Result<(), NoMemory>
    requires { device < length of.now.script.images }
    ensures { OnOk result (OwesBelow of.now device owed.old → OwesBelow of.now (device + 1) owed.new) }
{
    let script = &of.script;
    let journal = Journal { script, device };
    let mut image = Replay::new(alloc, &script.images.as_slice()[device])?;
    journal.answer_all(alloc, &mut image, owed, ran_by_owner(of, device))
}

// The messages that the owner of an image ran.
fn ran_by_owner(of: &Record, device: usize) -> &[Tag]
    requires { device < length of.now.script.images }
    ensures { result.now ≡ ran_of of.now (owner_of of.now.script device) }
{
    let owner = 1 + of.script.clients.len() + device;
    of.threads.as_slice()[owner].ran.as_slice()
}

// Whether the op of a thread is on a device.
fn is_on(script: &Script, thread: usize, device: usize, op: u32) -> bool
    ensures { result ≡ is_on script.now thread device op }
{
    match image_at(script, thread, op) {
        Some(image) => image as usize == device,
        None => false,
    }
}

// The journal of an image of a script.
#[derive(Copy, Clone, Drop)]
struct Journal<'a> {
    script: &'a Script,
    device: usize,
}

impl<'a> Journal<'a> {
    // Answers the requests among the messages that the owner ran.
    fn answer_all(
        &self,
        alloc: Global,
        image: &mut Replay<'a>,
        owed: &mut Owed,
        ran: &[Tag],
    ) -> Result<(), NoMemory>
        requires reads { ReadsFit self.now.script.now }
        requires image { IsImageOf self.now.script.now self.now.device image.old }
        ensures { OnOk result ((was : Owed) → IsBehind self.now.script.now self.now.device [] was owed.old image.old
            → IsBehind self.now.script.now self.now.device (filter_map request_of ran.now) was owed.new image.new) }
    {
        for tag in ran {
            if let What::Request { op } = tag.what {
                self.answer(alloc, image, owed, tag.sender, op)?;
            }
        }
        Ok(())
    }

    // Answers a request, unless it was answered before, and goes past it.
    fn answer(
        &self,
        alloc: Global,
        image: &mut Replay<'a>,
        owed: &mut Owed,
        client: u32,
        op: u32,
    ) -> Result<(), NoMemory>
        requires reads { ReadsFit self.now.script.now }
        requires image { IsImageOf self.now.script.now self.now.device image.old }
        ensures image { IsImageOf self.now.script.now self.now.device image.new }
        ensures behind { OnOk result ((asked : List (ℕ × ℕ)) (was : Owed)
            → IsBehind self.now.script.now self.now.device asked was owed.old image.old
            → IsBehind self.now.script.now self.now.device (asked ++ (client, op) ∷ []) was owed.new image.new) }
    {
        if let Some(request) = op_at(self.script, client as usize, op) {
            self.note(alloc, image, owed, client, op, request)?;
            image.step(request)?;
        }
        Ok(())
    }

    // Notes what the op of a client is owed, where it is on the image and nothing is noted yet.
    fn note(
        &self,
        alloc: Global,
        image: &Replay,
        owed: &mut Owed,
        client: u32,
        op: u32,
        request: &Op,
    ) -> Result<(), NoMemory>
        requires request { op_at self.now.script.now client op ≡ Some request.now }
        requires reads { ReadsFit self.now.script.now }
        requires image { IsImageOf self.now.script.now self.now.device image.now }
        ensures places { HasPlaces self.now.script.now owed.old → HasPlaces self.now.script.now owed.new }
        ensures replies { OnOk result ((past : List (Option Op)) → IsAfter past image.now
            → HasPlaces self.now.script.now owed.old
            → NotesAnswer self.now.script.now self.now.device client op
            (answer_after image.now.block past request.now) owed.old owed.new) }
    {
        if is_on(self.script, client as usize, self.device, op)
            && owed.reply(client as usize, op).is_none()
        {
            if let Some(answer) = image.answer(alloc, request)? {
                owed.put(client as usize, op, answer);
            }
        }
        Ok(())
    }
}
