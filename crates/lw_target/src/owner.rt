//! The owner of an image: it runs each request and sends one reply.
ghost use Rattle.std.specs.Prelude.{◌≡◌, ℕ, List, Option, Some, ◌+◌, ◌*◌, ◌^◌, ◌<◌, ◌≤◌, ◌++◌, ◌∷◌, [], length, OnOk, IfOk, true, false};
ghost use Rattle.lw_model.specs.Printable.{has_bytes};
ghost use Rattle.lw_model.specs.Replay.{bytes_after};
ghost use Rattle.lw_model.specs.declared.script.Op.{Op};
ghost use Rattle.lw_image.specs.Image.{IsAfter, SameSize, HasRange};
ghost use Rattle.lw_target.specs.Messages.{Extent, FitsImage, IsWithin, extent_of, AllMayGo, IsPrintable, asked_work, weight};
ghost use Rattle.lw_target.specs.Owner.{Serves, AnswersAs};

use crate::acts::Acts;
use crate::buffers::Buffers;
use crate::mail::{Load, Mail};
use lw_base::{NoMemory, What};
use lw_image::Image;
use lw_model::Replied;
use std::alloc::Global;

/// The owner of one image.
#[derive(Drop)]
pub struct Owner {
    /// Its image.
    pub image: Image,
    /// Whether it has run its stop.
    pub ended: bool,
    /// What it reads into.
    pub buffers: Buffers,
}

impl Owner {
    /// An owner that has run nothing.
    pub fn new(image: Image, buffers: Buffers) -> Self
        ensures { result ≡ record { image = image; ended = false; buffers = buffers } }
    {
        Owner {
            image,
            ended: false,
            buffers,
        }
    }

    /// Runs a message: a request is answered to its sender at once, and after a stop the owner asks to end.
    pub fn run(&mut self, alloc: Global, mail: Mail, acts: &mut Acts) -> Result<(), NoMemory>
        requires fits { FitsImage (extent_of self.old.image) mail.tag.what mail.load }
        requires block { 0 < self.old.image.block }
        requires room { self.old.image.writes + 1 < 2 ^ 64 }
        ensures size { SameSize self.old.image self.new.image }
        ensures writes { self.new.image.writes ≤ self.old.image.writes + 1 }
        ensures sends { OnOk result (Serves self.old self.new mail acts.old.sends acts.new.sends) }
        ensures replies { OnOk result ((extent : Extent) → AllMayGo extent acts.old.sends → AllMayGo extent acts.new.sends) }
        ensures work { OnOk result (asked_work acts.new.sends + 1 ≤ asked_work acts.old.sends + weight mail.tag.what) }
        ensures ran { OnOk result (acts.new.ran ≡ acts.old.ran) }
    {
        match mail.tag.what {
            What::Request { op } => {
                let answer = self.answer(alloc, mail.load)?;
                acts.send(mail.tag.sender, What::Reply { op }, Load::Replied(answer))
            }
            What::Stop => {
                self.ended = true;
                Ok(())
            }
            _ => Ok(()),
        }
    }

    fn answer(&mut self, alloc: Global, load: Load) -> Result<Replied, NoMemory>
        requires within { IsWithin (extent_of self.old.image) load }
        requires block { 0 < self.old.image.block }
        requires room { self.old.image.writes + 1 < 2 ^ 64 }
        ensures size { SameSize self.old.image self.new.image }
        ensures writes { self.new.image.writes ≤ self.old.image.writes + 1 }
        ensures ended { self.new.ended ≡ self.old.ended }
        ensures answer { IfOk result (AnswersAs self.old.image self.new.image load) }
        ensures bytes { IfOk result (λ a. has_bytes a ≡ true) }
    {
        match load {
            Load::Write {
                start,
                count,
                pattern,
            } => {
                self.image.write(start, count, pattern.as_slice());
                Ok(Replied::Ok)
            }
            Load::Read { start, count } => {
                let bytes = self.buffers.read(alloc, &self.image, start, count)?;
                Ok(Replied::Bytes(bytes))
            }
            _ => unreachable!(),
        }
    }

    /// Whether it has asked to end.
    pub fn has_ended(&self) -> bool
        ensures { result ≡ self.now.ended }
    {
        self.ended
    }
}
