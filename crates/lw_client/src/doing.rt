//! How a client does its ops.
ghost use Rattle.std.specs.Prelude.{◌≡◌, ◌+◌, ◌<◌, ◌≤◌, true, false, length, IfOk, OnOk, Some};
ghost use Rattle.lw_client.specs.Clients.{use_of};
ghost use Rattle.lw_client.specs.Doing.{listed, Gets, Gives, Puts, Unregisters, with_answer};
ghost use Rattle.lw_client.specs.Using.{CanUse};

use crate::client::{Client, Use};
use lw_base::NoMemory;
use lw_mail::{Content, Mail};
use lw_model::{Answer, Did};
use lw_ops::{get_of, put_of, unregister_of};
use lw_thread::Acts;

impl Client {
    // Lists what the next op was answered, when so many messages were run.
    pub(crate) fn list(&mut self, at: u64, answer: Answer) -> Result<(), NoMemory>
        requires { self.old.next < 200000 }
        ensures { OnOk result (self.new ≡ listed at answer self.old) }
    {
        self.did.push(Did {
            at,
            op: self.next,
            answer,
        })?;
        self.next += 1;
        Ok(())
    }

    // Does a get.
    pub(crate) fn get(&mut self, image: u32, acts: &mut Acts<Mail>) -> Result<(), NoMemory>
        requires { CanUse acts.old.threads image self.old }
        ensures { OnOk result (Gets image (record { body = self.old; acts = acts.old }) (record { body = self.new; acts = acts.new })) }
    {
        let Some(set) = &mut self.set else {
            unreachable!()
        };
        let answer = get_of(set, image);
        self.list(acts.ran(), answer)
    }

    // Counts a PutSelf of a device, and asks to send it to its own thread.
    pub(crate) fn defer(&mut self, image: u32, acts: &mut Acts<Mail>) -> Result<(), NoMemory>
        requires uses { image < length self.old.uses }
        requires few { (use_of self.old image).puts < 200000 }
        requires thread { self.old.thread < acts.old.threads }
        ensures { OnOk result (Gives image Answer.Deferred self.old (record { body = self.old; acts = acts.old }) (record { body = self.new; acts = acts.new })) }
    {
        let kept = self.uses.at(image as usize);
        self.uses.put(
            image as usize,
            Use {
                requests: kept.requests,
                puts: kept.puts + 1,
                owes: kept.owes,
            },
        );
        acts.send(self.thread, Mail::new(Content::PutSelf { device: image }))
    }

    // What a put that was answered so sends.
    fn follow(&mut self, image: u32, answer: Answer, acts: &mut Acts<Mail>) -> Result<(), NoMemory>
        requires uses { image < length self.old.uses }
        requires few { (use_of self.old image).puts < 200000 }
        requires thread { self.old.thread < acts.old.threads }
        ensures { OnOk result (Gives image answer self.old (record { body = self.old; acts = acts.old }) (record { body = self.new; acts = acts.new })) }
    {
        match answer {
            Answer::Deferred => self.defer(image, acts),
            _ => Ok(()),
        }
    }

    // Does a put, for whose image no request is unanswered.
    pub(crate) fn put(&mut self, image: u32, acts: &mut Acts<Mail>) -> Result<(), NoMemory>
        requires can { CanUse acts.old.threads image self.old }
        requires none { (use_of self.old image).requests ≡ 0 }
        ensures { OnOk result (Puts image (record { body = self.old; acts = acts.old }) (record { body = self.new; acts = acts.new })) }
    {
        let Some(set) = &mut self.set else {
            unreachable!()
        };
        let answer = put_of(set, image);
        self.list(acts.ran(), answer)?;
        self.follow(image, answer, acts)
    }

    // Where an unregistration began, its callback is owed.
    fn owe(&mut self, image: u32, answer: Answer)
        requires { image < length self.old.uses }
        ensures { self.new ≡ with_answer image answer self.old }
    {
        if let Answer::Began { .. } = answer {
            let kept = self.uses.at(image as usize);
            self.uses.put(
                image as usize,
                Use {
                    requests: kept.requests,
                    puts: kept.puts,
                    owes: true,
                },
            );
        }
    }

    // Does an unregistration, for whose image no request is unanswered.
    pub(crate) fn unregister(&mut self, image: u32, acts: &mut Acts<Mail>) -> Result<(), NoMemory>
        requires can { CanUse acts.old.threads image self.old }
        requires none { (use_of self.old image).requests ≡ 0 }
        ensures { OnOk result (Unregisters image (record { body = self.old; acts = acts.old }) (record { body = self.new; acts = acts.new })) }
    {
        let Some(set) = &mut self.set else {
            unreachable!()
        };
        let answer = unregister_of(set, image);
        self.list(acts.ran(), answer)?;
        self.owe(image, answer);
        Ok(())
    }

    // Does a put, unless a request of the image is unanswered. Answers whether it did.
    pub(crate) fn put_answered(
        &mut self,
        image: u32,
        acts: &mut Acts<Mail>,
    ) -> Result<bool, NoMemory>
        requires can { CanUse acts.old.threads image self.old }
        ensures does { IfOk result (λ did. did ≡ true → Puts image (record { body = self.old; acts = acts.old }) (record { body = self.new; acts = acts.new })) }
        ensures waits { IfOk result (λ did. did ≡ false → (1 ≤ (use_of self.old image).requests) × (self.new ≡ self.old) × (acts.new ≡ acts.old)) }
    {
        if self.uses.at(image as usize).requests > 0 {
            return Ok(false);
        }
        self.put(image, acts)?;
        Ok(true)
    }

    // Does an unregistration, unless a request of the image is unanswered. Answers whether it did.
    pub(crate) fn unregister_answered(
        &mut self,
        image: u32,
        acts: &mut Acts<Mail>,
    ) -> Result<bool, NoMemory>
        requires can { CanUse acts.old.threads image self.old }
        ensures does { IfOk result (λ did. did ≡ true → Unregisters image (record { body = self.old; acts = acts.old }) (record { body = self.new; acts = acts.new })) }
        ensures waits { IfOk result (λ did. did ≡ false → (1 ≤ (use_of self.old image).requests) × (self.new ≡ self.old) × (acts.new ≡ acts.old)) }
    {
        if self.uses.at(image as usize).requests > 0 {
            return Ok(false);
        }
        self.unregister(image, acts)?;
        Ok(true)
    }
}
