//! What visits found.
ghost use Rattle.std.specs.Prelude.{◌≡◌, ◌≢◌, ◌∷◌, ◌++◌, [], ◌<◌, ℕ, List, Some, cond, length, IfOk, OnOk, option_to_list};
ghost use Rattle.std.specs.Prelude.{nat_eq};
ghost use Rattle.std.specs.Option.{option_eq};
ghost use Rattle.lw_model.specs.declared.step.Step.{Step};
ghost use Rattle.lw_model.specs.declared.step.Step.TheVariants as step;
ghost use Rattle.lw_model.specs.declared.record.Record.{Record};
ghost use Rattle.lw_model.specs.declared.script.Script.{Script};
ghost use Rattle.lw_judge_messages.specs.declared.tokens.Token.{Token};
ghost use Rattle.lw_judge_threads.specs.Holdings.{HoldsAt};
ghost use Rattle.lw_judge_messages.specs.MarksAt.{AreMarksAt, FindsMark, HasRun, mark_at, marks_under};

use crate::tokens::Token;
use lw_base::{Mark, NoMemory, Tag};
use lw_judge_threads::{Holding, image_at};
use lw_model::{Script, Step};
use std::alloc::Global;
use std::collections::HashMap;

/// What a visit found so far.
#[derive(Drop)]
pub struct Found {
    /// The last thread that ran its token.
    last: Option<u32>,
    /// The marks of the threads that held a channel of its device.
    marks: Vec<Mark>,
}

/// What each visit found so far, under its token.
#[derive(Drop)]
pub struct Marks {
    by_token: HashMap<Token, Found>,
}

impl Marks {
    /// Before any thread.
    pub fn new(alloc: Global) -> Self
        ensures { (r : Record) → AreMarksAt r 0 [] result }
    {
        Marks {
            by_token: HashMap::new(alloc),
        }
    }

    /// The marks of a visit, by ascending thread.
    pub fn of(&self, token: &Token) -> &[Mark]
        ensures { result.now ≡ marks_under self.now token.now }
    {
        match self.by_token.get(token) {
            Some(found) => found.marks.as_slice(),
            None => &[],
        }
    }

    /// Goes past one step more of a thread, which held this before it.
    pub fn step(
        &mut self,
        alloc: Global,
        script: &Script,
        thread: u32,
        holding: &Holding,
        step: &Step,
    ) -> Result<(), NoMemory>
        ensures { (r : Record) (past : List Step) → r.script ≡ script.now → HoldsAt r.script thread past holding.now
            → AreMarksAt r thread past self.old → OnOk result (AreMarksAt r thread (step.now ∷ past) self.new) }
    {
        let Step::Ran { tag, .. } = step else {
            return Ok(());
        };
        self.run(alloc, script, thread, holding, tag)
    }

    // The thread ran a message. A visit that is no op of the script is passed over.
    fn run(
        &mut self,
        alloc: Global,
        script: &Script,
        thread: u32,
        holding: &Holding,
        tag: &Tag,
    ) -> Result<(), NoMemory>
        ensures { (r : Record) (past : List Step) (place : ℕ) → r.script ≡ script.now → HoldsAt r.script thread past holding.now
            → AreMarksAt r thread past self.old → OnOk result (AreMarksAt r thread (step.Ran place tag.now ∷ past) self.new) }
    {
        let Some(Token::Visit { origin, op, device }) = Token::of(&tag.what) else {
            return Ok(());
        };
        if image_at(script, origin as usize, op) != Some(device) {
            return Ok(());
        }
        let mark = mark_of(thread, holding, device);
        self.add(alloc, Token::Visit { origin, op, device }, thread, mark)
    }

    // A thread ran a token: where it does so for the first time, what it holds there counts.
    fn add(
        &mut self,
        alloc: Global,
        token: Token,
        thread: u32,
        mark: Option<Mark>,
    ) -> Result<(), NoMemory>
        ensures { OnOk result (HasRun token thread mark self.old self.new) }
    {
        let found = self.by_token.entry(token)?.or_insert(Found {
            last: None,
            marks: Vec::new(alloc),
        });
        found.add(thread, mark)
    }
}

// What a thread that holds a channel of the device adds to a visit.
fn mark_of(thread: u32, holding: &Holding, device: u32) -> Option<Mark>
    ensures { (s : Script) (past : List Step) → HoldsAt s thread past holding.now → device < length s.images
        → result ≡ mark_at s thread device past }
{
    match holding.held(device) {
        Some(_) => Some(Mark {
            thread,
            submitted: holding.submitted(device),
        }),
        None => None,
    }
}

impl Found {
    fn add(&mut self, thread: u32, mark: Option<Mark>) -> Result<(), NoMemory>
        ensures { OnOk result (FindsMark thread mark self.old self.new) }
    {
        if self.last == Some(thread) {
            return Ok(());
        }
        self.last = Some(thread);
        if let Some(mark) = mark {
            self.marks.push(mark)?;
        }
        Ok(())
    }
}
