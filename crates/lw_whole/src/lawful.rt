//! The laws of the logs of many threads. A law is a function that does nothing: its clause is the law.
ghost use Rattle.std.specs.Prelude.{◌≡◌, ℕ, true, map, length, List};
ghost use Rattle.std.specs.List.{list_all, AllByRecursion, enumerate_from};
ghost use Rattle.lw_base.specs.declared.moves.Hop.{Hop};
ghost use Rattle.lw_model.specs.declared.script.Script.{Script};
ghost use Rattle.lw_model.specs.declared.record.Record.{Record};
ghost use Rattle.lw_model.specs.Printable.{is_printable_thread};
ghost use Rattle.lw_model.specs.Lawful.{Lawful};
ghost use Rattle.lw_model.specs.Threads.{owner_of};
ghost use Rattle.lw_whole.specs.Letters.{Letter, Note};
ghost use Rattle.lw_whole.specs.Logs.{Log};
ghost use Rattle.lw_whole.specs.Notes.{idle};
ghost use Rattle.lw_whole.specs.Owners.{Served, owner_log};
ghost use Rattle.lw_whole.specs.Threads.{Ended, AllEnded};
ghost use Rattle.lw_whole.specs.WholeRun.{IsWholeRun};

/// The record of a whole run is lawful: of any number of clients and images, from the log of each thread, the settled rings
/// and registry, where the threads ran, and the pool.
pub fn whole_runs_are_lawful()
    ensures { (r : Record) (logs : List Log) → IsWholeRun r logs → Lawful r }
{}

/// The threads of a run that ended have a text, so a record can be made of their lines: replies and results stand under
/// clients alone, what a reply brought are one byte or more, a cast reached a thread, each message that was run has a
/// line, and each callback is of a device that there is.
pub fn threads_have_a_text()
    ensures { (s : Script) (logs : List Log) → AllEnded s logs → list_all (λ p. is_printable_thread s p.0 p.1) (enumerate_from 0 (map (λ l. l.lines) logs)) ≡ true }
{}

/// What an owner keeps of its log while it runs is, once it has ended, the log of a thread that ended: where it is the thread that
/// owns an image, each letter that it ran sent what it had to, and its row was not used.
pub fn owners_end()
    ensures { (s : Script) (t d home : ℕ) (hops : List Hop) (runs : List Letter) (sends : List (List (ℕ × Letter))) (notes : List Note)
        → t ≡ owner_of s d → Served s t runs sends → AllByRecursion (λ n. n ≡ idle) notes → length notes ≡ length s.images
        → Ended s t (owner_log home hops runs sends notes) }
{}
