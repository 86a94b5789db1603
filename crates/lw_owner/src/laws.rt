//! What an owner's thread leaves behind. A law is a function that does nothing: its clause is the law.
ghost use Rattle.std.specs.Prelude.{◌≡◌, ℕ, true, [], List};
ghost use Rattle.lw_base.specs.declared.moves.Hop.{Hop};
ghost use Rattle.lw_thread.specs.Acts.{Known};
ghost use Rattle.lw_whole.specs.Letters.{Letter};
ghost use Rattle.lw_mail.specs.Runs.{Run};
ghost use Rattle.lw_owner.specs.declared.owner.Owner.{Owner};
ghost use Rattle.lw_owner.specs.Keeping.{Keeps, may_end};
ghost use Rattle.lw_owner.specs.Leaving.{LeavesLog};

/// An owner that may end, of which nothing is still to be sent, leaves the log of a thread that ended, as whole runs ask for it:
/// on whatever reactor its thread began, and whatever hops it made.
pub fn owners_leave_logs()
    ensures { (k : Known Letter Run) (live : ℕ → ℕ) (b : Owner) (home : ℕ) (hops : List Hop)
        → (h : Keeps k (record { live = live; pending = [] }) b) → may_end b ≡ true
        → LeavesLog h.run.script k b home hops }
{}
