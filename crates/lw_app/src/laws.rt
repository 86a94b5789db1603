//! What may be done with the app's thread, and what that leaves behind. A law is a function that does nothing: its clause is the
//! law.
ghost use Rattle.std.specs.Prelude.{◌≡◌, ℕ, true, false, [], List};
ghost use Rattle.lw_base.specs.declared.moves.Hop.{Hop};
ghost use Rattle.lw_poller.specs.Pollers.{times};
ghost use Rattle.lw_poller.specs.Changes.{with_active};
ghost use Rattle.lw_thread.specs.Acts.{ActsEnd, Known, asks_of};
ghost use Rattle.lw_whole.specs.Letters.{Letter};
ghost use Rattle.lw_mail.specs.Runs.{Run};
ghost use Rattle.lw_mail.specs.Saying.{letter_of};
ghost use Rattle.lw_mail.specs.declared.mail.Mail.{Mail};
ghost use Rattle.lw_app.specs.declared.app.App.{App};
ghost use Rattle.lw_app.specs.Handling.{has_stopped};
ghost use Rattle.lw_app.specs.Keeping.{Keeps, may_end};
ghost use Rattle.lw_app.specs.Leaving.{LeavesLog};

/// An app that has no poller and hasn't sent its Stops may be given one: it stays lawful with it.
pub fn apps_take_a_poller()
    ensures { (k : Known Letter Run) (a : ActsEnd Mail) (n : ℕ) (b : App) → Keeps k (asks_of letter_of a) b
        → has_stopped b.stage ≡ false → ((m : ℕ) → times m a.pollers ≡ 0)
        → Keeps k (asks_of letter_of (record a { pollers = with_active n a.pollers })) b }
{}

/// An app that may end, of which nothing is still to be sent, leaves the log of a thread that ended, as whole runs ask for it, and
/// the row that settling the registry asks for: on whatever reactor its thread began, and whatever hops it made.
pub fn apps_leave_logs()
    ensures { (k : Known Letter Run) (live : ℕ → ℕ) (b : App) (home : ℕ) (hops : List Hop)
        → (h : Keeps k (record { live = live; pending = [] }) b) → may_end b ≡ true
        → LeavesLog h.run k b home hops }
{}
