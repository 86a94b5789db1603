//! Who may be a client. A law is a function that does nothing: its clause is the law.
ghost use Rattle.std.specs.Prelude.{◌≡◌, ℕ, true, None, length};
ghost use Rattle.lw_model.specs.ScriptRules.{rule_broken};
ghost use Rattle.lw_model.specs.Threads.{is_client, depth_of};
ghost use Rattle.lw_mail.specs.Runs.{Run};
ghost use Rattle.lw_client.specs.Clients.{IsClientOf};

/// Each client of a script that breaks no rule has ops that a client may have, and so is one of a run of that script with a device an
/// image.
pub fn clients_may_begin()
    ensures { (run : Run) (thread : ℕ) → rule_broken run.script ≡ None → is_client run.script thread ≡ true
        → length run.registry ≡ length run.script.images → IsClientOf run run.script thread (depth_of run.script thread) }
{}
