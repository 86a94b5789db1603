//! What is known of every load. A law is a function that does nothing: its clause is the law.
ghost use Rattle.std.specs.Prelude.{◌≡◌, ◌≤◌, ℕ, false};
ghost use Rattle.std.specs.List.{list_any};
ghost use Rattle.lw_model.specs.ScriptRules.{all_ops};
ghost use Rattle.lw_model.specs.ScriptText.{IsAccepted};
ghost use Rattle.lw_workload.specs.Workload.{script_drawn, unregisters};

/// The script of a load keeps every rule of a script, so it can be run, and its report can be read back. None of its ops
/// unregisters a device.
pub fn loads_are_accepted()
    ensures accepted { (seed ops : ℕ) → ops ≤ 32000 → IsAccepted (script_drawn seed ops) }
    ensures none { (seed ops : ℕ) → list_any unregisters (all_ops (script_drawn seed ops)) ≡ false }
{}
