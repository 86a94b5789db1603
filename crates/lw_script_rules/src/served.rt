//! The scripts that the run serves so far.
ghost use Rattle.std.specs.Prelude.{◌≡◌};
ghost use Rattle.std.specs.List.{list_all};
ghost use Rattle.lw_model.specs.ScriptRules.{all_ops};
ghost use Rattle.lw_script_rules.specs.Served.{is_basic, is_served};

use lw_model::{ClientOf, Op, Script};

/// Whether the run serves a script of this form: one client on one image, with gets, puts, writes and reads.
pub fn is_served(script: &Script) -> bool
    ensures { result ≡ is_served script.now }
{
    script.images.len() == 1 && script.clients.len() == 1 && has_basic_ops(script)
}

fn has_basic_ops(script: &Script) -> bool
    ensures { result ≡ list_all is_basic (all_ops script.now) }
{
    have_basic_ops(script.clients.as_slice())
}

fn have_basic_ops(clients: &[ClientOf]) -> bool
    ensures { result ≡ list_all (λ c. list_all is_basic c.ops) clients.now }
{
    clients
        .iter()
        .all(|client| are_basic(client.ops.as_slice()))
}

fn are_basic(ops: &[Op]) -> bool
    ensures { result ≡ list_all is_basic ops.now }
{
    ops.iter().all(is_basic)
}

fn is_basic(op: &Op) -> bool
    ensures { result ≡ is_basic op.now }
{
    matches!(
        op,
        Op::Get { .. } | Op::Put { .. } | Op::Write { .. } | Op::Read { .. }
    )
}
