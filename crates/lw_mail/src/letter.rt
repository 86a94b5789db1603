//! What contracts see of a message and of its run. No value of these types is ever made.
use crate::mail::Mail;
use lw_device::DeviceRow;
use lw_model::Script;
use lw_pool::PoolPass;
use std::marker::Model;

/// Contracts see what a message says as plain data: its tag, and what it carries.
#[derive(Drop)]
pub struct Letter {
    pub mail: Mail,
}

impl Model for Letter {
    ghost use Rattle.lw_whole.specs.Letters.{Letter as Said};
    ghost use Rattle.lw_mail.specs.Saying.{letter_of};

    ghost Value = { Said };

    ghost view = { λ x. letter_of x.mail };
}

/// Contracts see what the messages of a run have in common as plain data: its script, the pool of a pass and the registry of a
/// row.
#[derive(Drop)]
pub struct RunName {
    pub script: Script,
    pub pass: PoolPass,
    pub row: DeviceRow,
}

impl Model for RunName {
    ghost use Rattle.lw_device.specs.Rows.{latches};
    ghost use Rattle.lw_mail.specs.Runs.{Run};

    ghost Value = { Run };

    ghost view = { λ x. record { script = x.script; pool = x.pass.pool; registry = latches x.row } };
}
