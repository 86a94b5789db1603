//! What an op asks of a client.
ghost use Rattle.std.specs.Prelude.{◌≡◌, ◌<◌, true};
ghost use Rattle.lw_target.specs.Ops.{is_servable, asks_bytes};
ghost use Rattle.lw_target.specs.Actions.{action_on, device_of, is_ask, names_image};

use lw_model::Op;

/// What an op asks of a client, with the device that it is about.
#[derive(Copy, Clone, Drop)]
pub enum Action {
    Get(u32),
    Put(u32),
    /// A request to the device's owner.
    Ask(u32),
}

impl Action {
    /// The device that it is about.
    pub fn device(self) -> u32
        ensures { result ≡ device_of self }
    {
        match self {
            Action::Get(device) | Action::Put(device) | Action::Ask(device) => device,
        }
    }
}

/// What an op asks a client of so many devices to do.
pub fn action_of(op: &Op, devices: usize) -> Action
    requires { is_servable devices op.now ≡ true }
    ensures action { result ≡ action_on op.now }
    ensures device { device_of result < devices }
    ensures asks { asks_bytes op.now ≡ is_ask result }
{
    match op {
        Op::Get { image } => Action::Get(*image),
        Op::Put { image } => Action::Put(*image),
        Op::Write { image, .. } | Op::Read { image, .. } => Action::Ask(*image),
        _ => unreachable!(),
    }
}

/// Whether the op with this number is about the image.
pub fn is_about(ops: &[Op], op: u32, image: u32) -> bool
    ensures { result ≡ names_image ops.now image op }
{
    match ops.get(op as usize) {
        Some(Op::Get { image: other })
        | Some(Op::Put { image: other })
        | Some(Op::Write { image: other, .. })
        | Some(Op::Read { image: other, .. })
        | Some(Op::Flush { image: other })
        | Some(Op::Visit { image: other })
        | Some(Op::Unregister { image: other }) => *other == image,
        _ => false,
    }
}
