//! The kinds of lines as values, for loops over lines.
ghost use Rattle.std.specs.Prelude.{◌≡◌};

use crate::kinds::{called, did, hop, ran, reply, seen};
use crate::move_lines::{RoundHead, clock, order, round, row, scheduler};
use crate::placed_lines::{device, thread};
use crate::script_lines::{ClientHead, client, image, op};
use lw_base::{NoMemory, Tag};
use lw_model::{
    Called, DeviceEnd, Did, Hop, ImageOf, Op, Order, Reply, RoleKind, Row, Scheduler, Seen, Span,
};
use std::alloc::Global;

/// A kind of line.
pub trait Kind {
    ghost use Rattle.std.specs.Prelude.{ℕ, List, Option, IfOk, ◌≡◌};

    type Value;

    // What a line says, where it is of this kind.
    ghost of: { Self → List ℕ → Option Self.Value };

    fn read(&self, alloc: Global, line: &[u8]) -> Result<Option<Self::Value>, NoMemory>
        ensures { IfOk result (λ o. o ≡ of self.now line.now) };
}

/// `hop` lines
#[derive(Copy, Clone, Drop)]
pub struct HopLine;

impl Kind for HopLine {
    ghost use Rattle.lw_report_lines.specs.LineKinds.{hop_in};

    type Value = Hop;

    ghost of = { λ k l. hop_in l };

    fn read(&self, _alloc: Global, line: &[u8]) -> Result<Option<Hop>, NoMemory> {
        Ok(hop(line))
    }
}

/// `ran` lines
#[derive(Copy, Clone, Drop)]
pub struct RanLine;

impl Kind for RanLine {
    ghost use Rattle.lw_report_lines.specs.LineKinds.{ran_in};

    type Value = Tag;

    ghost of = { λ k l. ran_in l };

    fn read(&self, _alloc: Global, line: &[u8]) -> Result<Option<Tag>, NoMemory> {
        Ok(ran(line))
    }
}

/// `did` lines
#[derive(Copy, Clone, Drop)]
pub struct DidLine;

impl Kind for DidLine {
    ghost use Rattle.lw_report_lines.specs.LineKinds.{did_in};

    type Value = Did;

    ghost of = { λ k l. did_in l };

    fn read(&self, _alloc: Global, line: &[u8]) -> Result<Option<Did>, NoMemory> {
        Ok(did(line))
    }
}

/// `reply` lines
#[derive(Copy, Clone, Drop)]
pub struct ReplyLine;

impl Kind for ReplyLine {
    ghost use Rattle.lw_report_lines.specs.LineKinds.{reply_in};

    type Value = Reply;

    ghost of = { λ k l. reply_in l };

    fn read(&self, alloc: Global, line: &[u8]) -> Result<Option<Reply>, NoMemory> {
        reply(alloc, line)
    }
}

/// `seen` lines
#[derive(Copy, Clone, Drop)]
pub struct SeenLine;

impl Kind for SeenLine {
    ghost use Rattle.lw_report_lines.specs.LineKinds.{seen_in};

    type Value = Seen;

    ghost of = { λ k l. seen_in l };

    fn read(&self, alloc: Global, line: &[u8]) -> Result<Option<Seen>, NoMemory> {
        seen(alloc, line)
    }
}

/// `image` lines
#[derive(Copy, Clone, Drop)]
pub struct ImageLine;

impl Kind for ImageLine {
    ghost use Rattle.lw_report_lines.specs.LineKinds.{image_in};

    type Value = ImageOf;

    ghost of = { λ k l. image_in l };

    fn read(&self, alloc: Global, line: &[u8]) -> Result<Option<ImageOf>, NoMemory> {
        image(alloc, line)
    }
}

/// `client` lines
#[derive(Copy, Clone, Drop)]
pub struct ClientLine;

impl Kind for ClientLine {
    ghost use Rattle.lw_report_lines.specs.LineKinds.{client_in};

    type Value = ClientHead;

    ghost of = { λ k l. client_in l };

    fn read(&self, alloc: Global, line: &[u8]) -> Result<Option<ClientHead>, NoMemory> {
        client(alloc, line)
    }
}

/// `op` lines
#[derive(Copy, Clone, Drop)]
pub struct OpLine;

impl Kind for OpLine {
    ghost use Rattle.lw_report_lines.specs.LineKinds.{op_in};

    type Value = Op;

    ghost of = { λ k l. op_in l };

    fn read(&self, alloc: Global, line: &[u8]) -> Result<Option<Op>, NoMemory> {
        op(alloc, line)
    }
}

/// `called` lines of devices below `images`
#[derive(Copy, Clone, Drop)]
pub struct CalledLine {
    pub images: u64,
}

impl Kind for CalledLine {
    ghost use Rattle.lw_report_lines.specs.LineKinds.{called_in};

    type Value = Called;

    ghost of = { λ k l. called_in k.images l };

    fn read(&self, _alloc: Global, line: &[u8]) -> Result<Option<Called>, NoMemory> {
        Ok(called(line, self.images))
    }
}

/// The line of one thread: its home
#[derive(Copy, Clone, Drop)]
pub struct ThreadLine {
    pub role: RoleKind,
    pub number: u64,
}

impl Kind for ThreadLine {
    ghost use Rattle.lw_report_lines.specs.LineKinds.{thread_in};

    type Value = u32;

    ghost of = { λ k l. thread_in k.role k.number l };

    fn read(&self, _alloc: Global, line: &[u8]) -> Result<Option<u32>, NoMemory> {
        Ok(thread(line, self.role, self.number))
    }
}

/// The line of one device
#[derive(Copy, Clone, Drop)]
pub struct DeviceLine {
    pub number: u64,
}

impl Kind for DeviceLine {
    ghost use Rattle.lw_report_lines.specs.LineKinds.{device_in};

    type Value = DeviceEnd;

    ghost of = { λ k l. device_in k.number l };

    fn read(&self, _alloc: Global, line: &[u8]) -> Result<Option<DeviceEnd>, NoMemory> {
        Ok(device(line, self.number))
    }
}

/// The scheduler's line
#[derive(Copy, Clone, Drop)]
pub struct SchedulerLine;

impl Kind for SchedulerLine {
    ghost use Rattle.lw_report_lines.specs.MoveLines.{scheduler_in};

    type Value = Scheduler;

    ghost of = { λ k l. scheduler_in l };

    fn read(&self, _alloc: Global, line: &[u8]) -> Result<Option<Scheduler>, NoMemory> {
        Ok(scheduler(line))
    }
}

/// The clock's line
#[derive(Copy, Clone, Drop)]
pub struct ClockLine;

impl Kind for ClockLine {
    ghost use Rattle.lw_report_lines.specs.MoveLines.{clock_in};

    type Value = Span;

    ghost of = { λ k l. clock_in l };

    fn read(&self, _alloc: Global, line: &[u8]) -> Result<Option<Span>, NoMemory> {
        Ok(clock(line))
    }
}

/// `round` lines
#[derive(Copy, Clone, Drop)]
pub struct RoundLine;

impl Kind for RoundLine {
    ghost use Rattle.lw_report_lines.specs.MoveLines.{round_in};

    type Value = RoundHead;

    ghost of = { λ k l. round_in l };

    fn read(&self, _alloc: Global, line: &[u8]) -> Result<Option<RoundHead>, NoMemory> {
        Ok(round(line))
    }
}

/// `row` lines
#[derive(Copy, Clone, Drop)]
pub struct RowLine;

impl Kind for RowLine {
    ghost use Rattle.lw_report_lines.specs.MoveLines.{row_in};

    type Value = Row;

    ghost of = { λ k l. row_in l };

    fn read(&self, _alloc: Global, line: &[u8]) -> Result<Option<Row>, NoMemory> {
        Ok(row(line))
    }
}

/// `order` lines
#[derive(Copy, Clone, Drop)]
pub struct OrderLine;

impl Kind for OrderLine {
    ghost use Rattle.lw_report_lines.specs.MoveLines.{order_in};

    type Value = Order;

    ghost of = { λ k l. order_in l };

    fn read(&self, _alloc: Global, line: &[u8]) -> Result<Option<Order>, NoMemory> {
        Ok(order(line))
    }
}
