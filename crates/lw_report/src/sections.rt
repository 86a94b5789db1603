//! The parts of a report that have several lines.
ghost use Rattle.std.specs.Prelude.{◌≡◌, ◌+◌, ◌<◌, length, IfOk, Ok};
ghost use Rattle.lw_report.specs.Machine.{Says, SaysList, one, numbered};
ghost use Rattle.lw_report_lines.specs.LineKinds.{image_in, op_in, device_in};
ghost use Rattle.lw_report.specs.Report.{client_at, client_lines, list_at, role_at, thread_at, thread_lines};

use crate::lines::{Lines, Part, Stop, numbered};
use lw_base::NoMemory;
use lw_model::{ClientOf, DeviceEnd, ImageOf, Items, Op, Reply, RoleKind, Seen, ThreadRecord};
use lw_report_lines::{
    CalledLine, ClientLine, DeviceLine, DidLine, HopLine, ImageLine, NumberLine, OpLine, RanLine,
    ReplyLine, SeenLine, ThreadLine,
};
use std::alloc::Global;

/// An image's line
#[derive(Copy, Clone, Drop)]
pub struct ImagePart;

impl Part for ImagePart {
    ghost use Rattle.lw_report.specs.Machine.{one};
    ghost use Rattle.lw_report_lines.specs.LineKinds.{image_in};

    type Value = ImageOf;

    ghost of = { λ p n s. one image_in s };

    fn read(&self, alloc: Global, _number: u64, lines: &mut Lines<'_>) -> Result<ImageOf, Stop> {
        lines.one(alloc, &ImageLine)
    }
}

/// An op's line
#[derive(Copy, Clone, Drop)]
pub struct OpPart;

impl Part for OpPart {
    ghost use Rattle.lw_report.specs.Machine.{one};
    ghost use Rattle.lw_report_lines.specs.LineKinds.{op_in};

    type Value = Op;

    ghost of = { λ p n s. one op_in s };

    fn read(&self, alloc: Global, _number: u64, lines: &mut Lines<'_>) -> Result<Op, Stop> {
        lines.one(alloc, &OpLine)
    }
}

/// A client's line and its ops
#[derive(Copy, Clone, Drop)]
pub struct ClientPart;

impl Part for ClientPart {
    ghost use Rattle.lw_report.specs.Report.{client_at};

    type Value = ClientOf;

    ghost of = { λ p n s. client_at s };

    fn read(&self, alloc: Global, _number: u64, lines: &mut Lines<'_>) -> Result<ClientOf, Stop> {
        let head = lines.one(alloc, &ClientLine)?;
        let ops = numbered(alloc, lines, &OpPart, head.ops)?;
        Ok(ClientOf {
            name: head.name,
            depth: head.depth,
            ops: Items::from_vec(ops),
        })
    }
}

/// A device's line
#[derive(Copy, Clone, Drop)]
pub struct DevicePart;

impl Part for DevicePart {
    ghost use Rattle.lw_report.specs.Machine.{one};
    ghost use Rattle.lw_report_lines.specs.LineKinds.{device_in};

    type Value = DeviceEnd;

    ghost of = { λ p n s. one (device_in n) s };

    fn read(&self, alloc: Global, number: u64, lines: &mut Lines<'_>) -> Result<DeviceEnd, Stop> {
        lines.one(alloc, &DeviceLine { number })
    }
}

/// A line that counts, and so many parts behind it
pub fn list<P: Part>(
    alloc: Global,
    lines: &mut Lines<'_>,
    kind: NumberLine,
    part: &P,
) -> Result<Vec<P::Value>, Stop>
where
    P::Value: Drop,
    ensures { SaysList result lines.new (list_at kind (P.of part.now) lines.old) }
{
    let count = lines.one(alloc, &kind)?;
    numbered(alloc, lines, part, count)
}

/// The role of the thread of a number: 0 is the app, the clients follow, then the owners.
fn role_of(clients: u64, number: u64) -> RoleKind
    ensures { result ≡ role_at clients number }
{
    if number == 0 {
        RoleKind::App
    } else if number <= clients {
        RoleKind::Client
    } else {
        RoleKind::Owner
    }
}

// The lines that stand under clients alone.
#[derive(Drop)]
struct OwnLines {
    replies: Items<Reply>,
    seen: Items<Seen>,
}

fn client_lines(alloc: Global, lines: &mut Lines<'_>, role: RoleKind) -> Result<OwnLines, NoMemory>
    ensures { IfOk result (λ own. ((own.replies, own.seen), lines.new) ≡ client_lines role lines.old) }
{
    match role {
        RoleKind::Client => {
            let replies = lines.many(alloc, &ReplyLine)?;
            let seen = lines.many(alloc, &SeenLine)?;
            Ok(OwnLines {
                replies: Items::from_vec(replies),
                seen: Items::from_vec(seen),
            })
        }
        _ => Ok(OwnLines {
            replies: Items::new(alloc),
            seen: Items::new(alloc),
        }),
    }
}

fn thread_lines(
    alloc: Global,
    lines: &mut Lines<'_>,
    role: RoleKind,
    home: u32,
    images: u64,
) -> Result<ThreadRecord, NoMemory>
    ensures { IfOk result (λ t. (t, lines.new) ≡ thread_lines role home images lines.old) }
{
    let hops = lines.many(alloc, &HopLine)?;
    let ran = lines.many(alloc, &RanLine)?;
    let did = lines.many(alloc, &DidLine)?;
    let called = lines.many(alloc, &CalledLine { images })?;
    let own = client_lines(alloc, lines, role)?;
    Ok(ThreadRecord {
        role,
        home,
        hops: Items::from_vec(hops),
        ran: Items::from_vec(ran),
        did: Items::from_vec(did),
        called: Items::from_vec(called),
        replies: own.replies,
        seen: own.seen,
    })
}

/// A thread's line and the lines under it
#[derive(Copy, Clone, Drop)]
pub struct ThreadPart {
    pub clients: u64,
    pub images: u64,
}

impl Part for ThreadPart {
    ghost use Rattle.lw_report.specs.Report.{thread_at};

    type Value = ThreadRecord;

    ghost of = { λ p n s. thread_at p.clients p.images n s };

    fn read(
        &self,
        alloc: Global,
        number: u64,
        lines: &mut Lines<'_>,
    ) -> Result<ThreadRecord, Stop> {
        let role = role_of(self.clients, number);
        let home = lines.one(alloc, &ThreadLine { role, number })?;
        Ok(thread_lines(alloc, lines, role, home, self.images)?)
    }
}
