//! The lines of a record that stand alone, one kind an impl.
ghost use Rattle.std.specs.Prelude.{◌≡◌, ◌++◌, ◌∷◌, [], codes, decimal, length, string_bytes, flat_map, IfOk, OnOk};
ghost use Rattle.hex.specs.Hex.{IsBytes, encode_lower};
ghost use Rattle.lw_model.specs.Ranges.{Fits32, Fits64, SeenByFits};
ghost use Rattle.lw_model.specs.ReportText.{client_line, result_words, round_line};

use crate::printed::{Printed, push_all};
use lw_base::{Mark, Tag, What};
use lw_model::{
    Answer, Called, ClientOf, Did, Hop, ImageOf, Op, Order, Replied, Reply, Round, Row, Seen,
    SeenBy,
};
use std::alloc::{AllocError, Global};

impl Printed for Row {
    ghost use Rattle.lw_model.specs.ReportText.{row_line};
    ghost use Rattle.lw_model.specs.Ranges.{RowFits};

    ghost text = { λ r. row_line r ++ 10 ∷ [] };

    ghost fits = { RowFits };

    fn push_to(&self, _alloc: Global, out: &mut String) -> Result<(), AllocError> {
        let Row {
            thread,
            reactor,
            busy,
            idle,
        } = *self;
        writeln!(out, "row {} {} {} {}", thread, reactor, busy, idle)
    }
}

impl Printed for Order {
    ghost use Rattle.lw_model.specs.ReportText.{order_line};
    ghost use Rattle.lw_model.specs.Ranges.{OrderFits};

    ghost text = { λ o. order_line o ++ 10 ∷ [] };

    ghost fits = { OrderFits };

    fn push_to(&self, _alloc: Global, out: &mut String) -> Result<(), AllocError> {
        let Order { thread, to } = *self;
        writeln!(out, "order {} {}", thread, to)
    }
}

impl Printed for Hop {
    ghost use Rattle.lw_model.specs.ReportText.{hop_line};
    ghost use Rattle.lw_model.specs.Ranges.{HopFits};

    ghost text = { λ h. hop_line h ++ 10 ∷ [] };

    ghost fits = { HopFits };

    fn push_to(&self, _alloc: Global, out: &mut String) -> Result<(), AllocError> {
        let Hop { round, reactor } = *self;
        writeln!(out, "hop {} {}", round, reactor)
    }
}

impl Printed for Called {
    ghost use Rattle.lw_model.specs.ReportText.{called_line};
    ghost use Rattle.lw_model.specs.Ranges.{CalledFits};

    ghost text = { λ c. called_line c ++ 10 ∷ [] };

    ghost fits = { CalledFits };

    fn push_to(&self, _alloc: Global, out: &mut String) -> Result<(), AllocError> {
        let Called { at, device } = *self;
        writeln!(out, "called {} {}", at, device)
    }
}

impl Printed for ImageOf {
    ghost use Rattle.lw_model.specs.ReportText.{image_line};
    ghost use Rattle.lw_model.specs.Ranges.{ImageFits};

    ghost text = { λ i. image_line i ++ 10 ∷ [] };

    ghost fits = { ImageFits };

    fn push_to(&self, _alloc: Global, out: &mut String) -> Result<(), AllocError> {
        let name = self.name.as_str();
        let (block, blocks) = (self.block, self.blocks);
        writeln!(out, "image {} {} {}", name, block, blocks)
    }
}

impl Printed for Did {
    ghost use Rattle.lw_model.specs.ReportText.{did_line};
    ghost use Rattle.lw_model.specs.Ranges.{DidFits};

    ghost text = { λ d. did_line d ++ 10 ∷ [] };

    ghost fits = { DidFits };

    fn push_to(&self, _alloc: Global, out: &mut String) -> Result<(), AllocError> {
        let (at, op) = (self.at, self.op);
        match self.answer {
            Answer::Given { ordinal } => writeln!(out, "did {} {} given {}", at, op, ordinal),
            Answer::Again { ordinal } => writeln!(out, "did {} {} again {}", at, op, ordinal),
            Answer::Shut => writeln!(out, "did {} {} shut", at, op),
            Answer::Counted => writeln!(out, "did {} {} counted", at, op),
            Answer::Deferred => writeln!(out, "did {} {} deferred", at, op),
            Answer::NoChannel => writeln!(out, "did {} {} nochannel", at, op),
            Answer::Sent => writeln!(out, "did {} {} sent", at, op),
            Answer::Waited => writeln!(out, "did {} {} waited", at, op),
            Answer::Started => writeln!(out, "did {} {} started", at, op),
            Answer::Began { given } => writeln!(out, "did {} {} began {}", at, op, given),
            Answer::Already => writeln!(out, "did {} {} already", at, op),
            Answer::Closed => writeln!(out, "did {} {} closed", at, op),
        }
    }
}

impl Printed for Tag {
    ghost use Rattle.lw_model.specs.ReportText.{ran_line};
    ghost use Rattle.lw_model.specs.Ranges.{TagFits};

    ghost text = { λ t. ran_line t ++ 10 ∷ [] };

    ghost fits = { TagFits };

    fn push_to(&self, _alloc: Global, out: &mut String) -> Result<(), AllocError> {
        let (sender, number) = (self.sender, self.number);
        match self.what {
            What::Request { op } => writeln!(out, "ran {} {} request {}", sender, number, op),
            What::Reply { op } => writeln!(out, "ran {} {} reply {}", sender, number, op),
            What::PutSelf { device } => {
                writeln!(out, "ran {} {} putself {}", sender, number, device)
            }
            What::Visit { origin, op, device } => {
                writeln!(
                    out,
                    "ran {} {} visit {} {} {}",
                    sender, number, origin, op, device
                )
            }
            What::Visited { op } => writeln!(out, "ran {} {} visited {}", sender, number, op),
            What::Cast { origin, op } => {
                writeln!(out, "ran {} {} cast {} {}", sender, number, origin, op)
            }
            What::Casted { op } => writeln!(out, "ran {} {} casted {}", sender, number, op),
            What::Done => writeln!(out, "ran {} {} done", sender, number),
            What::Stop => writeln!(out, "ran {} {} stop", sender, number),
            What::Arrive { round, thread } => writeln!(out, "ran {} {}", sender, number),
            What::Order { round, thread, to } => writeln!(out, "ran {} {}", sender, number),
        }
    }
}

// Bytes in hexadecimal.
fn digits_of(alloc: Global, bytes: &[u8]) -> Result<String, AllocError>
    ensures digits { IfOk result (λ text. string_bytes text ≡ encode_lower bytes.now) }
    ensures range { IsBytes bytes.now }
{
    hex::encode(alloc, bytes)
}

impl Printed for Reply {
    ghost use Rattle.lw_model.specs.ReportText.{reply_line};
    ghost use Rattle.lw_model.specs.Ranges.{ReplyFits};

    ghost text = { λ r. reply_line r ++ 10 ∷ [] };

    ghost fits = { ReplyFits };

    fn push_to(&self, alloc: Global, out: &mut String) -> Result<(), AllocError> {
        let op = self.op;
        match self.answer {
            Replied::Ok => writeln!(out, "reply {} ok", op),
            Replied::Bytes(ref bytes) => {
                let digits = digits_of(alloc, bytes.as_slice())?;
                writeln!(out, "reply {} bytes {}", op, digits)
            }
            Replied::Writes(writes) => writeln!(out, "reply {} writes {}", op, writes),
        }
    }
}

impl Printed for Op {
    ghost use Rattle.lw_model.specs.ReportText.{op_line};
    ghost use Rattle.lw_model.specs.Ranges.{OpFits};

    ghost text = { λ o. op_line o ++ 10 ∷ [] };

    ghost fits = { OpFits };

    fn push_to(&self, alloc: Global, out: &mut String) -> Result<(), AllocError> {
        match *self {
            Op::Get { image } => writeln!(out, "op get {}", image),
            Op::Put { image } => writeln!(out, "op put {}", image),
            Op::Write {
                image,
                start,
                count,
                ref pattern,
            } => {
                let digits = digits_of(alloc, pattern.as_slice())?;
                writeln!(out, "op write {} {} {} {}", image, start, count, digits)
            }
            Op::Read {
                image,
                start,
                count,
            } => { writeln!(out, "op read {} {} {}", image, start, count) }
            Op::Flush { image } => writeln!(out, "op flush {}", image),
            Op::Wait { ticks } => writeln!(out, "op wait {}", ticks),
            Op::Visit { image } => writeln!(out, "op visit {}", image),
            Op::Each => writeln!(out, "op each"),
            Op::Unregister { image } => writeln!(out, "op unregister {}", image),
        }
    }
}

impl Printed for ClientOf {
    ghost use Rattle.lw_model.specs.ReportText.{client_lines, text_of_lines};
    ghost use Rattle.lw_model.specs.Ranges.{ClientFits};

    ghost text = { λ c. text_of_lines (client_lines c) };

    ghost fits = { ClientFits };

    fn push_to(&self, alloc: Global, out: &mut String) -> Result<(), AllocError> {
        push_client_line(out, self)?;
        push_all(alloc, out, self.ops.as_slice())
    }
}

impl Printed for Round {
    ghost use Rattle.lw_model.specs.ReportText.{round_lines, text_of_lines};
    ghost use Rattle.lw_model.specs.Ranges.{RoundFits};

    ghost text = { λ r. text_of_lines (round_lines r) };

    ghost fits = { RoundFits };

    fn push_to(&self, alloc: Global, out: &mut String) -> Result<(), AllocError> {
        push_round_line(out, self)?;
        push_all(alloc, out, self.rows.as_slice())?;
        push_all(alloc, out, self.orders.as_slice())
    }
}

fn push_client_line(out: &mut String, client: &ClientOf) -> Result<(), AllocError>
    ensures bytes { OnOk result (string_bytes out.new
        ≡ string_bytes out.old ++ (client_line client.now ++ 10 ∷ [])) }
    ensures range { OnOk result (Fits32 client.now.depth × Fits64 (length client.now.ops)) }
{
    let name = client.name.as_str();
    let (depth, count) = (client.depth, client.ops.len());
    writeln!(out, "client {} {} {}", name, depth, count)
}

fn push_round_line(out: &mut String, round: &Round) -> Result<(), AllocError>
    ensures bytes { OnOk result (string_bytes out.new
        ≡ string_bytes out.old ++ (round_line round.now ++ 10 ∷ [])) }
    ensures range { OnOk result (Fits32 round.now.number × Fits64 round.now.time) }
{
    let (number, time) = (round.number, round.time);
    writeln!(out, "round {} {}", number, time)
}

// A result of a visit, behind a space.
impl Printed for Mark {
    ghost use Rattle.lw_model.specs.ReportText.{mark_word};
    ghost use Rattle.lw_model.specs.Ranges.{MarkFits};

    ghost text = { λ m. 32 ∷ mark_word m };

    ghost fits = { MarkFits };

    fn push_to(&self, _alloc: Global, out: &mut String) -> Result<(), AllocError> {
        let Mark { thread, submitted } = *self;
        write!(out, " {}:{}", thread, submitted)
    }
}

// A number, behind a space.
impl Printed for u32 {
    ghost use Rattle.std.specs.Prelude.{decimal};
    ghost use Rattle.lw_model.specs.Ranges.{Fits32};

    ghost text = { λ n. 32 ∷ decimal n };

    ghost fits = { Fits32 };

    fn push_to(&self, _alloc: Global, out: &mut String) -> Result<(), AllocError> {
        let n = *self;
        write!(out, " {}", n)
    }
}

fn push_results(alloc: Global, out: &mut String, results: &SeenBy) -> Result<(), AllocError>
    ensures bytes { OnOk result (string_bytes out.new
        ≡ string_bytes out.old ++ flat_map (λ w. 32 ∷ w) (result_words results.now)) }
    ensures range { OnOk result (SeenByFits results.now) }
{
    match results {
        SeenBy::Visit(marks) => push_all(alloc, out, marks.as_slice()),
        SeenBy::Cast(threads) => push_all(alloc, out, threads.as_slice()),
    }
}

fn push_seen_head(out: &mut String, op: u32) -> Result<(), AllocError>
    ensures { OnOk result (string_bytes out.new
        ≡ string_bytes out.old ++ (codes "seen " ++ decimal op)) }
{
    write!(out, "seen {}", op)
}

impl Printed for Seen {
    ghost use Rattle.lw_model.specs.ReportText.{seen_line};
    ghost use Rattle.lw_model.specs.Ranges.{SeenFits};

    ghost text = { λ s. seen_line s ++ 10 ∷ [] };

    ghost fits = { SeenFits };

    fn push_to(&self, alloc: Global, out: &mut String) -> Result<(), AllocError> {
        push_seen_head(out, self.op)?;
        push_results(alloc, out, &self.results)?;
        writeln!(out)
    }
}
