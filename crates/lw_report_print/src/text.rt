//! The text of a whole record.
ghost use Rattle.std.specs.Prelude.{◌≡◌, ◌++◌, ◌∷◌, [], map, flat_map, string_bytes, codes, decimal, IfOk, OnOk};
ghost use Rattle.std.specs.List.{AllByRecursion};
ghost use Rattle.lw_model.specs.Ranges.{ClientFits, Fits32, Fits64, HomeFits, ImageFits, RecordFits, SpanFits};
ghost use Rattle.lw_model.specs.ReportText.{text_of, head_lines, image_line, client_lines, round_lines, clock_lines, line, scheduler_word, count_of, text_of_lines};

use crate::printed::push_all;
use crate::threads::{push_devices, push_threads};
use lw_base::NoMemory;
use lw_model::{ClientOf, Home, ImageOf, Record, Scheduler, Span};
use std::alloc::{AllocError, Global};

fn scheduler_text(scheduler: Scheduler) -> &'static str
    ensures { result.now ≡ scheduler_word scheduler }
{
    match scheduler {
        Scheduler::Static => "static",
        Scheduler::Dynamic => "dynamic",
    }
}

fn push_line(out: &mut String, text: &str) -> Result<(), AllocError>
    ensures { OnOk result (string_bytes out.new ≡ string_bytes out.old ++ (text.now ++ 10 ∷ [])) }
{
    writeln!(out, "{}", text)
}

fn push_word(out: &mut String, word: &str, text: &str) -> Result<(), AllocError>
    ensures { OnOk result (string_bytes out.new
        ≡ string_bytes out.old ++ (line (word.now ∷ text.now ∷ []) ++ 10 ∷ [])) }
{
    writeln!(out, "{} {}", word, text)
}

fn push_number(out: &mut String, word: &str, n: u64) -> Result<(), AllocError>
    ensures { OnOk result (string_bytes out.new
        ≡ string_bytes out.old ++ (line (word.now ∷ decimal n ∷ []) ++ 10 ∷ [])) }
{
    writeln!(out, "{} {}", word, n)
}

fn push_pair(out: &mut String, word: &str, m: u64, n: u64) -> Result<(), AllocError>
    ensures { OnOk result (string_bytes out.new
        ≡ string_bytes out.old ++ (line (word.now ∷ decimal m ∷ decimal n ∷ []) ++ 10 ∷ [])) }
{
    writeln!(out, "{} {} {}", word, m, n)
}

fn push_head(out: &mut String, of: &Record) -> Result<(), AllocError>
    ensures bytes { OnOk result (string_bytes out.new
        ≡ string_bytes out.old ++ text_of_lines (head_lines of.now)) }
    ensures range { OnOk result (Fits32 of.now.reactors × Fits64 of.now.period
        × Fits32 of.now.script.small × Fits32 of.now.script.large) }
{
    let period = of.period;
    push_line(out, "lightrun report 1")?;
    push_word(out, "scheduler", scheduler_text(of.scheduler))?;
    push_number(out, "reactors", of.reactors as u64)?;
    push_number(out, "period", period)?;
    push_pair(out, "pool", of.script.small as u64, of.script.large as u64)
}

fn push_images(alloc: Global, out: &mut String, images: &[ImageOf]) -> Result<(), AllocError>
    ensures bytes { OnOk result (string_bytes out.new ≡ string_bytes out.old
        ++ text_of_lines (line (codes "images" ∷ count_of images.now ∷ []) ∷ map image_line images.now)) }
    ensures range { OnOk result (AllByRecursion ImageFits images.now) }
{
    push_number(out, "images", images.len() as u64)?;
    push_all(alloc, out, images)
}

fn push_clients(alloc: Global, out: &mut String, clients: &[ClientOf]) -> Result<(), AllocError>
    ensures bytes { OnOk result (string_bytes out.new ≡ string_bytes out.old
        ++ text_of_lines (line (codes "clients" ∷ count_of clients.now ∷ []) ∷ flat_map client_lines clients.now)) }
    ensures range { OnOk result (AllByRecursion ClientFits clients.now) }
{
    push_number(out, "clients", clients.len() as u64)?;
    push_all(alloc, out, clients)
}

fn push_clock(out: &mut String, span: &Option<Span>) -> Result<(), AllocError>
    ensures bytes { OnOk result (string_bytes out.new
        ≡ string_bytes out.old ++ text_of_lines (clock_lines span.now)) }
    ensures range { OnOk result (SpanFits span.now) }
{
    match span {
        None => Ok(()),
        Some(span) => {
            let Span { first, last } = *span;
            push_pair(out, "clock", first, last)
        }
    }
}

fn push_end(out: &mut String, home: &Home) -> Result<(), AllocError>
    ensures bytes { OnOk result (string_bytes out.new ≡ string_bytes out.old
        ++ text_of_lines (line (codes "home" ∷ decimal home.now.small ∷ decimal home.now.large ∷ []) ∷ codes "end" ∷ [])) }
    ensures range { OnOk result (HomeFits home.now) }
{
    push_pair(out, "home", home.small as u64, home.large as u64)?;
    push_line(out, "end")
}

fn push_record(alloc: Global, out: &mut String, of: &Record) -> Result<(), AllocError>
    ensures bytes { OnOk result (string_bytes out.new ≡ string_bytes out.old ++ text_of of.now) }
    ensures range { OnOk result (RecordFits of.now) }
{
    push_head(out, of)?;
    push_images(alloc, out, of.script.images.as_slice())?;
    push_clients(alloc, out, of.script.clients.as_slice())?;
    push_threads(alloc, out, of.threads.as_slice())?;
    push_devices(out, of.devices.as_slice())?;
    push_clock(out, &of.span)?;
    push_all(alloc, out, of.rounds.as_slice())?;
    push_end(out, &of.home)
}

/// The text of a record: its lines in the order of the report, each ended by a line feed (docs/report.md).
///
/// Linear in the bytes of the text. Only memory can be lacking. Each number that is printed was read, so it is known of a
/// printed record that its numbers fit their types (`range`).
pub fn print(alloc: Global, of: &Record) -> Result<Vec<u8>, NoMemory>
    ensures text { IfOk result (λ bytes. bytes.items ≡ text_of of.now) }
    ensures range { OnOk result (RecordFits of.now) }
{
    let mut out = String::new(alloc);
    push_record(alloc, &mut out, of)?;
    Ok(out.into_bytes())
}
