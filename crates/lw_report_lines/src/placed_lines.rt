//! The lines of a report that have a place of their own: a thread's, a device's, and those that stand once.
ghost use Rattle.std.specs.Prelude.{◌≡◌, ◌≤◌, IfSome, is_some};
ghost use Rattle.lw_model.specs.ReportText.{role_word};
ghost use Rattle.lw_report_lines.specs.LineKinds.{thread_in, device_in, text_in, number_in, pair_in};

use crate::kinds::{last32, last64};
use crate::parts::{after, is_end, number32, number64};
use lw_model::{DeviceEnd, Home, RoleKind};

fn role_word(role: RoleKind) -> &'static str
    ensures { result.now ≡ role_word role }
{
    match role {
        RoleKind::App => "app",
        RoleKind::Client => "client",
        RoleKind::Owner => "owner",
    }
}

/// `thread T ROLE HOME`, of thread `number`: its home
pub fn thread(line: &[u8], role: RoleKind, number: u64) -> Option<u32>
    ensures { result ≡ thread_in role number line.now }
{
    let rest = after(line, "thread")?;
    let (found, rest) = number64(rest)?;
    let rest = after(rest, " ")?;
    let rest = after(rest, role_word(role))?;
    let home = last32(rest)?;
    if found == number { Some(home) } else { None }
}

/// `device D GIVEN THREAD CALLBACKS`, of device `number`
pub fn device(line: &[u8], number: u64) -> Option<DeviceEnd>
    ensures { result ≡ device_in number line.now }
{
    let rest = after(line, "device")?;
    let (found, rest) = number64(rest)?;
    let (given, rest) = number64(rest)?;
    let (thread, rest) = number32(rest)?;
    let callbacks = last32(rest)?;
    if found == number {
        Some(DeviceEnd {
            given,
            thread,
            callbacks,
        })
    } else {
        None
    }
}

/// Whether a line says nothing but a text.
pub fn is_text(line: &[u8], text: &str) -> bool
    ensures { result ≡ is_some (text_in text.now line.now) }
{
    match after(line, text) {
        Some(rest) => is_end(rest),
        None => false,
    }
}

/// A word and a number of these bounds
pub fn number_line(line: &[u8], word: &str, least: u64, most: u64) -> Option<u64>
    ensures number { result ≡ number_in word.now least most line.now }
    ensures within { IfSome result (λ n. n ≤ most) }
{
    let value = last64(after(line, word)?)?;
    if value >= least && value <= most {
        Some(value)
    } else {
        None
    }
}

/// A word and two numbers of 32 bits: `pool SMALL LARGE` and `home SMALL LARGE`
pub fn pair_line(line: &[u8], word: &str) -> Option<Home>
    ensures { result ≡ pair_in word.now line.now }
{
    let rest = after(line, word)?;
    let (small, rest) = number32(rest)?;
    let large = last32(rest)?;
    Some(Home { small, large })
}
