//! Whether each client saw what its visits and casts came to.
ghost use Rattle.std.specs.Prelude.{◌≡◌, ◌<◌, [], ℕ, Some, length, is_some};
ghost use Rattle.lw_model.specs.declared.record.Record.{Record};
ghost use Rattle.lw_model.specs.declared.record.SeenBy.TheVariants as by;
ghost use Rattle.lw_model.specs.Threads.{thread_count};
ghost use Rattle.lw_model.specs.Lawful.{seen_by, visit_results};
ghost use Rattle.lw_model.specs.Same.{both, is_same_seen};
ghost use Rattle.lw_model.specs.Verdict.{least_failing, visits_seen};
ghost use Rattle.lw_judge_threads.specs.LinesOf.{AreThreadLines, StandsAt};
ghost use Rattle.lw_judge_messages.specs.Tokens.{AreRunners};
ghost use Rattle.lw_judge_messages.specs.MarksAt.{AreMarksAt};
ghost use Rattle.lw_judge_messages.specs.SeenLines.{client_tests};

use crate::tokens::{Runners, Token};
use crate::visits::Marks;
use lw_base::{Mark, Tag, What};
use lw_judge_threads::{Against, ThreadLines, image_at, lesser};
use lw_model::{Record, Seen, SeenBy};

/// The first `seen` line that isn't the result of a completion that its client ran, or the `thread` line of a client
/// that lacks one.
pub fn visits_seen(
    of: &Record,
    layout: &[ThreadLines],
    runners: &Runners,
    marks: &Marks,
) -> Option<u64>
    requires { AreThreadLines of.now layout.now }
    ensures { AreRunners of.now runners.now → AreMarksAt of.now (thread_count of.now.script) [] marks.now
        → result ≡ least_failing (visits_seen of.now) }
{
    let mut least = None;
    for place in 0..of.script.clients.len() {
        let client = place + 1;
        let lines = &layout[client];
        least = lesser(
            least,
            seen_by_client(of, client as u32, lines, runners, marks),
        );
    }
    least
}

// The same of one client.
fn seen_by_client(
    of: &Record,
    client: u32,
    lines: &ThreadLines,
    runners: &Runners,
    marks: &Marks,
) -> Option<u64>
    requires { client < length of.now.threads }
    ensures { AreRunners of.now runners.now → AreMarksAt of.now (thread_count of.now.script) [] marks.now
        → StandsAt of.now client lines.now → result ≡ least_failing (client_tests of.now client) }
{
    let thread = &of.threads.as_slice()[client as usize];
    let seen = thread.seen.as_slice();
    let mut against = Against::new();
    for tag in thread.ran.as_slice() {
        if is_completion(tag) {
            let stands = match seen.get(against.place()) {
                Some(line) => is_result(of, client, tag, line, runners, marks),
                None => false,
            };
            against.want(stands);
        }
    }
    against.line(seen.len(), lines.thread, lines.seen)
}

// Whether a message ends a visit or a cast.
fn is_completion(tag: &Tag) -> bool
    ensures { (r : Record) (t : ℕ) → result ≡ is_some (seen_by r t tag.now) }
{
    matches!(tag.what, What::Visited { .. } | What::Casted { .. })
}

// Whether a `seen` line has the results of what a message that the client ran ends.
fn is_result(
    of: &Record,
    client: u32,
    tag: &Tag,
    line: &Seen,
    runners: &Runners,
    marks: &Marks,
) -> bool
    ensures { AreRunners of.now runners.now → AreMarksAt of.now (thread_count of.now.script) [] marks.now
        → result ≡ both is_same_seen (seen_by of.now client tag.now) (Some line.now) }
{
    match (tag.what, &line.results) {
        (What::Visited { op }, SeenBy::Visit(found)) => {
            op == line.op && found_by(of, client, op, marks) == found.as_slice()
        }
        (What::Casted { op }, SeenBy::Cast(found)) => {
            op == line.op && runners.of(&Token::Cast { origin: client, op }) == found.as_slice()
        }
        _ => false,
    }
}

// What the visit that is an op of a client found; nothing, where the op is on no image.
fn found_by<'a>(of: &Record, client: u32, op: u32, marks: &'a Marks) -> &'a [Mark]
    ensures { AreMarksAt of.now (thread_count of.now.script) [] marks.now
        → by.Visit result.now ≡ visit_results of.now client op }
{
    match image_at(&of.script, client as usize, op) {
        Some(device) => marks.of(&Token::Visit {
            origin: client,
            op,
            device,
        }),
        None => &[],
    }
}
