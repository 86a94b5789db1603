//! Changes of reports, each with the rule and the line that it fails first.
use lw_base::NoMemory;
use lw_judge::{Verdict, judge_report};
use std::alloc::Global;
use std::process::Abort;

// The text with some lines changed. The changes stand one behind another, with `; ` between: `19 WORDS` puts these words
// in the place of line 19, `19` takes it out, and `+19 WORDS` puts a line behind it. Lines count as in the whole text.
fn changed(alloc: Global, text: &str, changes: &str) -> Result<String, NoMemory> {
    let mut out = String::new(alloc);
    let mut number = 0u64;
    for line in text.lines() {
        number = number.saturating_add(1);
        push_line(&mut out, in_place(number, line, changes))?;
        push_behind(&mut out, number, changes)?;
    }
    Ok(out)
}

// What stands in the place of a line; nothing where it is taken out.
fn in_place<'a>(number: u64, line: &'a str, changes: &'a str) -> &'a str {
    for change in changes.split("; ") {
        let (place, words) = change.split_once(' ').unwrap_or((change, ""));
        if is_number(place, number) {
            return words;
        }
    }
    line
}

// Adds the lines that are put behind a line.
fn push_behind(out: &mut String, number: u64, changes: &str) -> Result<(), NoMemory> {
    for change in changes.split("; ") {
        if let Some((place, words)) = change.split_once(' ') {
            if let Some(digits) = place.strip_prefix('+') {
                if is_number(digits, number) {
                    push_line(out, words)?;
                }
            }
        }
    }
    Ok(())
}

// A sign isn't part of a number here.
fn is_number(digits: &str, number: u64) -> bool {
    !digits.starts_with('+') && digits.parse::<u64>().ok() == Some(number)
}

fn push_line(out: &mut String, line: &str) -> Result<(), NoMemory> {
    if !line.is_empty() {
        out.push_str(line)?;
        out.push('\n')?;
    }
    Ok(())
}

/// Judges a text with each of some changes: each fails this rule first, at this line.
pub fn fails(
    rt: &impl Abort,
    alloc: Global,
    text: &str,
    cases: &[(&str, u8, u64)],
) -> Result<(), NoMemory> {
    for (changes, clause, line) in cases {
        let verdict = judge_report(alloc, changed(alloc, text, changes)?.as_bytes())?;
        let wanted = Verdict::Unlawful {
            clause: *clause,
            line: *line,
        };
        assert_eq!(rt; verdict, wanted, "{changes}");
    }
    Ok(())
}

/// Judges a text with each of some changes: each is lawful, and another text.
pub fn holds(rt: &impl Abort, alloc: Global, text: &str, cases: &[&str]) -> Result<(), NoMemory> {
    for changes in cases {
        let other = changed(alloc, text, changes)?;
        assert!(rt; other.as_str() != text, "{changes}");
        let verdict = judge_report(alloc, other.as_bytes())?;
        assert_eq!(rt; verdict, Verdict::Lawful, "{changes}");
    }
    Ok(())
}
