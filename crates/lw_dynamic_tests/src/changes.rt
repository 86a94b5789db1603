//! Texts with one piece replaced, each with the rule and the line that it fails first.
use lw_base::NoMemory;
use lw_judge::{Verdict, judge_report};
use std::alloc::Global;
use std::process::Abort;

/// Judges a text with the first such piece replaced, for each of some pieces: each fails this rule first, at this line.
pub fn fails(
    rt: &impl Abort,
    alloc: Global,
    text: &str,
    cases: &[(&str, &str, u8, u64)],
) -> Result<(), NoMemory> {
    for (old, new, clause, line) in cases {
        let other = text.replacen(alloc, old, new, 1)?;
        assert!(rt; other.as_str() != text, "{old}");
        let verdict = judge_report(alloc, other.as_bytes())?;
        let wanted = Verdict::Unlawful {
            clause: *clause,
            line: *line,
        };
        assert_eq!(rt; verdict, wanted, "{old}: {new}");
    }
    Ok(())
}

/// Judges a text with the first such piece replaced, for each of some pieces: each is lawful.
pub fn holds(
    rt: &impl Abort,
    alloc: Global,
    text: &str,
    cases: &[(&str, &str)],
) -> Result<(), NoMemory> {
    for (old, new) in cases {
        let other = text.replacen(alloc, old, new, 1)?;
        assert!(rt; other.as_str() != text, "{old}");
        let verdict = judge_report(alloc, other.as_bytes())?;
        assert_eq!(rt; verdict, Verdict::Lawful, "{old}: {new}");
    }
    Ok(())
}
