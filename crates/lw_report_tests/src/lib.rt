//! Tests of scripts, of reports and of runs, through public calls, one module a subject. A crate with tests is proved
//! twice, so the crates below keep none.
#![tactic(auto)]

#[cfg(test)]
mod dynamic_reports;
#[cfg(test)]
mod report_words;
#[cfg(test)]
mod reports;
#[cfg(test)]
mod runs;
#[cfg(test)]
mod scripts;
