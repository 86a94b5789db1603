//! Reports of dynamic runs and changes of them, each with the rule and the line that it fails first. What is wanted is
//! worked out by hand from docs/lawful.md.
#![tactic(auto)]

#[cfg(test)]
mod changes;
#[cfg(test)]
mod hops;
#[cfg(test)]
mod many;
#[cfg(test)]
mod orders;
#[cfg(test)]
mod rounds;
#[cfg(test)]
mod texts;
