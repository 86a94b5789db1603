//! Reports of lawful runs and changes of them, each with the rule and the line that it fails first. What is wanted is
//! worked out by hand from docs/lawful.md.
#![tactic(auto)]

#[cfg(test)]
mod answers;
#[cfg(test)]
mod changes;
#[cfg(test)]
mod devices;
#[cfg(test)]
mod holding;
#[cfg(test)]
mod homes;
#[cfg(test)]
mod lawful;
#[cfg(test)]
mod numbers;
#[cfg(test)]
mod replies;
#[cfg(test)]
mod reports;
#[cfg(test)]
mod rounds;
#[cfg(test)]
mod seen;
#[cfg(test)]
mod sent;
#[cfg(test)]
mod several;
#[cfg(test)]
mod shared_texts;
#[cfg(test)]
mod texts;
#[cfg(test)]
mod tokens;
#[cfg(test)]
mod visit_texts;
