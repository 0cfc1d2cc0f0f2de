//! The tests of the text of journals. They stand here and not in `journal_text`, since a library with a test of its
//! own is proved twice.
#![tactic(auto)]

#[cfg(test)]
mod digests;
#[cfg(test)]
mod example;
#[cfg(test)]
mod grammar;
#[cfg(test)]
mod sizes;
#[cfg(test)]
mod texts;
