//! The tests of the forward pass and of the crates that it stands on. They stand here and not in those crates, since a
//! library with a test of its own is proved twice.
#![tactic(auto)]

#[cfg(test)]
mod checking;
#[cfg(test)]
mod curve_25519;
#[cfg(test)]
mod examples;
#[cfg(test)]
mod mixed;
#[cfg(test)]
mod opening;
#[cfg(test)]
mod products;
#[cfg(test)]
mod walking;
