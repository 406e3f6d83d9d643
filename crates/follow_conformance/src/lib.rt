//! What `follow` writes for inputs that come piece by piece, and when readers and writers fail. No other crate uses it.
#![tactic(auto)]

#[cfg(test)]
mod crews;
#[cfg(test)]
mod failures;
#[cfg(test)]
mod inputs;
#[cfg(test)]
mod renewals;
