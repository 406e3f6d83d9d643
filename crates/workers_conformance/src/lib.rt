//! Many workers: what a call does behind the lock, that two workers compute at once, and that all end without memory.
#![tactic(auto)]

#[cfg(test)]
mod boards;
#[cfg(test)]
mod calls;
#[cfg(test)]
mod flags;
#[cfg(test)]
mod refused;
#[cfg(test)]
mod runs;
#[cfg(test)]
mod scarce;
#[cfg(test)]
mod scenarios;
#[cfg(test)]
mod seats;
#[cfg(test)]
mod threads;
#[cfg(test)]
mod whole_runs;
