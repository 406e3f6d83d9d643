//! Calls of the board that are made again after a refusal, and schedules at random, after each call of which what was emitted is compared with
//! what a plain evaluator makes of what was fed. Most tests are on boards whose workers see one tracker; those of late views say so.
#![tactic(auto)]

#[cfg(test)]
mod boards;
#[cfg(test)]
mod growths;
#[cfg(test)]
mod reach;
#[cfg(test)]
mod replays;
#[cfg(test)]
mod scarce;
#[cfg(test)]
mod schedules;
#[cfg(test)]
mod twins;
