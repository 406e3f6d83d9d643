//! What the program's calls and the collector's answer where no page can show it (docs/ARCHITECTURE.md): readers, writers and memory that fail,
//! and very large texts. No other crate uses it.
#![tactic(auto)]

#[cfg(test)]
mod changes;
#[cfg(test)]
mod explanations;
#[cfg(test)]
mod failures;
#[cfg(test)]
mod growths;
#[cfg(test)]
mod limits;
#[cfg(test)]
mod program;
#[cfg(test)]
mod watching;
