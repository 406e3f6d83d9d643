//! Shards: what one worker keeps of a vertex, and what it sends for what comes in.
//!
//! A `Shard` is of one of the five roles (`semantics`, Kinds): an input, an output, or a vertex without a state (`Stateless`), with a state
//! that sends what is gained (`Stateful`), or with a state that sends when it is notified (`Notified`). The functions of `fresh` make the
//! shards that need memory. `Shard::on_records` takes in a batch that comes to an in port at a time, and `Shard::on_notify` learns that
//! nothing more comes at a time. What is sent, and whether a notification is asked for, goes into an `Out`. A join, a distinct, an except,
//! an intersect and an unseen keep a state for each exact time: the different records that came then, each with a count. An unseen also
//! keeps, for each loop, the first turn of each record; a lookup, for each loop and turn, the records of its second port, found by their
//! columns. A group keeps the batches, and so does a join until it searches them, and a lookup those of its first port.
//!
//! The contract for the layers above: whatever records a shard shows to have absorbed (`specs/Shards.antt`, `Shows`), what it
//! sends and asks for is what the definitions (`semantics`, Shard) name for its vertex, and the shard then shows those records
//! and the batch, in any order (`law_shows`). A call costs the different records that come in and that go out, never what was
//! absorbed. There are three exceptions. A join first makes the records of the other port quick to find, each once, when it is
//! next searched. A notification looks, once, at each different record that came at its time: an except's at those of port 0, an
//! unseen's at those that had come at no earlier turn when they came, a lookup's at those of port 0. A group puts its batches together where over
//! 9223372036854775807 records have come at a time. Want of memory aside, a call is refused exactly where a count of what the shard
//! would then have absorbed, or of what the call would send, is above 9223372036854775807. After a refusal the shard is spoiled, and
//! can only be dropped.
//!
//! A time that has passed at the vertex is let go: `Shard::earlier` names one that may have passed, and `Shard::forget` drops what is kept
//! of it. An unseen and a lookup keep all, since their notifications read what came at earlier turns.
//!
//! Built on `operators`, `rows`, `loop_context`, `expr_tree`, `record_core` and `semantics`, and on `indexmap`, which keeps the states by
//! time. `events` makes the shards of a graph's vertices, and the board hands them out with their events.
#![tactic(auto)]

mod by_time;
mod counted_index;
mod distinct;
mod except;
mod fresh;
mod group;
mod groups;
mod intersect;
mod join;
mod join_plan;
mod laws;
mod lookup;
mod loop_rows;
mod notified;
mod out;
mod pile;
mod port_sets;
mod shard;
mod sides;
mod spare;
mod stateful;
mod stateless;
mod turns;
mod unseen;

pub use distinct::DistinctShard;
pub use except::ExceptShard;
pub use fresh::{
    distinct_shard, except_shard, group_shard, intersect_shard, join_shard, lookup_shard,
    select_shard, unseen_shard, where_shard,
};
pub use group::GroupShard;
pub use intersect::IntersectShard;
pub use join::JoinShard;
pub use join_plan::JoinPlan;
pub use laws::law_shows;
pub use lookup::LookupShard;
pub use notified::Notified;
pub use out::Out;
pub use shard::Shard;
pub use stateful::Stateful;
pub use stateless::Stateless;
pub use turns::Turns;
pub use unseen::UnseenShard;
