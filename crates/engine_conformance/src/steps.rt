//! Calls on times alone: their order, and the ways into a loop, round it and out of it.

ghost use Rattle.std.specs.Prelude.{◌≡◌};

use crate::texts::{no_such_call, number, said, text, yes_or_no};
use crate::times::{shown_time, time_of};
use loop_context::{Action, MAX_LOOPS, Time};
use pages::Subject;
use rows::WorkFault;
use std::alloc::{AllocError, Global};

/// Calls that need nothing but the times of their line.
#[derive(Drop)]
pub struct Steps;

/// The time that two ways agree on.
fn agreed(alloc: Global, time: Option<Time>, other: Option<Time>) -> Result<String, WorkFault> {
    if time != other {
        return text(alloc, "two times");
    }
    match time {
        Some(time) => Ok(shown_time(alloc, &time)?),
        None => text(alloc, "none"),
    }
}

/// The time in a further loop, by its own call and by the action.
fn enter(alloc: Global, time: &Time) -> Result<String, WorkFault> {
    let after = if time.depth() < MAX_LOOPS {
        Some(time.after(Action::Enter))
    } else {
        None
    };
    agreed(alloc, time.enter(), after)
}

/// The time outside the innermost loop, in the same two ways.
fn leave(alloc: Global, time: &Time) -> Result<String, WorkFault> {
    if time.depth() == 0 {
        return no_such_call(alloc);
    }
    let after = time.after(Action::Leave);
    agreed(alloc, Some(time.leave()), Some(after))
}

/// The time at the next turn, in the same two ways.
fn next(alloc: Global, time: &Time) -> Result<String, WorkFault> {
    if time.depth() == 0 {
        return no_such_call(alloc);
    }
    let after = if time.last_counter() < u32::MAX {
        Some(time.after(Action::Next))
    } else {
        None
    };
    agreed(alloc, time.next(), after)
}

/// The same time, copied and by the action that keeps it.
fn stay(alloc: Global, time: &Time) -> Result<String, WorkFault> {
    agreed(alloc, Some(time.copied()), Some(time.after(Action::Stay)))
}

/// What a call on one time is answered.
fn reply_of_one(alloc: Global, verb: &str, time: &Time) -> Result<String, WorkFault> {
    match verb {
        "depth" => number(alloc, time.depth()),
        "last" => number(alloc, time.last_counter() as usize),
        "enter" => enter(alloc, time),
        "leave" => leave(alloc, time),
        "next" => next(alloc, time),
        "stay" => stay(alloc, time),
        _ => no_such_call(alloc),
    }
}

/// What a call on two times is answered.
fn reply_of_two(alloc: Global, verb: &str, time: &Time, other: &Time) -> Result<String, WorkFault> {
    match verb {
        "at-most" => yes_or_no(alloc, time.leq(other)),
        "before" => yes_or_no(alloc, time < other),
        _ => no_such_call(alloc),
    }
}

/// What a call is answered.
fn reply(alloc: Global, subject: &mut Steps, call: &str) -> Result<String, WorkFault> {
    let (verb, rest) = call.split_once(' ').unwrap_or((call, ""));
    let (first, second) = rest.split_once(" and ").unwrap_or((rest, rest));
    let (Some(time), Some(other)) = (time_of(alloc, first)?, time_of(alloc, second)?) else {
        return text(alloc, "no time");
    };
    if first == rest {
        reply_of_one(alloc, verb, &time)
    } else {
        reply_of_two(alloc, verb, &time, &other)
    }
}

impl Subject for Steps {
    fn answer(&mut self, alloc: Global, call: &str) -> Result<String, AllocError> {
        said(alloc, reply(alloc, self, call))
    }
}
