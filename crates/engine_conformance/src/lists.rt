//! Lists of one length, by their place.

ghost use Rattle.std.specs.Prelude.{◌≡◌};

use crate::texts::{done, no_such_call, number, numbers_of, said, shown_row};
use pages::Subject;
use rows::{Lists, WorkFault};
use std::alloc::{AllocError, Global};
use std::marker::Model;

/// Lists, and how long each is.
#[derive(Drop)]
pub struct EqualLists {
    lists: Lists,
    numbers: usize,
}

impl Model for EqualLists {
    ghost use Rattle.std.specs.Prelude.{◌≡◌, ℕ};

    ghost Value = { ℕ };

    ghost view = { λ s. s.numbers };

    ghost invariant = { λ s. s.lists.arity ≡ s.numbers };
}

/// The lists of a first line `lists of 2`.
pub fn new_lists(alloc: Global, text: &str) -> Result<Option<EqualLists>, WorkFault> {
    match text.parse::<usize>() {
        Ok(numbers) => Ok(Some(EqualLists {
            lists: Lists::new(alloc, numbers),
            numbers,
        })),
        Err(_) => Ok(None),
    }
}

impl EqualLists {
    fn push(&mut self, alloc: Global, text: &str) -> Result<String, WorkFault> {
        let Some(list) = numbers_of(alloc, text)? else {
            return no_such_call(alloc);
        };
        if list.len() != self.numbers || self.lists.len() == usize::MAX {
            return no_such_call(alloc);
        }
        self.lists.push(list.as_slice())?;
        done(alloc)
    }

    /// Replaces a list, as `0 by 5 6`.
    fn set(&mut self, alloc: Global, text: &str) -> Result<String, WorkFault> {
        let (place, list) = text.split_once(" by ").unwrap_or((text, ""));
        let (Ok(place), Some(list)) = (place.parse::<usize>(), numbers_of(alloc, list)?) else {
            return no_such_call(alloc);
        };
        if list.len() != self.numbers || place >= self.lists.len() {
            return no_such_call(alloc);
        }
        self.lists.set(place, list.as_slice());
        done(alloc)
    }

    fn list(&self, alloc: Global, text: &str) -> Result<String, WorkFault> {
        match text.parse::<usize>() {
            Ok(place) if place < self.lists.len() => shown_row(alloc, self.lists.list(place)),
            _ => no_such_call(alloc),
        }
    }
}

/// What a call is answered.
fn reply(alloc: Global, subject: &mut EqualLists, call: &str) -> Result<String, WorkFault> {
    let (verb, rest) = call.split_once(' ').unwrap_or((call, ""));
    match verb {
        "push" => subject.push(alloc, rest),
        "replace" => subject.set(alloc, rest),
        "list" => subject.list(alloc, rest),
        "length" => number(alloc, subject.lists.len()),
        _ => no_such_call(alloc),
    }
}

impl Subject for EqualLists {
    fn answer(&mut self, alloc: Global, call: &str) -> Result<String, AllocError> {
        said(alloc, reply(alloc, self, call))
    }
}
