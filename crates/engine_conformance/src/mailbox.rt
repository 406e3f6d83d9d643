//! A mailbox of numbers.

ghost use Rattle.std.specs.Prelude.{◌≡◌};

use crate::texts::{done, no_such_call, number, said, text, yes_or_no};
use exchange::Mailbox;
use pages::Subject;
use rows::WorkFault;
use std::alloc::{AllocError, Global};

/// A mailbox.
#[derive(Drop)]
pub struct PageMailbox {
    inner: Mailbox<i64>,
}

/// An empty mailbox.
pub fn new_mailbox(alloc: Global) -> PageMailbox {
    PageMailbox {
        inner: Mailbox::new(alloc),
    }
}

fn put(alloc: Global, mailbox: &mut Mailbox<i64>, text: &str) -> Result<String, WorkFault> {
    match text.parse() {
        Ok(message) => {
            mailbox.put(message)?;
            done(alloc)
        }
        Err(_) => no_such_call(alloc),
    }
}

/// Puts a message into a mailbox with room for it: at the end, at the front, or at a place, as `30`, `30 first` or `30 at 1`.
fn put_reserved(
    alloc: Global,
    mailbox: &mut Mailbox<i64>,
    text: &str,
) -> Result<String, WorkFault> {
    let (message, place) = text.split_once(' ').unwrap_or((text, "last"));
    let Ok(message) = message.parse() else {
        return no_such_call(alloc);
    };
    mailbox.reserve(1)?;
    match (
        place,
        place
            .strip_prefix("at ")
            .map(|digits| digits.parse::<usize>()),
    ) {
        ("last", _) => mailbox.put_reserved(message),
        ("first", _) => mailbox.put_first(message),
        (_, Some(Ok(place))) if place <= mailbox.len() => mailbox.put_at(place, message),
        _ => return no_such_call(alloc),
    }
    done(alloc)
}

fn reserve(alloc: Global, mailbox: &mut Mailbox<i64>, text: &str) -> Result<String, WorkFault> {
    match text.parse() {
        Ok(room) => {
            mailbox.reserve(room)?;
            done(alloc)
        }
        Err(_) => no_such_call(alloc),
    }
}

fn take(alloc: Global, mailbox: &mut Mailbox<i64>, text: &str) -> Result<String, WorkFault> {
    match text.parse::<usize>() {
        Ok(place) if place < mailbox.len() => {
            let message = mailbox.take(place);
            Ok(format!(in alloc; "{message}")?)
        }
        _ => no_such_call(alloc),
    }
}

fn get(alloc: Global, mailbox: &Mailbox<i64>, text: &str) -> Result<String, WorkFault> {
    match text.parse::<usize>() {
        Ok(place) if place < mailbox.len() => {
            let message = *mailbox.get(place);
            Ok(format!(in alloc; "{message}")?)
        }
        _ => no_such_call(alloc),
    }
}

/// What a call is answered.
fn reply(alloc: Global, subject: &mut Mailbox<i64>, call: &str) -> Result<String, WorkFault> {
    let (verb, rest) = call.split_once(' ').unwrap_or((call, ""));
    match verb {
        "put" => put(alloc, subject, rest),
        "put-reserved" => put_reserved(alloc, subject, rest),
        "reserve" => reserve(alloc, subject, rest),
        "take" => take(alloc, subject, rest),
        "get" => get(alloc, subject, rest),
        "length" => number(alloc, subject.len()),
        "empty" => yes_or_no(alloc, subject.is_empty()),
        _ => no_such_call(alloc),
    }
}

impl Subject for PageMailbox {
    fn answer(&mut self, alloc: Global, call: &str) -> Result<String, AllocError> {
        said(alloc, reply(alloc, &mut self.inner, call))
    }
}
