//! Mailboxes for messages that wait.

ghost use Rattle.std.specs.Prelude.{◌≡◌, ◌<◌, ◌≤◌, ◌+◌, ◌↔◌, ℕ, [], ◌++◌, ◌∷◌, length, remove, slice_index_or};
ghost use Rattle.std.specs.Prelude.{if◌then◌else◌, is_ok, IfErr, IsTrue, OnErr, OnOk};
ghost use Rattle.std.specs.List.{insert};
ghost use Rattle.exchange.specs.Mail.{Mail};

use record_core::NoMemory;
use std::alloc::{AllocFailed, Global};
use std::collections::VecDeque;
use std::marker::Model;

/// Messages in order of arrival. Any place may be taken, and the rest keeps its order. Taking the first costs the same however many there are.
#[derive(Drop)]
pub struct Mailbox<T> {
    messages: VecDeque<T>,
}

impl<T> Model for Mailbox<T> {
    ghost use Rattle.std.specs.Prelude.{◌-◌};
    ghost use Rattle.std.specs.VecDeque.{deque_len, deque_capacity};
    ghost use Rattle.exchange.specs.Mail.{Mail};

    ghost Value = { Mail T };

    ghost view = { λ m. record { messages = m.messages.items; room = deque_capacity m.messages - deque_len m.messages } };
}

impl<T> Mailbox<T> {
    /// An empty mailbox. Takes no memory.
    pub fn new(alloc: Global) -> Mailbox<T>
        ensures { result.messages ≡ [] }
    {
        Mailbox {
            messages: VecDeque::new(alloc),
        }
    }

    /// The number of messages that wait.
    #[inline(always)]
    pub fn len(&self) -> usize
        ensures { result ≡ length self.now.messages }
    {
        self.messages.len()
    }

    #[inline(always)]
    pub fn is_empty(&self) -> bool
        ensures { IsTrue result ↔ (self.now.messages ≡ []) }
    {
        self.messages.is_empty()
    }

    /// The message at a place, counted from 0 in order of arrival.
    #[inline(always)]
    pub fn get(&self, place: usize) -> &T
        requires { place < length self.now.messages }
        ensures { result.now ≡ slice_index_or self.now.messages place result.now }
    {
        &self.messages[place]
    }

    /// Reserves room for that many more messages.
    pub fn reserve(&mut self, more: usize) -> Result<(), NoMemory>
        ensures messages { self.new.messages ≡ self.old.messages }
        ensures kept { self.old.room ≤ self.new.room }
        ensures room { OnOk result (more ≤ self.new.room) }
    {
        self.messages.reserve(more)?;
        Ok(())
    }

    /// Appends a message, or gives it back if memory is short.
    #[inline(always)]
    pub fn put(&mut self, message: T) -> Result<(), AllocFailed<T>>
        ensures messages { self.new.messages ≡ (if is_ok result then self.old.messages ++ message ∷ [] else self.old.messages) }
        ensures back { IfErr result (λ e. e.value ≡ message) }
    {
        self.messages.push_back(message)
    }

    /// Appends a message; there must be room. Takes no memory.
    #[inline(always)]
    pub fn put_reserved(&mut self, message: T)
        requires { 0 < self.old.room }
        ensures messages { self.new.messages ≡ self.old.messages ++ message ∷ [] }
        ensures room { self.new.room + 1 ≡ self.old.room }
    {
        self.messages.push_back_reserved(message);
    }

    /// Puts a message before the others; there must be room. Takes no memory.
    pub fn put_first(&mut self, message: T)
        requires { 0 < self.old.room }
        ensures messages { self.new.messages ≡ message ∷ self.old.messages }
        ensures room { self.new.room + 1 ≡ self.old.room }
    {
        self.messages.push_front_reserved(message);
    }

    /// Inserts a message at a place, counted from 0; there must be room. Those from there on move back. Takes no memory.
    pub fn put_at(&mut self, place: usize, message: T)
        requires place { place ≤ length self.old.messages }
        requires room { 0 < self.old.room }
        ensures messages { self.new.messages ≡ insert self.old.messages place message }
        ensures kept { self.old.room ≤ self.new.room + 1 }
    {
        match self.messages.insert(place, message) {
            Ok(()) => {}
            Err(_) => unreachable!(),
        }
    }

    /// Removes the message at a place, counted from 0; those behind it move up. Takes no memory.
    #[inline(always)]
    pub fn take(&mut self, place: usize) -> T
        requires { place < length self.old.messages }
        ensures value { result ≡ slice_index_or self.old.messages place result }
        ensures messages { self.new.messages ≡ remove self.old.messages place }
        ensures room { self.new.room ≡ self.old.room + 1 }
    {
        if place == 0 {
            return match self.messages.pop_front() {
                Some(message) => message,
                None => unreachable!(),
            };
        }
        match self.messages.remove(place) {
            Some(message) => message,
            None => unreachable!(),
        }
    }
}
