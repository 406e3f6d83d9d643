//! The few different summaries of a graph's paths, by code, and the code of each after an action.

ghost use Rattle.std.specs.Prelude.{◌≡◌, ◌<◌, ◌≤◌, ◌-◌, [], Some, None, true, false, length, slice_index_or, slice_set, IfOk, IfSome, IfNone};
ghost use Rattle.semantics.specs.Summary.{Summary as Definition};
ghost use Rattle.path_summary.specs.Codes.{Grows, decoded};
ghost use Rattle.path_summary.specs.Noted.{IsCodeBelow, LeadsTo};
ghost use Rattle.path_summary.specs.Rows.{HasRoom, is_below};
ghost use Rattle.loop_context.specs.Actions.{action_of};

use crate::summary::Summary;
use loop_context::Action;
use record_core::NoMemory;
use std::alloc::Global;
use std::marker::Model;

/// A list of different summaries. The first has the code 1, the second 2, and so on; 0 means none.
#[derive(Drop)]
pub struct Summaries {
    list: Vec<Summary>,
    entered: Vec<usize>,
    left: Vec<usize>,
    turned: Vec<usize>,
}

impl Model for Summaries {
    ghost use Rattle.std.specs.Prelude.{List};
    ghost use Rattle.semantics.specs.Summary.{Summary as Definition};
    ghost use Rattle.path_summary.specs.Noted.{AreNoted};

    ghost Value = { List Definition };

    ghost view = { λ s. s.list.items };

    ghost invariant = { λ s. AreNoted s.list.items s.entered.items s.left.items s.turned.items };
}

impl Summaries {
    /// An empty list.
    pub fn new(alloc: Global) -> Self
        ensures { result ≡ [] }
    {
        Summaries {
            list: Vec::new(alloc),
            entered: Vec::new(alloc),
            left: Vec::new(alloc),
            turned: Vec::new(alloc),
        }
    }

    /// The number of summaries.
    pub fn count(&self) -> usize
        ensures { result ≡ length self.now }
    {
        self.list.len()
    }

    /// The summary with a code.
    pub fn get(&self, code: usize) -> Option<&Summary>
        ensures none { IfNone result (decoded self.now code ≡ None) }
        ensures some { IfSome result (λ f. decoded self.now code ≡ Some f.now) }
    {
        self.list.get(code.checked_sub(1)?)
    }

    /// The code of a summary, which is added if it is new.
    pub fn code_of(&mut self, summary: Summary) -> Result<usize, NoMemory>
        ensures grows { Grows self.old self.new }
        ensures code { IfOk result (λ c. decoded self.new c ≡ Some summary) }
        ensures within { IfOk result (λ c. c ≤ length self.new) }
    {
        match self.found(&summary) {
            Some(code) => Ok(code),
            None => self.add(summary),
        }
    }

    /// The code of a summary, if it has one.
    fn found(&self, summary: &Summary) -> Option<usize>
        ensures code { IfSome result (λ c. decoded self.now c ≡ Some summary.now) }
        ensures within { IfSome result (λ c. c ≤ length self.now) }
    {
        for i in 0..self.list.len() {
            if self.list[i].same(summary) {
                return Some(i + 1);
            }
        }
        None
    }

    /// Adds a summary, and gives its code.
    fn add(&mut self, summary: Summary) -> Result<usize, NoMemory>
        ensures grows { Grows self.old self.new }
        ensures code { IfOk result (λ c. decoded self.new c ≡ Some summary) }
        ensures within { IfOk result (λ c. c ≤ length self.new) }
    {
        self.entered.push(0)?;
        self.left.push(0)?;
        self.turned.push(0)?;
        self.list.push(summary)?;
        Ok(self.list.len())
    }

    /// The code of a summary after an action. There must be room for the action.
    pub fn after(&mut self, code: usize, action: Action) -> Result<usize, NoMemory>
        requires some { 0 < code }
        requires there { code ≤ length self.old }
        requires room { (f : Definition) → decoded self.old code ≡ Some f → HasRoom (action_of action) f }
        ensures grows { Grows self.old self.new }
        ensures leads { IfOk result (λ c. LeadsTo self.new (action_of action) code c) }
    {
        if let Some(next) = self.noted(code, action) {
            return Ok(next);
        }
        let after = self.known(code).then(action);
        let next = self.code_of(after)?;
        self.note(code, action, next);
        Ok(next)
    }

    /// The summary with a code that has one.
    fn known(&self, code: usize) -> &Summary
        requires some { 0 < code }
        requires there { code ≤ length self.now }
        ensures { decoded self.now code ≡ Some result.now }
    {
        &self.list[code - 1]
    }

    /// The noted code of a summary after an action, if there is one.
    fn noted(&self, code: usize, action: Action) -> Option<usize>
        requires some { 0 < code }
        requires there { code ≤ length self.now }
        ensures { IfSome result (λ c. LeadsTo self.now (action_of action) code c) }
    {
        match action {
            Action::Stay => Some(code),
            Action::Enter => noted_in(&self.entered, code),
            Action::Leave => noted_in(&self.left, code),
            Action::Next => noted_in(&self.turned, code),
        }
    }

    fn note(&mut self, code: usize, action: Action, next: usize)
        requires { LeadsTo self.old (action_of action) code next }
        ensures { self.new ≡ self.old }
    {
        match action {
            Action::Stay => {}
            Action::Enter => note_in(&mut self.entered, code, next),
            Action::Leave => note_in(&mut self.left, code, next),
            Action::Next => note_in(&mut self.turned, code, next),
        }
    }

    /// A sufficient test: true only if the summary with `code` takes counters to ones at or before those of the one with `other`.
    pub fn is_below(&self, code: usize, other: usize) -> bool
        ensures below { result ≡ true → (h : Definition) → decoded self.now other ≡ Some h → IsCodeBelow self.now code h }
        ensures not { result ≡ false → (f h : Definition) → decoded self.now code ≡ Some f → decoded self.now other ≡ Some h → is_below f h ≡ false }
    {
        if code == other {
            return true;
        }
        match self.get(code) {
            Some(least) => match self.get(other) {
                Some(summary) => least.is_below(summary),
                None => false,
            },
            None => false,
        }
    }
}

/// The note for a code, if there is one.
fn noted_in(notes: &[usize], code: usize) -> Option<usize>
    requires { 0 < code }
    ensures some { IfSome result (λ c. 0 < c) }
    ensures is { IfSome result (λ c. c ≡ slice_index_or notes.now (code - 1) 0) }
{
    match notes.get(code - 1) {
        Some(next) => { if *next > 0 { Some(*next) } else { None } }
        None => None,
    }
}

fn note_in(notes: &mut Vec<usize>, code: usize, next: usize)
    ensures { notes.new.items ≡ slice_set notes.old.items (code - 1) next }
{
    let place = code.saturating_sub(1);
    if place < notes.len() {
        notes[place] = next;
    }
}
