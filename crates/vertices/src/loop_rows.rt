//! What an unseen keeps of one loop.

ghost use Rattle.std.specs.Prelude.{◌≡◌, ◌≤◌, ◌<◌, ◌++◌, ◌==◌, ◌&&◌, ◌||◌, ℕ, List, [], ◌∷◌, cond, flat_map, length, nat_lt, slice_index_or, IfOk, OnOk};
ghost use Rattle.std.specs.List.{AllByRecursion};
ghost use Rattle.rows.specs.FlatRows.{arity_of};
ghost use Rattle.rows.specs.Indexes.{AreDifferent};
ghost use Rattle.semantics.specs.Limits.{max_fields};
ghost use Rattle.semantics.specs.Meaning.{only_left};
ghost use Rattle.semantics.specs.Multiset.{Record, ◌≈◌, is_present, same};
ghost use Rattle.semantics.specs.Time.{below};
ghost use Rattle.vertices.specs.FirstTurns.{AreFirstTurns, is_first_below, rows_first_at, with_places};
ghost use Rattle.vertices.specs.Kept.{more_at};
ghost use Rattle.vertices.specs.LoopRows.{IsLoopOf, places_of};

use indexmap::IndexMap;
use record_core::NoMemory;
use rows::{Batch, RowSet, Rows};
use std::alloc::Global;

/// The different rows that came at the turns of one loop, in order of arrival, each with the least turn at which it came. A turn's list
/// has the places of the rows that were first at it when they came; a row that has come at an earlier turn since then is passed over.
#[derive(Drop)]
pub struct LoopRows {
    rows: RowSet,
    turns: Vec<u32>,
    lists: IndexMap<u32, Places>,
}

/// Places of rows.
#[derive(Drop)]
pub struct Places {
    places: Vec<usize>,
}

impl LoopRows {
    /// No rows.
    pub(crate) fn new(alloc: Global, arity: usize) -> Result<LoopRows, NoMemory>
        requires some { 1 ≤ arity }
        requires fits { arity ≤ max_fields }
        ensures { IfOk result (λ kept. IsLoopOf arity kept (λ turn. [])) }
    {
        let rows = RowSet::new(alloc, arity)?;
        Ok(LoopRows {
            rows,
            turns: Vec::new(alloc),
            lists: IndexMap::new(alloc),
        })
    }

    /// Takes in a batch of a turn.
    pub(crate) fn absorb(&mut self, alloc: Global, turn: u32, batch: &Batch) -> Result<(), NoMemory>
        requires { (records : ℕ → List Record) × IsLoopOf (arity_of batch.now) self.old records }
        ensures { OnOk result ((n : ℕ) (records : ℕ → List Record) → IsLoopOf n self.old records → IsLoopOf n self.new (more_at records turn batch.now)) }
    {
        let mut places = Vec::new(alloc);
        self.note_all(turn, batch, &mut places)?;
        self.list(turn, places)?;
        Ok(())
    }

    /// Notes that the rows of a batch came at a turn, and gives the places of those for which `note` does.
    fn note_all(
        &mut self,
        turn: u32,
        batch: &Batch,
        places: &mut Vec<usize>,
    ) -> Result<(), NoMemory>
        requires arity { arity_of batch.now ≡ self.old.rows.arity }
        requires as_many { length self.old.turns.items ≡ length self.old.rows.rows }
        ensures arity { self.new.rows.arity ≡ self.old.rows.arity }
        ensures as_many { OnOk result (length self.new.turns.items ≡ length self.new.rows.rows) }
        ensures first { OnOk result ((r : Record) (n : ℕ) → is_first_below self.new.rows.rows self.new.turns.items r n
            ≡ is_first_below self.old.rows.rows self.old.turns.items r n || (is_present r batch.now && nat_lt turn n)) }
        ensures places { OnOk result ((lists : ℕ → List ℕ) → AreFirstTurns self.old.rows.rows self.old.turns.items (with_places lists turn places.old.items)
            → AreFirstTurns self.new.rows.rows self.new.turns.items (with_places lists turn places.new.items)) }
        ensures lists { self.new.lists ≡ self.old.lists }
    {
        let _fields = batch.arity();
        for place in 0..batch.len() {
            self.note(turn, batch.row(place), places)?;
        }
        Ok(())
    }

    /// Notes that a row came at a turn, and gives its place if it came at no earlier one, and wasn't noted there yet.
    fn note(&mut self, turn: u32, row: &[i64], places: &mut Vec<usize>) -> Result<(), NoMemory>
        requires arity { length row.now ≡ self.old.rows.arity }
        requires as_many { length self.old.turns.items ≡ length self.old.rows.rows }
        ensures arity { self.new.rows.arity ≡ self.old.rows.arity }
        ensures as_many { OnOk result (length self.new.turns.items ≡ length self.new.rows.rows) }
        ensures first { OnOk result ((r : Record) (n : ℕ) → is_first_below self.new.rows.rows self.new.turns.items r n
            ≡ is_first_below self.old.rows.rows self.old.turns.items r n || (same row.now r && nat_lt turn n)) }
        ensures places { OnOk result ((lists : ℕ → List ℕ) → AreFirstTurns self.old.rows.rows self.old.turns.items (with_places lists turn places.old.items)
            → AreFirstTurns self.new.rows.rows self.new.turns.items (with_places lists turn places.new.items)) }
        ensures lists { self.new.lists ≡ self.old.lists }
    {
        let _rows = self.rows.len();
        let place = self.rows.place(row)?;
        if place == self.turns.len() {
            self.turns.push(turn)?;
            places.push(place)?;
            Ok(())
        } else if turn < self.turns[place] {
            self.turns[place] = turn;
            places.push(place)?;
            Ok(())
        } else {
            Ok(())
        }
    }

    /// Puts places at the end of a turn's list.
    fn list(&mut self, turn: u32, places: Vec<usize>) -> Result<(), NoMemory>
        ensures lists { OnOk result ((k : ℕ) → places_of self.new k ≡ with_places (places_of self.old) turn places.items k) }
        ensures rows { self.new.rows ≡ self.old.rows }
        ensures turns { self.new.turns ≡ self.old.turns }
    {
        if let Some(list) = self.lists.get_mut(&turn) {
            list.places.extend_from_slice(&places)?;
            return Ok(());
        }
        self.lists.insert(turn, Places { places })?;
        Ok(())
    }

    /// The rows that came at a turn and at no earlier one.
    pub(crate) fn new_at(&self, alloc: Global, turn: u32) -> Result<Rows, NoMemory>
        requires { (n : ℕ) × (records : ℕ → List Record) × IsLoopOf n self.now records }
        ensures rows { IfOk result (λ rows. (n : ℕ) (records : ℕ → List Record) → IsLoopOf n self.now records →
            rows.rows ≈ only_left (records turn) (flat_map records (below turn))) }
        ensures different { IfOk result (λ rows. AreDifferent rows.rows) }
    {
        match self.lists.get(&turn) {
            Some(list) => self.rows_at(alloc, turn, &list.places),
            None => Ok(Rows::new(alloc, self.rows.arity())),
        }
    }

    /// The rows at these places that are first at a turn.
    fn rows_at(&self, alloc: Global, turn: u32, places: &[usize]) -> Result<Rows, NoMemory>
        requires as_many { length self.now.turns.items ≡ length self.now.rows.rows }
        requires within { AllByRecursion (λ p. (p < length self.now.rows.rows) × (slice_index_or self.now.turns.items p 0 ≤ turn)) places.now }
        ensures { IfOk result (λ rows. rows.rows ≡ rows_first_at self.now.rows.rows self.now.turns.items turn places.now) }
    {
        let mut rows = Rows::new(alloc, self.rows.arity());
        for i in 0..places.len() {
            self.offer(turn, places[i], &mut rows)?;
        }
        Ok(rows)
    }

    /// Appends the row at a place if it is first at a turn.
    fn offer(&self, turn: u32, place: usize, rows: &mut Rows) -> Result<(), NoMemory>
        requires as_many { length self.now.turns.items ≡ length self.now.rows.rows }
        requires place { place < length self.now.rows.rows }
        requires arity { rows.old.arity ≡ self.now.rows.arity }
        ensures rows { OnOk result (rows.new.rows ≡ rows.old.rows
            ++ cond (slice_index_or self.now.turns.items place 0 == turn) (slice_index_or self.now.rows.rows place [] ∷ []) []) }
        ensures arity { rows.new.arity ≡ rows.old.arity }
    {
        if self.turns[place] == turn {
            rows.push(self.rows.row(place))?;
        }
        Ok(())
    }
}
