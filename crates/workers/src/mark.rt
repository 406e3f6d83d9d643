//! The progress mark: an atomic word that one publisher raises and any number of observers read.

ghost use Rattle.std.specs.Prelude.{◌≡◌, ◌≤◌, ◌<◌, ℕ, All, IfOk, max, vec_len};

use crate::rule::{Compare, Load, MarkRule, Observer, Raise, View};
use atomic_table::Table;
use record_core::NoMemory;
use std::alloc::Global;
use std::marker::Model;
use std::mem::replace;
use std::sync::Arc;

type Word = Table<(), View, (), MarkRule, Global>;

/// A number that rises from 0: of the epochs known to have passed, or of the records known to have been received.
#[derive(Drop)]
pub struct Mark {
    table: Arc<Word, Global>,
}

impl Model for Mark {
    ghost use Rattle.std.specs.Prelude.{◌≡◌};
    ghost use Rattle.atomic_table.specs.Seated.{TableId, table_id_coded};

    ghost Value = { TableId };

    ghost coded = { table_id_coded };

    ghost view = { λ m. m.table.value.shared.table_id };

    ghost invariant = { λ m. (m.table.value.shared.table_id.words ≡ 1) × (m.table.value.shared.table_id.slots ≡ 0) };
}

/// An observer's seat at a mark, with the number that it read last.
#[derive(Drop)]
pub struct Seat {
    seat: atomic_table::Seat<(), View>,
}

impl Model for Seat {
    ghost use Rattle.std.specs.Prelude.{◌≡◌, []};
    ghost use Rattle.workers.specs.Tokens.{Token, token_code};
    ghost use Rattle.workers.specs.Rule.{reader};

    ghost Value = { Token };

    ghost coded = { token_code };

    ghost view = { λ s. record { table = s.seat.table_id; number = s.seat.me.0.read } };

    ghost invariant = { λ s. s.seat.me ≡ (reader s.seat.me.0.read, []) };
}

/// The one publisher of a mark, with the number that it published last.
#[derive(Drop)]
pub struct Publisher {
    table: Arc<Word, Global>,
    seat: atomic_table::Seat<(), View>,
    published: u64,
}

impl Model for Publisher {
    ghost use Rattle.std.specs.Prelude.{◌≡◌, []};
    ghost use Rattle.workers.specs.Tokens.{Token, token_code};
    ghost use Rattle.workers.specs.Rule.{publisher};

    ghost Value = { Token };

    ghost coded = { token_code };

    ghost view = { λ s. record { table = s.seat.table_id; number = s.published } };

    ghost invariant = { λ s. (s.seat.me ≡ (publisher s.published, [])) × (s.table.value.shared.table_id ≡ s.seat.table_id)
        × (s.table.value.shared.table_id.words ≡ 1) };
}

impl Mark {
    /// A mark at 0, its publisher, and as many seats as there are observers.
    pub fn new(alloc: Global, observers: u32) -> Result<(Mark, Publisher, Vec<Seat>), NoMemory>
        ensures publisher { IfOk result (λ r. (r.1.table ≡ r.0) × (r.1.number ≡ 0)) }
        ensures seats { IfOk result (λ r. (vec_len r.2 ≡ observers) × All (λ s. s.table ≡ r.0) r.2.items) }
    {
        let mut seats = Vec::with_capacity(alloc, observers as usize)?;
        let (table, mut first) = Word::of_words(alloc, &[0], &())?;
        let table = Arc::new(alloc, table)?;
        let other = Arc::try_clone(&table)?;
        let word: &Word = &table;
        for _observer in 0..observers {
            seats.push_reserved(another(word, &mut first));
        }
        let publisher = Publisher {
            table: other,
            seat: first,
            published: 0,
        };
        Ok((Mark { table }, publisher, seats))
    }

    /// The number, as far as published. One load; the result is never below what the seat read before.
    pub fn observe(&self, seat: &mut Seat) -> u64
        requires { seat.old.table ≡ self.now }
        ensures table { seat.new.table ≡ seat.old.table }
        ensures read { seat.new.number ≡ result }
        ensures rises { seat.old.number ≤ result }
    {
        let table = &*self.table;
        table.shared.load::<Load>(&mut seat.seat, 0)
    }
}

impl Publisher {
    /// The number that was published last.
    pub fn number(&self) -> u64
        ensures { result ≡ self.now.number }
    {
        self.published
    }

    /// Raises the mark to a number by one fetch_max; writes nothing if the mark is already there.
    pub fn publish(&mut self, count: u64)
        ensures table { self.new.table ≡ self.old.table }
        ensures number { self.new.number ≡ max self.old.number count }
    {
        if count > self.published {
            self.raise(count);
        }
    }

    /// Raises the mark to a greater number.
    fn raise(&mut self, count: u64)
        requires { self.old.number < count }
        ensures table { self.new.table ≡ self.old.table }
        ensures number { self.new.number ≡ count }
    {
        let table = &*self.table;
        let _found = table.shared.fetch_max::<Raise>(&mut self.seat, 0, count);
        self.published = count;
    }

    /// Has an observer's seat read the mark. What it had read before was at most what is published.
    pub fn show(&mut self, seat: &mut Seat) -> u64
        requires { seat.old.table ≡ self.old.table }
        ensures publisher { self.new ≡ self.old }
        ensures table { seat.new.table ≡ seat.old.table }
        ensures read { (result ≡ self.old.number) × (seat.new.number ≡ result) }
        ensures rises { seat.old.number ≤ result }
    {
        let word = &*self.table;
        let Seat { seat: before } = replace(seat, another(word, &mut self.seat));
        word.shared.join_seat::<Observer>(&mut self.seat, before);
        word.shared.load::<Compare>(&mut self.seat, 0)
    }
}

/// One more seat, which has read what the first has.
fn another(word: &Word, first: &mut atomic_table::Seat<(), View>) -> Seat
    requires table { first.old.table_id ≡ word.now.shared.table_id }
    requires word { 0 < word.now.shared.table_id.words }
    ensures first { (first.new.table_id ≡ first.old.table_id) × (first.new.me ≡ first.old.me) }
    ensures seat { (result.table ≡ first.old.table_id) × (result.number ≡ first.old.me.0.read) }
{
    let seat = word.shared.split_seat::<Observer>(first);
    Seat { seat }
}
