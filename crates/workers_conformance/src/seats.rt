//! A run that ends with its observers' seats.

ghost use Rattle.std.specs.Prelude.{◌≡◌, All, None};
ghost use Rattle.board.specs.Shown.{tables};

use crate::boards::copying;
use board::Board;
use std::alloc::Global;
use std::marker::Brand;
use std::sync::Wait;
use std::test::Fail;
use views::Views;
use workers::{Engine, Mark, Naming, Publisher, Seat, finish};

/// The input is sealed, and the run ends with the observers' seats.
fn ends_with<J: Naming, V: Views, R: Wait>(
    rt: &R,
    alloc: Global,
    board: Board<V>,
    publisher: Publisher,
    seats: Vec<Seat>,
) -> Option<u64>
    requires names { tables board.shown ≡ J.names }
    requires graph { board.shown.graph ≡ J.graph }
    requires mark { publisher.table ≡ J.mark }
    requires unwatched { J.received ≡ None }
    requires fresh { publisher.number ≡ 0 }
    requires seats { All (λ s. s.table ≡ J.mark) seats.items }
{
    let engine = Engine::<J, V>::new(alloc, board, publisher).ok()?;
    engine.seal(rt, 0).ok()?;
    Some(finish(engine, seats).passed())
}

fn ends_with_of<V: Views, R: Wait>(
    rt: &R,
    alloc: Global,
    board: Board<V>,
    publisher: Publisher,
    seats: Vec<Seat>,
) -> Option<u64>
    requires fresh { publisher.number ≡ 0 }
    requires seats { All (λ s. s.table ≡ publisher.table) seats.items }
{
    ends_with::<Brand, V, R>(rt, alloc, board, publisher, seats)
}

#[test]
fn ends_with_seats(rt: HostRuntime) -> Result<(), Fail> {
    let alloc = rt.alloc();
    let board = copying(alloc, 1).ok_or("no board")?;
    let (_mark, publisher, seats) = Mark::new(alloc, 2)?;
    assert_eq!(rt; ends_with_of(&rt, alloc, board, publisher, seats), Some(1));
    Ok(())
}
