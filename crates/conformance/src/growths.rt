//! Queries in heaps of rising size: the right answer, or no memory, and nothing left behind.

use crate::changes::{REACH, Verdict, checked};
use bumpalo::Bump;
use console::{CompileFault, compile};
use graph_text::graph_text;
use linked_list_allocator::LocalHeap;
use std::alloc::{Allocator, Global};

const REACH_GRAPH: &[u8] =
    b"0 input 0 <-\n1 ingress 0 <- 0.0\n2 concat 1 <- 1.0 12.0\n3 gate(3) 1 <- 2.0\n4 ingress 0 <- 0.0\n5 concat 1 <- 4.0 7.0\n6 hold(3) 1 <- 5.0\n\
    7 feedback 1 <- 6.1\n8 join 1 <- 3.0 6.0\n9 select 1 <- 8.0\n10 concat 1 <- 3.0 9.0\n11 distinct 1 <- 10.0\n12 feedback 1 <- 11.0\n\
    13 egress 1 <- 3.1\n14 output 0 <- 13.0\n";

/// Each form of relation, scalar and condition.
const FORMS: &[u8] =
    b"input a/2; input b/1; let s = select(where(a; #0 < 5 and not [#1 = -2]); #0, #1 * 2 + 1); output iterate(2; x = s; \
    distinct(concat(x, group(join(x, b; #1 = #0); #0; sum #1))));";

const FORMS_GRAPH: &[u8] =
    b"0 input 0 <-\n1 input 0 <-\n2 where 0 <- 0.0\n3 select 0 <- 2.0\n4 ingress 0 <- 3.0\n5 concat 1 <- 4.0 15.0\n6 gate(2) 1 <- 5.0\n\
    7 ingress 0 <- 1.0\n8 concat 1 <- 7.0 10.0\n9 hold(2) 1 <- 8.0\n10 feedback 1 <- 9.1\n11 join 1 <- 6.0 9.0\n12 group 1 <- 11.0\n\
    13 concat 1 <- 6.0 12.0\n14 distinct 1 <- 13.0\n15 feedback 1 <- 14.0\n16 egress 1 <- 6.1\n17 output 0 <- 16.0\n";

/// What came of a query.
#[derive(Clone, Copy, Debug, PartialEq, Eq)]
enum Outcome {
    Right,
    Refused,
    Wrong,
}

/// What comes of a query whose tree lies there: its graph has to be this one.
fn compiled<A: Allocator + Copy>(alloc: Global, arena: A, query: &[u8], wanted: &[u8]) -> Outcome {
    let mut text = Vec::new(alloc);
    match compile(alloc, arena, query) {
        Ok(graph) => {
            let is_written = graph_text(alloc, &graph, &mut text).is_ok();
            if is_written && text.as_slice() == wanted {
                Outcome::Right
            } else {
                Outcome::Wrong
            }
        }
        Err(CompileFault::NoMemory) => Outcome::Refused,
        Err(_) => Outcome::Wrong,
    }
}

/// What comes of a query in a heap of that size, which has to be left empty.
fn compiled_in_heap(alloc: Global, size: usize, query: &[u8], wanted: &[u8]) -> Outcome {
    let Ok(heap) = LocalHeap::new(alloc, size) else {
        return Outcome::Wrong;
    };
    let outcome = compiled(alloc, &heap, query, wanted);
    if heap.used() == 0 {
        outcome
    } else {
        Outcome::Wrong
    }
}

/// The same of a check.
fn checked_in_heap(alloc: Global, size: usize) -> Outcome {
    let Ok(heap) = LocalHeap::new(alloc, size) else {
        return Outcome::Wrong;
    };
    match checked(alloc, &heap, REACH) {
        Verdict::Taken if heap.used() == 0 => Outcome::Right,
        Verdict::NoMemory if heap.used() == 0 => Outcome::Refused,
        _ => Outcome::Wrong,
    }
}

/// What comes of a query in an arena that takes its chunks from a heap of that size.
fn compiled_in_arena(alloc: Global, size: usize, query: &[u8], wanted: &[u8]) -> Outcome {
    let Ok(heap) = LocalHeap::new(alloc, size) else {
        return Outcome::Wrong;
    };
    let arena = Bump::new(&heap);
    compiled(alloc, &arena, query, wanted)
}

/// What comes of the loop in an arena that may not grow beyond that size. The same arena, once it is reset, takes the whole query if it may grow.
fn compiled_again(alloc: Global, size: usize) -> Outcome {
    let mut arena = Bump::new(alloc);
    arena.set_allocation_limit(Some(size));
    let first = compiled(alloc, &arena, REACH, REACH_GRAPH);
    if arena.reset().is_err() {
        return Outcome::Wrong;
    }
    arena.set_allocation_limit(None);
    match compiled(alloc, &arena, REACH, REACH_GRAPH) {
        Outcome::Right => first,
        _ => Outcome::Wrong,
    }
}

/// How often there was the right answer, no memory, or something else.
#[derive(Clone, Copy)]
struct Tally {
    right: u32,
    refused: u32,
    wrong: u32,
}

impl Tally {
    fn none() -> Tally {
        Tally {
            right: 0,
            refused: 0,
            wrong: 0,
        }
    }

    fn note(&mut self, outcome: Outcome) {
        match outcome {
            Outcome::Right => self.right = self.right.saturating_add(1),
            Outcome::Refused => self.refused = self.refused.saturating_add(1),
            Outcome::Wrong => self.wrong = self.wrong.saturating_add(1),
        }
    }

    /// Some were refused, and all others right.
    fn is_sound(&self) -> bool {
        self.right > 0 && self.refused > 0 && self.wrong == 0
    }
}

#[test]
fn checked_in_heaps(rt: HostRuntime) {
    let mut tally = Tally::none();
    for step in 1..=128 {
        tally.note(checked_in_heap(rt.alloc(), 64 * step));
    }
    assert!(rt; tally.is_sound());
}

#[test]
fn compiled_in_heaps(rt: HostRuntime) {
    for (query, graph) in [(REACH, REACH_GRAPH), (FORMS, FORMS_GRAPH)] {
        let mut tally = Tally::none();
        for step in 1..=256 {
            tally.note(compiled_in_heap(rt.alloc(), 64 * step, query, graph));
        }
        assert!(rt; tally.is_sound());
        assert_eq!(rt;
            compiled(rt.alloc(), rt.alloc(), query, graph),
            Outcome::Right
        );
    }
}

#[test]
fn compiled_in_arenas(rt: HostRuntime) {
    for (query, graph) in [(REACH, REACH_GRAPH), (FORMS, FORMS_GRAPH)] {
        let mut tally = Tally::none();
        for step in 1..=256 {
            tally.note(compiled_in_arena(rt.alloc(), 128 * step, query, graph));
        }
        assert!(rt; tally.is_sound());
    }
}

#[test]
fn compiled_again_in_an_arena(rt: HostRuntime) {
    let mut tally = Tally::none();
    for step in 1..=64 {
        tally.note(compiled_again(rt.alloc(), 512 * step));
    }
    assert!(rt; tally.is_sound());
}
