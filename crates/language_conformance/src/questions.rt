//! The questions that blocks ask of their lines.

use crate::graphs::Asked;
use crate::texts::{text_of, two_texts, word};
use crate::{
    basics, canonical, cells, deep, graphs, nodes, normal, queries, schedules, tokens, trees,
    values,
};
use pages::Subject;
use schedule::ViewKind;
use std::alloc::{AllocError, Global};

/// A question about one text.
#[derive(Clone, Copy)]
pub enum OfText {
    Tokens,
    TokensInArena,
    Growths,
    Read,
    Check,
    CheckWithoutScalars,
    Types,
    Beginnings,
    Changes,
    Copies,
    Crowded,
    Size,
    Nodes,
    Written,
    SourceWithoutPairs,
    Returns,
    Normal,
    Folded,
    NormalCrowded,
    Graph,
    Drawing,
    GraphSizes,
    Number,
    SignedNumber,
    Name,
    Keyword,
    Schedule,
    LateSchedule,
    Cells,
}

/// A question about two texts, or one that isn't about a text.
#[derive(Clone, Copy)]
pub enum OfCall {
    SameTree,
    SameGraph,
    Place,
    Source,
    Chain,
    Value,
    Negation,
    Comparison,
    Taken,
    Deep,
    NameOrder,
    Record,
    RecordOrder,
    Message,
}

/// What is answered about a text.
fn about_text(alloc: Global, question: OfText, text: &[u8]) -> Result<String, AllocError> {
    match question {
        OfText::Tokens => tokens::tokens(alloc, text),
        OfText::TokensInArena => tokens::in_arena(alloc, text),
        OfText::Growths => tokens::growths(alloc, text),
        OfText::Read => queries::reads(alloc, text),
        OfText::Check => queries::checks(alloc, text),
        OfText::CheckWithoutScalars => queries::checks_without_scalars(alloc, text),
        OfText::Types => queries::types(alloc, text),
        OfText::Beginnings => queries::beginnings(alloc, text),
        OfText::Changes => queries::changes(alloc, text),
        OfText::Copies => trees::copies(alloc, text),
        OfText::Crowded => trees::crowds(alloc, text),
        OfText::Size => trees::size(alloc, text),
        OfText::Nodes => nodes::nodes(alloc, text),
        OfText::Written => canonical::written(alloc, text),
        OfText::SourceWithoutPairs => canonical::is_source_without_pairs(alloc, text),
        OfText::Returns => canonical::returns(alloc, text),
        OfText::Normal => normal::normal(alloc, text),
        OfText::Folded => normal::folded(alloc, text),
        OfText::NormalCrowded => normal::crowds(alloc, text),
        OfText::Graph => graphs::about(alloc, text, Asked::Text),
        OfText::Drawing => graphs::about(alloc, text, Asked::Drawing),
        OfText::GraphSizes => graphs::about(alloc, text, Asked::Sizes),
        OfText::Number => basics::unsigned(alloc, text),
        OfText::SignedNumber => basics::signed(alloc, text),
        OfText::Name => basics::name(alloc, text),
        OfText::Keyword => basics::keyword(alloc, text),
        OfText::Schedule => schedules::steps(alloc, ViewKind::Shared, text),
        OfText::LateSchedule => schedules::steps(alloc, ViewKind::Local, text),
        OfText::Cells => cells::encoded(alloc, text),
    }
}

/// What is answered about the two texts of a call.
fn about_two(alloc: Global, question: OfCall, call: &str) -> Result<String, AllocError> {
    let Some((first, second)) = two_texts(alloc, call)? else {
        return word(alloc, "no texts");
    };
    let (first, second) = (first.as_slice(), second.as_slice());
    match question {
        OfCall::SameTree => trees::alike(alloc, first, second),
        OfCall::SameGraph => graphs::alike(alloc, first, second),
        _ => basics::are_in_order(alloc, first, second),
    }
}

/// What lies at a place of a graph, as `edge 2 of "QUERY"`.
fn about_place(alloc: Global, call: &str) -> Result<String, AllocError> {
    let (place, query) = call.split_once(" of ").unwrap_or((call, ""));
    match text_of(alloc, query)? {
        Some(query) => graphs::about(alloc, query.as_slice(), Asked::Place(place)),
        None => word(alloc, "no text"),
    }
}

fn about_call(alloc: Global, question: OfCall, call: &str) -> Result<String, AllocError> {
    match question {
        OfCall::SameTree | OfCall::SameGraph | OfCall::NameOrder => about_two(
            alloc, question, call,
        ),
        OfCall::Place => about_place(alloc, call),
        OfCall::Source => canonical::scalar_is_source(alloc, call),
        OfCall::Chain => normal::size_of_chain(alloc, call),
        OfCall::Value => values::value(alloc, call),
        OfCall::Negation => values::negation(alloc, call),
        OfCall::Comparison => values::comparison(alloc, call),
        OfCall::Taken => values::taken(alloc, call),
        OfCall::Deep => deep::let_go(alloc, call),
        OfCall::Record => basics::record(alloc, call),
        OfCall::RecordOrder => basics::is_before(alloc, call),
        OfCall::Message => schedules::message(alloc, call),
    }
}

/// A question about a text, or about what else a line says.
#[derive(Clone, Copy)]
pub enum Question {
    OfText(OfText),
    OfCall(OfCall),
}

impl Subject for Question {
    fn answer(&mut self, alloc: Global, call: &str) -> Result<String, AllocError> {
        match *self {
            Question::OfCall(question) => about_call(alloc, question, call),
            Question::OfText(question) => match text_of(alloc, call)? {
                Some(text) => about_text(alloc, question, text.as_slice()),
                None => word(alloc, "no text"),
            },
        }
    }
}

/// The first lines of blocks about one text.
const TEXTS: [(&str, OfText); 29] = [
    ("tokens", OfText::Tokens),
    ("tokens in an arena", OfText::TokensInArena),
    ("tokens in growing heaps", OfText::Growths),
    ("read", OfText::Read),
    ("check", OfText::Check),
    ("check without scalars", OfText::CheckWithoutScalars),
    ("types", OfText::Types),
    ("beginnings", OfText::Beginnings),
    ("changes of one byte", OfText::Changes),
    ("copies", OfText::Copies),
    ("small heap", OfText::Crowded),
    ("size", OfText::Size),
    ("nodes", OfText::Nodes),
    ("canonical text", OfText::Written),
    ("no source without pairs", OfText::SourceWithoutPairs),
    ("written and read back", OfText::Returns),
    ("normal form", OfText::Normal),
    ("folded", OfText::Folded),
    ("normal form in growing heaps", OfText::NormalCrowded),
    ("graph", OfText::Graph),
    ("drawing", OfText::Drawing),
    ("graph sizes", OfText::GraphSizes),
    ("number", OfText::Number),
    ("signed number", OfText::SignedNumber),
    ("name", OfText::Name),
    ("keyword", OfText::Keyword),
    ("schedule", OfText::Schedule),
    ("schedule with late views", OfText::LateSchedule),
    ("cells", OfText::Cells),
];

/// The first lines of the others.
const CALLS: [(&str, OfCall); 14] = [
    ("same tree", OfCall::SameTree),
    ("same graph", OfCall::SameGraph),
    ("places", OfCall::Place),
    ("scalar that is a source", OfCall::Source),
    ("size of normal form", OfCall::Chain),
    ("value", OfCall::Value),
    ("negation", OfCall::Negation),
    ("comparison", OfCall::Comparison),
    ("taken", OfCall::Taken),
    ("deep trees", OfCall::Deep),
    ("order of names", OfCall::NameOrder),
    ("record", OfCall::Record),
    ("order of records", OfCall::RecordOrder),
    ("message", OfCall::Message),
];

/// What a table has for a word.
pub fn found<T: Copy>(rows: &[(&str, T)], word: &str) -> Option<T> {
    for (name, value) in rows {
        if *name == word {
            return Some(*value);
        }
    }
    None
}

/// The question of a block's first line.
pub fn question_of(first: &str) -> Option<Question> {
    match found(&TEXTS, first) {
        Some(question) => Some(Question::OfText(question)),
        None => found(&CALLS, first).map(Question::OfCall),
    }
}
