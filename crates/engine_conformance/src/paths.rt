//! Which pointstamps of a graph could result in which.

ghost use Rattle.std.specs.Prelude.{◌≡◌};
ghost use Rattle.graph.specs.Shown.{shown_graph};

use crate::texts::{no_such_call, said, text, yes_or_no};
use crate::times::{graph_of, pointstamp_of};
use pages::Subject;
use path_summary::Paths;
use rows::WorkFault;
use std::alloc::{AllocError, Global};
use std::sync::Arc;

/// The paths of a query's graph.
pub fn paths_of(alloc: Global, query: &str) -> Option<Arc<Paths, Global>> {
    let graph = Arc::new(alloc, graph_of(alloc, query)?).ok()?;
    Arc::new(alloc, Paths::of(alloc, &graph).ok()?).ok()
}

/// The paths of a first line `paths of QUERY`.
#[derive(Drop)]
pub struct Shown {
    paths: Arc<Paths, Global>,
}

pub fn new_paths(alloc: Global, query: &str) -> Result<Option<Shown>, WorkFault> {
    match paths_of(alloc, query) {
        Some(paths) => Ok(Some(Shown { paths })),
        None => Ok(None),
    }
}

/// Whether one pointstamp could result in another, as `vertex 3 at 0.1 in vertex 2 at 0.2`.
fn could(alloc: Global, paths: &Paths, call: &str) -> Result<String, WorkFault> {
    let (from, to) = call.split_once(" in ").unwrap_or((call, ""));
    let (Some(from), Some(to)) = (pointstamp_of(alloc, from)?, pointstamp_of(alloc, to)?) else {
        return no_such_call(alloc);
    };
    if !paths.fits(&from) || !paths.fits(&to) {
        return text(alloc, "not there");
    }
    yes_or_no(alloc, paths.could(&from, &to))
}

/// What a call is answered.
fn reply(alloc: Global, subject: &mut Shown, call: &str) -> Result<String, WorkFault> {
    could(alloc, &subject.paths, call)
}

impl Subject for Shown {
    fn answer(&mut self, alloc: Global, call: &str) -> Result<String, AllocError> {
        said(alloc, reply(alloc, self, call))
    }
}
