//! Trackers of active pointstamps, and views of them.

ghost use Rattle.std.specs.Prelude.{◌≡◌};
ghost use Rattle.graph.specs.Shown.{shown_graph};
ghost use Rattle.semantics.specs.Could.{IsTimeAt};

use crate::differences::differences;
use crate::paths::paths_of;
use crate::texts::{no_such_call, said, text};
use crate::times::pointstamp_of;
use crate::turns::{Seen, direct_turns, late_turns};
use pages::Subject;
use path_summary::{Paths, Pointstamp};
use progress::{LocationTracker, Progress};
use record_core::NoMemory;
use rows::WorkFault;
use simple_trackers::{Change, CountTracker, PlainTracker, changes};
use std::alloc::{AllocError, Global};
use std::sync::Arc;

/// The paths of a first line `trackers of QUERY`.
#[derive(Drop)]
pub struct Trackers {
    paths: Arc<Paths, Global>,
}

pub fn new_trackers(alloc: Global, query: &str) -> Result<Option<Trackers>, WorkFault> {
    match paths_of(alloc, query) {
        Some(paths) => Ok(Some(Trackers { paths })),
        None => Ok(None),
    }
}

/// Two pointstamps of a graph.
#[derive(Drop)]
struct Two {
    p: Pointstamp,
    q: Pointstamp,
}

/// The questions: about `q`, about `p`, about `q` once `p` is gone, and about `q` once only one of it is left.
fn asked<P: Progress>(
    alloc: Global,
    tracker: &mut P,
    p: &Pointstamp,
    q: &Pointstamp,
) -> Result<Vec<bool>, NoMemory>
    requires p { IsTimeAt (P.graph tracker.old) p.now.location p.now.time }
    requires q { IsTimeAt (P.graph tracker.old) q.now.location q.now.time }
{
    let list = [
        Change::Add(p.copied()),
        Change::Add(q.copied()),
        Change::Add(q.copied()),
        Change::Ask(q.copied()),
        Change::Ask(p.copied()),
        Change::Remove(p.copied()),
        Change::Ask(q.copied()),
        Change::Remove(q.copied()),
        Change::Ask(q.copied()),
    ];
    changes(alloc, tracker, &list)
}

/// The answers of a tracker of these paths.
fn answers<P: Progress>(
    alloc: Global,
    paths: &Paths,
    mut tracker: P,
    two: &Two,
) -> Result<String, WorkFault>
    requires { P.graph tracker ≡ shown_graph paths.now }
{
    if !paths.fits(&two.p) || !paths.fits(&two.q) {
        return text(alloc, "not there");
    }
    let answers = asked(alloc, &mut tracker, &two.p, &two.q)?;
    words(alloc, answers.as_slice())
}

/// The answers of a tracker with counts, which are exact.
fn counting_answers(
    alloc: Global,
    paths: &Paths,
    tracker: CountTracker,
    two: &Two,
) -> Result<String, WorkFault>
    requires { shown_graph tracker.graph ≡ shown_graph paths.now }
{
    tracker.law_of_counts();
    answers(alloc, paths, tracker, two)
}

/// Answers as words.
fn words(alloc: Global, answers: &[bool]) -> Result<String, WorkFault> {
    let mut words = String::new(alloc);
    for answer in answers {
        let space = if words.is_empty() { "" } else { " " };
        words.push_str(space)?;
        words.push_str(if *answer { "yes" } else { "no" })?;
    }
    Ok(words)
}

/// The pointstamps of a text `vertex 3 at 0.1 and vertex 2 at 0.2`.
fn two_of(alloc: Global, text: &str) -> Result<Option<Two>, WorkFault> {
    let (p, q) = text.split_once(" and ").unwrap_or((text, ""));
    match (pointstamp_of(alloc, p)?, pointstamp_of(alloc, q)?) {
        (Some(p), Some(q)) => Ok(Some(Two { p, q })),
        _ => Ok(None),
    }
}

/// What a tracker of that form answers.
fn frontiers(
    alloc: Global,
    paths: &Arc<Paths, Global>,
    form: &str,
    two: &Two,
) -> Result<String, WorkFault> {
    let shared = Arc::try_clone(paths)?;
    match form {
        "plain" => answers(alloc, paths, PlainTracker::new(alloc, shared), two),
        "located" => answers(alloc, paths, LocationTracker::new(alloc, shared)?, two),
        "counting" => counting_answers(alloc, paths, CountTracker::new(alloc, shared), two),
        _ => no_such_call(alloc),
    }
}

/// `plain: vertex 3 at 0.1 and vertex 2 at 0.2`
fn frontiers_of(
    alloc: Global,
    paths: &Arc<Paths, Global>,
    call: &str,
) -> Result<String, WorkFault> {
    let (form, two) = call.split_once(": ").unwrap_or((call, ""));
    match two_of(alloc, two)? {
        Some(two) => frontiers(alloc, paths, form, &two),
        None => no_such_call(alloc),
    }
}

/// How many answers of two trackers differ while that many pointstamps come and go.
fn differing(alloc: Global, paths: &Arc<Paths, Global>, count: &str) -> Result<String, WorkFault> {
    match count.parse::<u32>() {
        Ok(count) if count < 1000 => match differences(alloc, paths, count)? {
            Some(differ) => Ok(format!(in alloc; "{differ}")?),
            None => text(alloc, "not there"),
        },
        _ => no_such_call(alloc),
    }
}

/// What two workers see, one of which is late, at each of four moments.
fn seen(alloc: Global, moments: &[Seen]) -> Result<String, WorkFault> {
    let mut text = String::new(alloc);
    for (first, second, waiting) in moments {
        let between = if text.is_empty() { "" } else { ", " };
        let both = words(alloc, &[*first, *second])?;
        text.push_str(format!(in alloc; "{between}{both} {waiting}")?.as_str())?;
    }
    Ok(text)
}

/// `late: vertex 7 at 0`
fn views_of(alloc: Global, paths: &Arc<Paths, Global>, call: &str) -> Result<String, WorkFault> {
    let (form, output) = call.split_once(": ").unwrap_or((call, ""));
    let Some(output) = pointstamp_of(alloc, output)? else {
        return no_such_call(alloc);
    };
    let moments = match form {
        "late" => late_turns(alloc, paths, &output),
        "direct" => direct_turns(alloc, paths, &output),
        _ => None,
    };
    match moments {
        Some(moments) => seen(alloc, moments.as_slice()),
        None => text(alloc, "not there"),
    }
}

/// What a call is answered.
fn reply(alloc: Global, subject: &mut Trackers, call: &str) -> Result<String, WorkFault> {
    let (verb, rest) = call.split_once(' ').unwrap_or((call, ""));
    match verb {
        "frontiers" => frontiers_of(alloc, &subject.paths, rest),
        "views" => views_of(alloc, &subject.paths, rest),
        "differences" => differing(alloc, &subject.paths, rest),
        _ => no_such_call(alloc),
    }
}

impl Subject for Trackers {
    fn answer(&mut self, alloc: Global, call: &str) -> Result<String, AllocError> {
        said(alloc, reply(alloc, self, call))
    }
}
