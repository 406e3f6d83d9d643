//! Reports the progress of a run.

ghost use Rattle.std.specs.Prelude.{◌≡◌, ◌≤◌, ◌<◌, ◌+◌, ◌∷◌, [], cond, None, Option, true, false, max};
ghost use Rattle.std.specs.Io.KnownBytes.{Appends};
ghost use Rattle.collector.specs.WrittenBytes.{AppendsFront};
ghost use Rattle.execution.specs.Told.{IsTold, Takes, Tells, ended, interval, line_end, told, untold};
ghost use Rattle.execution.specs.declared.watching.Watcher.{Watcher};

use arrayvec::ArrayVec;
use collector::Number;
use std::io::Write;
use std::mem::replace;
use std::sync::Wait;
use views::Views;
use workers::{Engine, Mark, Naming, Seat};

/// The fewest records between two notes of what was received.
pub const INTERVAL: u64 = 1_048_576;

/// How a watcher writes how far a run is.
#[derive(Clone, Copy)]
pub enum Telling {
    /// One line each time, for a file or a pipe.
    Lines,
    /// One line of a terminal, whose numbers rise in place.
    InPlace,
    /// Nothing more, since the writer has failed.
    Silent,
}

/// How far a run is.
#[derive(Clone, Copy, PartialEq, Eq)]
pub struct Progress {
    /// The epochs that have passed at every output.
    pub passed: u64,
    /// The records that vertices took in, repeats counted.
    pub received: u64,
}

impl Progress {
    /// Before anything is told.
    pub fn none() -> Progress
        ensures { result ≡ untold }
    {
        Progress {
            passed: 0,
            received: 0,
        }
    }

    /// Whether there is something to tell.
    fn is_some(self) -> bool
        ensures { ended self.passed self.received ≡ cond result (10 ∷ []) [] }
    {
        self.passed > 0 || self.received > 0
    }
}

/// What is told of a run.
#[derive(Clone, Copy)]
pub enum Note {
    /// More epochs have passed.
    Passed(Progress),
    /// More records were received.
    Received(Progress),
}

/// A writer to which the progress of a run is reported.
#[derive(Drop)]
pub struct Watcher<W> {
    pub writer: W,
    pub telling: Telling,
}

/// Whether the writer takes the whole text, in one write if it can. If not, it took a beginning.
pub fn takes_all<W: Write>(writer: &mut W, text: &[u8]) -> bool
    ensures whole { result ≡ true → Appends (W.contents writer.old) (W.contents writer.new) text.now }
    ensures front { result ≡ false → AppendsFront (W.contents writer.old) (W.contents writer.new) text.now }
{
    let mut at = 0;
    while at < text.len() {
        match writer.write(&text[at..]) {
            Ok(0) | Err(_) => return false,
            Ok(n) => at += n,
        }
    }
    writer.flush().is_ok()
}

impl<W: Write> Watcher<W> {
    /// Writes a text.
    fn put(&mut self, text: &[u8])
        ensures { Takes W.contents self.old self.new text.now }
    {
        if !takes_all(&mut self.writer, text) {
            self.telling = Telling::Silent;
        }
    }

    /// Reports one note.
    fn tell(&mut self, note: Note)
        ensures { Takes W.contents self.old self.new (told self.old.telling note) }
    {
        let (Note::Passed(now) | Note::Received(now)) = note;
        let passed = Number(now.passed);
        let received = Number(now.received);
        let mut text: ArrayVec<u8, 64> = ArrayVec::new();
        let formed = match self.telling {
            Telling::Lines => match note {
                Note::Passed(_) => writeln!(text, "passed {passed}"),
                Note::Received(_) => writeln!(text, "received {received}"),
            },
            Telling::InPlace if now.received == 0 => write!(text, "\rpassed {passed}"),
            Telling::InPlace => write!(text, "\rpassed {passed} received {received}"),
            Telling::Silent => return,
        };
        match formed {
            Ok(()) => self.put(text.as_slice()),
            Err(_) => self.telling = Telling::Silent,
        }
    }

    /// Ends the line whose numbers rose in place. Separate lines have ended already.
    fn end(&mut self, told: Progress)
        ensures { Takes W.contents self.old self.new (line_end self.old.telling told) }
    {
        match self.telling {
            Telling::InPlace if told.is_some() => self.put(b"\n"),
            Telling::Lines | Telling::InPlace | Telling::Silent => {}
        }
    }
}

/// A watcher at work, if there is one, and what was told last.
#[derive(Drop)]
pub struct Watch<W> {
    pub watcher: Option<Watcher<W>>,
    pub told: Progress,
}

impl<W: Write> Watch<W> {
    pub fn new(watcher: Option<Watcher<W>>) -> Watch<W>
        ensures { (result.watcher ≡ watcher) × (result.told ≡ untold) }
    {
        let told = Progress::none();
        Watch { watcher, told }
    }

    /// Takes the watcher from its place.
    pub fn begin(place: &mut Option<Watcher<W>>) -> Watch<W>
        ensures taken { (result.watcher ≡ place.old) × (result.told ≡ untold) }
        ensures none { place.new ≡ None }
    {
        Watch::new(replace(place, None))
    }

    /// Whether there is a watcher.
    pub fn is_on(&self) -> bool {
        self.watcher.is_some()
    }

    /// Reports a number of passed epochs, if it is greater than the one that was told last.
    pub fn tell_rise(&mut self, passed: u64)
        ensures told { self.new.told.passed ≡ max self.old.told.passed passed }
        ensures received { self.new.told.received ≡ self.old.told.received }
        ensures tells { Tells W.contents self.old.watcher self.new.watcher self.old.told self.new.told }
    {
        if passed <= self.told.passed {
            return;
        }
        let received = self.told.received;
        self.told = Progress { passed, received };
        if let Some(watcher) = &mut self.watcher {
            watcher.tell(Note::Passed(Progress { passed, received }));
        }
    }

    /// Reports a number of received records, if it is greater by an interval than the one that was told last.
    pub fn tell_received(&mut self, received: u64)
        ensures due { self.old.told.received + interval ≤ received → self.new.told.received ≡ received }
        ensures early { received < self.old.told.received + interval → self.new.told.received ≡ self.old.told.received }
        ensures passed { self.new.told.passed ≡ self.old.told.passed }
        ensures tells { Tells W.contents self.old.watcher self.new.watcher self.old.told self.new.told }
    {
        if received.saturating_sub(self.told.received) < INTERVAL {
            return;
        }
        let passed = self.told.passed;
        self.told = Progress { passed, received };
        if let Some(watcher) = &mut self.watcher {
            watcher.tell(Note::Received(Progress { passed, received }));
        }
    }

    /// Whether its writer has failed.
    fn is_silent(&self) -> bool {
        match &self.watcher {
            None => true,
            Some(watcher) => watcher.telling == Telling::Silent,
        }
    }

    /// Lends out the watcher, with what it was told. There is none meanwhile.
    pub fn lend(&mut self) -> Watch<W>
        ensures lent { result ≡ self.old }
        ensures none { self.new.watcher ≡ None }
    {
        replace(self, Watch::new(None))
    }

    /// Takes back a watcher that was lent out.
    pub fn take_back(&mut self, lent: Watch<W>)
        requires { self.old.watcher ≡ None }
        ensures { self.new ≡ lent }
    {
        let Watch { watcher, told } = lent;
        self.told = told;
        fill(&mut self.watcher, watcher);
    }

    /// Ends the line whose numbers rose, and gives the watcher.
    pub fn end(self) -> Option<Watcher<W>>
        ensures { (first : Option (Watcher W)) → Tells W.contents first self.watcher untold self.told → IsTold W.contents first result self.told }
    {
        let Watch { mut watcher, told } = self;
        if let Some(watcher) = &mut watcher {
            watcher.end(told);
        }
        watcher
    }
}

/// Fills a place that is empty.
pub fn fill<T>(place: &mut Option<T>, value: Option<T>)
    requires { place.old ≡ None }
    ensures { place.new ≡ value }
{
    let before = replace(place, value);
    let None = before else { unreachable!() };
}

/// A mark with a seat at it.
#[derive(Drop)]
pub struct Reader {
    pub mark: Mark,
    pub seat: Seat,
    ghost of: { seat.table ≡ mark },
}

impl Reader {
    pub fn new(mark: Mark, seat: Seat) -> Reader
        requires { seat.table ≡ mark }
        ensures { (result.mark ≡ mark) × (result.seat ≡ seat) }
    {
        Reader { mark, seat }
    }

    /// Reads the mark.
    fn read(&mut self) -> u64
        ensures mark { self.new.mark ≡ self.old.mark }
        ensures read { self.new.seat.number ≡ result }
        ensures rises { self.old.seat.number ≤ result }
    {
        self.mark.observe(&mut self.seat)
    }
}

/// The marks of passed epochs and of received records, and the watcher at work that is told what the seats there read: no more than that.
#[derive(Drop)]
pub struct Observer<W> {
    pub passed: Reader,
    pub received: Reader,
    pub watch: Watch<W>,
    ghost passed_read: { watch.told.passed ≤ passed.seat.number },
    ghost received_read: { watch.told.received ≤ received.seat.number },
}

impl<W: Write> Observer<W> {
    pub fn new(passed: Reader, received: Reader, watch: Watch<W>) -> Observer<W>
        requires passed { watch.told.passed ≤ passed.seat.number }
        requires received { watch.told.received ≤ received.seat.number }
        ensures { (result.passed ≡ passed) × (result.received ≡ received) × (result.watch ≡ watch) }
    {
        Observer {
            passed,
            received,
            watch,
        }
    }
}

/// Reports whenever more epochs have passed, or more records were received by an interval, than were told, and sleeps in between. Ends when there will be
/// no more, or the writer has failed.
pub fn keep_watch<J: Naming, V: Views, R: Wait, W: Write>(
    rt: &R,
    engine: &Engine<J, V>,
    observer: Observer<W>,
) -> Observer<W>
    ensures passed { result.passed.mark ≡ observer.passed.mark }
    ensures received { result.received.mark ≡ observer.received.mark }
    ensures tells { Tells W.contents observer.watch.watcher result.watch.watcher observer.watch.told result.watch.told }
{
    let Observer {
        mut passed,
        mut received,
        mut watch,
    } = observer;
    let mut known = Progress::none();
    for _turn in rt.forever() {
        engine.wait_for_news(rt, known.passed.saturating_add(1), known.received);
        let epochs = passed.read();
        let records = received.read();
        let now = Progress {
            passed: epochs,
            received: records,
        };
        if now == known || watch.is_silent() {
            break;
        }
        watch.tell_received(records);
        watch.tell_rise(epochs);
        known = now;
    }
    Observer::new(passed, received, watch)
}
