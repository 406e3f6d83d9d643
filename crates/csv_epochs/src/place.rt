//! Where in a record a byte comes, seen from the cell that is asked for.

ghost use Rattle.std.specs.Prelude.{◌≡◌};
ghost use Rattle.csv_epochs.specs.Places.{next_place, place_before};

/// Where in a record a byte comes.
#[derive(Clone, Copy)]
pub enum Place {
    /// Before the cell that is asked for: so many commas come before it, at least one.
    Before(usize),
    /// In that cell.
    Inside,
    /// Behind it.
    Behind,
}

impl Place {
    /// The place where so many commas come before the cell.
    pub fn before(commas: usize) -> Place
        ensures { result ≡ place_before commas }
    {
        if commas == 0 {
            Place::Inside
        } else {
            Place::Before(commas)
        }
    }

    /// The place after a comma.
    pub fn next(self) -> Place
        ensures { result ≡ next_place self }
    {
        match self {
            Place::Before(commas) => Place::before(commas.saturating_sub(1)),
            Place::Inside | Place::Behind => Place::Behind,
        }
    }
}
