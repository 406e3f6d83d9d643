//! The type of pointstamps.

ghost use Rattle.std.specs.Prelude.{◌≡◌, ◌↔◌, IsTrue};
ghost use Rattle.graph.specs.Locations.{location_of};

use graph::Location;
use loop_context::Time;
use std::marker::Model;

/// A time with a location.
#[derive(Drop)]
pub struct Pointstamp {
    time: Time,
    location: Location,
}

impl Model for Pointstamp {
    ghost use Rattle.semantics.specs.Could as semantics;
    ghost use Rattle.graph.specs.Locations.{location_of};

    ghost Value = { semantics.Pointstamp };

    ghost view = { λ p. record { time = p.time; location = location_of p.location } };
}

impl Pointstamp {
    pub fn new(time: Time, location: Location) -> Self
        ensures { result ≡ record { time = time; location = location_of location } }
    {
        Pointstamp { time, location }
    }

    pub fn time(&self) -> &Time
        ensures { result.now ≡ self.now.time }
    {
        &self.time
    }

    pub fn location(&self) -> Location
        ensures { location_of result ≡ self.now.location }
    {
        self.location
    }

    /// The same pointstamp.
    pub fn copied(&self) -> Pointstamp
        ensures { result ≡ self.now }
    {
        Pointstamp {
            time: self.time.copied(),
            location: self.location,
        }
    }

    /// Whether the two are equal.
    #[tactic(auto, using(crate::proofs::WholeTables::same_pointstamp))]
    pub fn same(&self, other: &Pointstamp) -> bool
        ensures { IsTrue result ↔ (self.now ≡ other.now) }
    {
        let locations = same_location(self.location, other.location);
        locations && self.time == other.time
    }
}

/// Whether the locations are equal.
pub fn same_location(location: Location, other: Location) -> bool
    ensures { IsTrue result ↔ (location_of location ≡ location_of other) }
{
    match location {
        Location::Edge(edge) => match other {
            Location::Edge(other) => edge.0 == other.0,
            Location::Vertex(_) => false,
        },
        Location::Vertex(vertex) => match other {
            Location::Edge(_) => false,
            Location::Vertex(other) => vertex.0 == other.0,
        },
    }
}
