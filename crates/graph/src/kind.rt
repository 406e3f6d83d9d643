//! What each kind is to the graph: a method for each column of the definition's table.

ghost use Rattle.std.specs.Prelude.{◌≡◌};
ghost use Rattle.loop_context.specs.Actions.{action_of};
ghost use Rattle.semantics.specs.Kinds.{action, in_ports, is_input, is_output, looks_back, out_ports, role, route_key};
ghost use Rattle.graph.specs.Views.{key_of, kind_of, role_of};

use crate::vertex::Kind;
use expr_tree::{Column, Pair};
use loop_context::Action;

/// How a vertex answers what comes in: a stateless one at once, from the message alone; a stateful one at once, from all that it has
/// absorbed; a notified one when no more can come at that time.
#[derive(Clone, Copy, PartialEq, Eq)]
pub enum Role {
    Input,
    Stateless,
    Stateful,
    Notified,
    Output,
}

/// What records must have in common to go to one worker.
#[derive(Clone, Copy)]
pub enum RouteKey<'a> {
    /// Nothing: the kind has no route key at this port.
    Nothing,
    /// The left columns of these pairs.
    Left(&'a [Pair]),
    /// The right columns of these pairs.
    Right(&'a [Pair]),
    /// These columns.
    Columns(&'a [Column]),
    /// All fields.
    Record,
}

impl Kind {
    /// The number of in ports.
    pub fn in_ports(&self) -> u32
        ensures { result ≡ in_ports (kind_of self.now) }
    {
        match self {
            Kind::Input => 0,
            Kind::Concat | Kind::Join(_) | Kind::Lookup(_) | Kind::Except | Kind::Intersect => 2,
            Kind::Output
            | Kind::Select(_)
            | Kind::Where(_)
            | Kind::Group(_, _)
            | Kind::Distinct
            | Kind::Ingress
            | Kind::Egress
            | Kind::Feedback
            | Kind::Gate(_)
            | Kind::Unseen(_)
            | Kind::Hold(_) => 1,
        }
    }

    /// The number of out ports.
    pub fn out_ports(&self) -> u32
        ensures { result ≡ out_ports (kind_of self.now) }
    {
        match self {
            Kind::Output => 0,
            Kind::Gate(_) | Kind::Unseen(_) | Kind::Hold(_) => 2,
            Kind::Input
            | Kind::Select(_)
            | Kind::Where(_)
            | Kind::Concat
            | Kind::Join(_)
            | Kind::Lookup(_)
            | Kind::Group(_, _)
            | Kind::Distinct
            | Kind::Except
            | Kind::Intersect
            | Kind::Ingress
            | Kind::Egress
            | Kind::Feedback => 1,
        }
    }

    /// What it does to the time of what passes it.
    pub fn action(&self) -> Action
        ensures { action_of result ≡ action (kind_of self.now) }
    {
        match self {
            Kind::Ingress => Action::Enter,
            Kind::Egress => Action::Leave,
            Kind::Feedback => Action::Next,
            Kind::Input
            | Kind::Output
            | Kind::Select(_)
            | Kind::Where(_)
            | Kind::Concat
            | Kind::Join(_)
            | Kind::Lookup(_)
            | Kind::Group(_, _)
            | Kind::Distinct
            | Kind::Except
            | Kind::Intersect
            | Kind::Gate(_)
            | Kind::Unseen(_)
            | Kind::Hold(_) => Action::Stay,
        }
    }

    /// The route key of a record that comes in at a port.
    pub fn route_key(&self, in_port: u32) -> RouteKey<'_>
        ensures { key_of result ≡ route_key (kind_of self.now) in_port }
    {
        match self {
            Kind::Join(pairs) | Kind::Lookup(pairs) => {
                if in_port == 0 {
                    RouteKey::Left(pairs.as_slice())
                } else {
                    RouteKey::Right(pairs.as_slice())
                }
            }
            Kind::Group(columns, _) => RouteKey::Columns(columns.as_slice()),
            Kind::Distinct | Kind::Except | Kind::Intersect | Kind::Unseen(_) => RouteKey::Record,
            Kind::Input
            | Kind::Output
            | Kind::Select(_)
            | Kind::Where(_)
            | Kind::Concat
            | Kind::Ingress
            | Kind::Egress
            | Kind::Feedback
            | Kind::Gate(_)
            | Kind::Hold(_) => RouteKey::Nothing,
        }
    }

    /// How it answers what comes in.
    pub fn role(&self) -> Role
        ensures { role_of result ≡ role (kind_of self.now) }
    {
        match self {
            Kind::Input => Role::Input,
            Kind::Output => Role::Output,
            Kind::Join(_) | Kind::Distinct | Kind::Intersect => Role::Stateful,
            Kind::Lookup(_) | Kind::Group(_, _) | Kind::Except | Kind::Unseen(_) => Role::Notified,
            Kind::Select(_)
            | Kind::Where(_)
            | Kind::Concat
            | Kind::Ingress
            | Kind::Egress
            | Kind::Feedback
            | Kind::Gate(_)
            | Kind::Hold(_) => Role::Stateless,
        }
    }

    /// Whether it also reads what came to its last port in the earlier turns of its loop.
    pub fn looks_back(&self) -> bool
        ensures { result ≡ looks_back (kind_of self.now) }
    {
        matches!(self, Kind::Unseen(_) | Kind::Lookup(_))
    }

    /// Whether it is an input.
    pub fn is_input(&self) -> bool
        ensures { result ≡ is_input (kind_of self.now) }
    {
        matches!(self, Kind::Input)
    }

    /// Whether it is an output.
    pub fn is_output(&self) -> bool
        ensures { result ≡ is_output (kind_of self.now) }
    {
        matches!(self, Kind::Output)
    }
}
