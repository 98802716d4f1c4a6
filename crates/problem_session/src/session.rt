// The problems of a session, one after the other.
ghost use Rattle.std.specs.Prelude.{◌≡◌, ◌<◌, ◌+◌, IfOk, Some, length, map, slice_get};
ghost use Rattle.problem_session.specs.Changes.{AreChanges, no_parts, problems_from};

use crate::change::Checked;
use poly_graph::{FormGraph, Graph, Problem};
use std::alloc::{AllocError, Global};
use std::marker::Model;

/// The problems of a script's checks, in order. Each is kept by what is new in it beside the problem before.
#[derive(Drop)]
pub struct Session {
    checks: Vec<Checked>,
}

impl Model for Session {
    ghost use Rattle.std.specs.Prelude.{List, Bool};
    ghost use Rattle.poly_graph.specs.ProblemViews.{Parts};
    ghost use Rattle.problem_session.specs.Changes.{AreChanges, no_parts, problems_from};

    ghost Value = { List (Parts × Bool) };

    ghost view = { λ s. problems_from no_parts s.checks.items };

    ghost invariant = { λ s. AreChanges no_parts s.checks.items };
}

impl Session {
    /// The session of these changes.
    pub fn of(checks: Vec<Checked>) -> Self
        requires { AreChanges no_parts checks.items }
        ensures { result ≡ problems_from no_parts checks.items }
    {
        Session { checks }
    }

    /// How many checks there are.
    pub fn len(&self) -> usize
        ensures { result ≡ length self.now }
    {
        self.checks.len()
    }

    /// Whether all commands that were in force at the check before are in force at the check of this number.
    pub fn extends(&self, k: usize) -> bool
        requires { k < length self.now }
        ensures { slice_get (map (λ p. p.1) self.now) k ≡ Some result }
    {
        self.checks[k].extends
    }

    /// The problem of the first check.
    pub fn first(&self, alloc: Global) -> Result<Problem, AllocError>
        requires { 0 < length self.now }
        ensures { IfOk result (λ p. slice_get (map (λ q. q.0) self.now) 0 ≡ Some p) }
    {
        self.checks[0]
            .change
            .after(alloc, &Graph::new(alloc), &[], &FormGraph::new(alloc))
    }

    /// The problem of the check behind the one of this number, whose problem is given. It takes the time of a copy, and
    /// builds nothing.
    pub fn next(&self, alloc: Global, k: usize, before: &Problem) -> Result<Problem, AllocError>
        requires within { k + 1 < length self.now }
        requires before { slice_get (map (λ q. q.0) self.now) k ≡ Some before.now }
        ensures { IfOk result (λ p. slice_get (map (λ q. q.0) self.now) (k + 1) ≡ Some p) }
    {
        self.checks[k + 1]
            .change
            .after(alloc, before.graph(), before.atoms(), before.forms())
    }
}
