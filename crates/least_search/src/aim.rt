// A goal, and its enclosures.
ghost use Rattle.std.specs.Prelude.{◌≡◌, ◌<◌, ◌≤◌, IfOk, length, option_map};
ghost use Rattle.dyadic.specs.Views.{dyadic_of, ext_of};
ghost use Rattle.poly_graph.specs.Problem.{atom_at};
ghost use Rattle.poly_graph.specs.ProblemViews.{problem_of};
ghost use Rattle.cover_model.specs.State.{atom_enclosure};
ghost use Rattle.cert_model.specs.Least.{upper_at, upper_end};
ghost use Rattle.cover_book.specs.Limits.{IsWithinLimits};
ghost use Rattle.goal_limit.specs.Lows.{low_of};
ghost use Rattle.ival.specs.Views.{interval_of};
ghost use Rattle.ival.specs.RowViews.{rows_of};
ghost use Rattle.ival.specs.SpaceViews.{space_of};
ghost use Rattle.least_search.specs.Aims.{IsReady, IsRootBound, IsSameAim};

use cover_data::Options;
use dyadic::{Dy, Ext};
use form_truth::{Root, root_space};
use hc4::fill;
use ival::{Ival, Rows, Space};
use poly_graph::Problem;
use std::alloc::{AllocError, Global};

/// The problem, the atom whose term is the goal, how near its bounds shall come, within `2^-gap_bits`, the options of each
/// search but its budget, and rows for the problem's nodes.
#[derive(Drop)]
pub(crate) struct Aim<'a> {
    pub problem: &'a Problem,
    pub goal: u32,
    pub gap_bits: u32,
    pub options: &'a Options,
    rows: Rows,
}

// The node of the atom's term.
fn term_of(problem: &Problem, atom: u32) -> u32
    requires { atom < length problem.now.atoms }
    ensures term { result ≡ (atom_at (problem_of problem.now) atom).0 }
    ensures place { result < length problem.now.nodes }
{
    let atoms = problem.atoms();
    atoms[atom as usize].term
}

// The enclosure of the atom's term over the space.
fn enclosure(problem: &Problem, atom: u32, rows: &mut Rows, space: &Space) -> Ival
    requires atom { atom < length problem.now.atoms }
    requires rows { length (rows_of rows.old) ≡ length problem.now.nodes }
    ensures interval { interval_of result
        ≡ atom_enclosure (problem_of problem.now) (space_of space.now) atom }
    ensures rows { length (rows_of rows.new) ≡ length problem.now.nodes }
{
    fill(problem.graph(), space, rows);
    rows.get(term_of(problem, atom) as usize)
}

// The upper end of some values.
fn upper_end(values: Ival) -> Ext
    ensures { ext_of result ≡ upper_end (interval_of values) }
{
    match values {
        Ival::Empty => Ext::NegInf,
        Ival::Between(ends) => ends.high,
    }
}

// The lower end of some values; none where it is no number.
fn lower_bound(values: Ival) -> Option<Dy>
    ensures { option_map dyadic_of result ≡ low_of (interval_of values) }
{
    match values {
        Ival::Empty => None,
        Ival::Between(ends) => match ends.low {
            Ext::Fin(low) => Some(low),
            Ext::NegInf | Ext::PosInf => None,
        },
    }
}

impl<'a> Aim<'a> {
    pub(crate) fn new(
        alloc: Global,
        problem: &'a Problem,
        goal: u32,
        gap_bits: u32,
        options: &'a Options,
    ) -> Result<Self, AllocError>
        requires goal { goal < length problem.now.atoms }
        requires gap { gap_bits ≤ 30 }
        requires limits { IsWithinLimits problem.now options.now }
        ensures ready { IfOk result IsReady }
        ensures problem { IfOk result (λ a. a.problem ≡ problem.entry) }
        ensures goal { IfOk result (λ a. a.goal ≡ goal) }
        ensures gap { IfOk result (λ a. a.gap_bits ≡ gap_bits) }
        ensures options { IfOk result (λ a. a.options ≡ options.entry) }
    {
        let rows = Rows::new(alloc, problem.graph().len())?;
        Ok(Aim {
            problem,
            goal,
            gap_bits,
            options,
            rows,
        })
    }

    /// The upper end of the goal's enclosure over the space.
    pub(crate) fn upper(&mut self, space: &Space) -> Ext
        requires { IsReady self.old }
        ensures upper { ext_of result
            ≡ upper_at (problem_of self.old.problem.now) self.old.goal (space_of space.now) }
        ensures ready { IsReady self.new }
        ensures same { IsSameAim self.old self.new }
    {
        upper_end(enclosure(self.problem, self.goal, &mut self.rows, space))
    }

    /// The lower end of the goal's enclosure over the declared box; none for minus infinity, and where the box is empty.
    pub(crate) fn root_bound(&mut self, alloc: Global) -> Result<Option<Dy>, AllocError>
        requires { IsReady self.old }
        ensures bound { IfOk result (λ low. IsRootBound
            (problem_of self.old.problem.now) self.old.goal (option_map dyadic_of low)) }
        ensures ready { IsReady self.new }
        ensures same { IsSameAim self.old self.new }
    {
        match root_space(alloc, self.problem)? {
            Root::Empty(_) => Ok(None),
            Root::Space(space) => Ok(lower_bound(enclosure(
                self.problem,
                self.goal,
                &mut self.rows,
                &space,
            ))),
        }
    }
}
