// What a goal is judged with.
ghost use Rattle.std.specs.Prelude.{◌≡◌, ◌<◌, ℕ, length, IfOk, option_map};
ghost use Rattle.dyadic.specs.Views.{dyadic_of, ext_of};
ghost use Rattle.interval_model.specs.Interval.{within};
ghost use Rattle.poly_graph.specs.Problem.{atom_at};
ghost use Rattle.poly_graph.specs.ProblemViews.{problem_of};
ghost use Rattle.ival.specs.Views.{interval_of};
ghost use Rattle.ival.specs.RowViews.{rows_of};
ghost use Rattle.ival.specs.SpaceViews.{space_of};
ghost use Rattle.form_truth.specs.Roots.{IsRoot};
ghost use Rattle.cert_model.specs.Least.{lower_end, not_below, upper_end};
ghost use Rattle.cert_check.specs.Courses.{at_root};
ghost use Rattle.cert_check.specs.Stands.{stand_of};
ghost use Rattle.cert_least.specs.Checked.{aim_at};
ghost use Rattle.cert_least.specs.Judging.{aim_of, IsEnclosure, IsEnclosureAt, IsReady, IsSameAim};

use cert_check::Stand;
use dyadic::{Dy, Ext, at_most};
use form_truth::{Root, root_space};
use ival::{Ival, Rows, Space};
use plain_eval::enclose;
use poly_graph::Problem;
use std::alloc::{AllocError, Global};

/// The problem of the check, the atom whose term is the goal, the bound of the words, and what the goal is judged with:
/// the box of the root, and rows for the problem's nodes.
#[derive(Drop)]
pub struct Aim {
    pub alloc: Global,
    pub problem: Problem,
    pub goal: u32,
    pub bound: Option<u32>,
    pub root: Root,
    pub rows: Rows,
}

// The bound as an end.
fn lower_end(lower: Option<Dy>) -> Ext
    ensures { ext_of result ≡ lower_end (option_map dyadic_of lower) }
{
    match lower {
        None => Ext::NegInf,
        Some(lower) => Ext::Fin(lower),
    }
}

/// Whether values are not below the bound.
#[tactic(auto, using(crate::proofs::Enclosing::not_below_low))]
pub fn is_over(lower: Option<Dy>, values: Ival) -> bool
    ensures { result ≡ within (interval_of values) (not_below (option_map dyadic_of lower)) }
{
    match values {
        Ival::Empty => true,
        Ival::Between(ends) => at_most(lower_end(lower), ends.low),
    }
}

/// The upper end of some values.
pub fn upper_end(values: Ival) -> Ext
    ensures { ext_of result ≡ upper_end (interval_of values) }
{
    match values {
        Ival::Empty => Ext::NegInf,
        Ival::Between(ends) => ends.high,
    }
}

// The node of the atom's term.
fn term_of(problem: &Problem, atom: u32) -> u32
    requires { atom < length problem.now.atoms }
    ensures term { result ≡ (atom_at (problem_of problem.now) atom).0 }
    ensures place { result < length problem.now.nodes }
{
    let atoms = problem.atoms();
    atoms[atom as usize].term
}

// The enclosure of the atom's term over the space, also where the problem has a limit of it.
fn enclosure(problem: &Problem, atom: u32, rows: &mut Rows, space: &Space) -> Ival
    requires atom { atom < length problem.now.atoms }
    requires rows { length (rows_of rows.old) ≡ length problem.now.nodes }
    ensures interval { IsEnclosure problem.now atom (space_of space.now) (interval_of result) }
    ensures rows { length (rows_of rows.new) ≡ length problem.now.nodes }
{
    enclose(problem.graph(), term_of(problem, atom), space, rows)
}

impl Aim {
    pub fn new(
        alloc: Global,
        problem: &Problem,
        goal: u32,
        bound: Option<u32>,
    ) -> Result<Aim, AllocError>
        requires { goal < length problem.now.atoms }
        ensures ready { IfOk result IsReady }
        ensures aim { IfOk result (λ a. aim_of a ≡ aim_at problem.now goal bound) }
    {
        let root = root_space(alloc, problem)?;
        let rows = Rows::new(alloc, problem.graph().len())?;
        Ok(Aim {
            alloc,
            problem: problem.try_clone(alloc)?,
            goal,
            bound,
            root,
            rows,
        })
    }

    /// The goal's enclosure over the space, also in the problem with a limit of the goal.
    pub fn enclosure(&mut self, space: &Space) -> Ival
        requires { IsReady self.old }
        ensures interval { IsEnclosure self.old.problem self.old.goal (space_of space.now)
            (interval_of result) }
        ensures ready { IsReady self.new }
        ensures same { IsSameAim self.old self.new }
    {
        enclosure(&self.problem, self.goal, &mut self.rows, space)
    }

    // The same over the box of the root; none where the bounds of an axis cross.
    fn root_enclosure(&mut self) -> Option<Ival>
        requires { IsReady self.old }
        ensures interval { IsEnclosureAt self.old at_root result }
        ensures ready { IsReady self.new }
        ensures same { IsSameAim self.old self.new }
    {
        match &self.root {
            Root::Empty(_) => None,
            Root::Space(space) => Some(enclosure(&self.problem, self.goal, &mut self.rows, space)),
        }
    }

    /// The same over the box where a line of the main tree is due; none where no such line is.
    pub fn enclosure_at(&mut self, stand: Stand<'_>) -> Option<Ival>
        requires { IsReady self.old }
        ensures interval { IsEnclosureAt self.old (stand_of stand.entry) result }
        ensures ready { IsReady self.new }
        ensures same { IsSameAim self.old self.new }
    {
        match stand {
            Stand::Elsewhere => None,
            Stand::Root => self.root_enclosure(),
            Stand::At(space, _) => Some(self.enclosure(space)),
        }
    }
}
