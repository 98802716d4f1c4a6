// Combinations of marked atoms by the search's sweep and by the checker's, which are to leave the same.
ghost use Rattle.std.specs.Prelude.{◌≡◌, ◌<◌, length, All, IfSome, IsTrue};
ghost use Rattle.interval_model.specs.Space.{middle};
ghost use Rattle.ival.specs.SpaceViews.{space_of};
ghost use Rattle.combine.specs.Combined.{EncloseOver};

use crate::cases::{EVEN, GREAT, LINES, PARABOLA};
use crate::made::problem;
use crate::patches::{line_of, state_of};
use crate::points::is_space;
use cert_read::Line;
use combine::{Combination, combine};
use cover_line::{Narrowing, Rule};
use cover_rule::State;
use dyadic::Dy;
use hc4::fill;
use ival::{Narrowed, Rows, Space};
use plain_eval::combine_plain;
use poly_graph::Problem;
use std::alloc::Global;

// Whether the pairs name atoms of the problem.
fn are_atoms(problem: &Problem, pairs: &[(u32, Dy)]) -> bool
    ensures { IsTrue result → All (λ x. x.0 < length problem.now.atoms) pairs.now }
{
    for i in 0..pairs.len() {
        if pairs[i].0 as usize >= problem.atoms().len() {
            return false;
        }
    }
    true
}

// The enclosures over a space, its middle, and the enclosures over that.
#[derive(Drop)]
struct Expansion {
    rows: Rows,
    centre: Space,
    at_centre: Rows,
}

// The enclosures of the problem's terms over the space.
fn rows_over(alloc: Global, problem: &Problem, space: &Space) -> Option<Rows>
    ensures { IfSome result (EncloseOver problem.now space.now) }
{
    let graph = problem.graph();
    let mut rows = Rows::new(alloc, graph.len()).ok()?;
    fill(graph, space, &mut rows);
    Some(rows)
}

// The middle of the space.
fn middle_of(alloc: Global, space: &Space) -> Option<Space>
    ensures { IfSome result (λ c. space_of c ≡ middle (space_of space.now)) }
{
    let mut centre = space.try_clone(alloc).ok()?;
    space.middle(&mut centre);
    Some(centre)
}

fn expand(alloc: Global, problem: &Problem, space: &Space) -> Option<Expansion>
    ensures rows { IfSome result (λ e. EncloseOver problem.now space.now e.rows) }
    ensures centre { IfSome result (λ e. space_of e.centre ≡ middle (space_of space.now)) }
    ensures at_centre { IfSome result (λ e. EncloseOver problem.now e.centre e.at_centre) }
{
    let centre = middle_of(alloc, space)?;
    let at_centre = rows_over(alloc, problem, &centre)?;
    let rows = rows_over(alloc, problem, space)?;
    Some(Expansion {
        rows,
        centre,
        at_centre,
    })
}

// What the search's sweep leaves of the space.
fn by_search(
    alloc: Global,
    problem: &Problem,
    state: &State,
    pairs: &[(u32, Dy)],
) -> Option<(Narrowed, Space)>
    requires marks { length state.now.marks ≡ length problem.now.atoms }
    requires pairs { All (λ x. x.0 < length problem.now.atoms) pairs.now }
{
    let mut space = state.space().try_clone(alloc).ok()?;
    let at = expand(alloc, problem, &space)?;
    let mut room = combine::Room::new(alloc, problem).ok()?;
    let combination = Combination {
        problem,
        loosen: 20,
        lits: state.lits(),
        multipliers: pairs,
    };
    let answer = combine(
        &combination,
        &at.rows,
        &at.centre,
        &at.at_centre,
        &mut room,
        &mut space,
    );
    Some((answer, space))
}

// What the checker's own passes leave of it.
fn by_checker(
    alloc: Global,
    problem: &Problem,
    state: &State,
    pairs: &[(u32, Dy)],
) -> Option<(Narrowed, Space)>
    requires marks { length state.now.marks ≡ length problem.now.atoms }
    requires pairs { All (λ x. x.0 < length problem.now.atoms) pairs.now }
{
    let mut space = state.space().try_clone(alloc).ok()?;
    let at = expand(alloc, problem, &space)?;
    let mut room = plain_eval::Room::new(alloc, problem.graph()).ok()?;
    let answer = combine_plain(
        problem,
        20,
        state.lits(),
        pairs,
        &at.rows,
        &at.centre,
        &at.at_centre,
        &mut room,
        &mut space,
    );
    Some((answer, space))
}

// Whether a way answers so, and leaves this space.
fn leaves(alloc: Global, told: Option<(Narrowed, Space)>, row: &Row) -> bool {
    match told {
        Some((said, space)) => said == row.answer && is_space(alloc, &space, row.left),
        None => false,
    }
}

// Whether both ways answer as the row says, and leave what it says of the state's space.
fn both_leave(
    alloc: Global,
    problem: &Problem,
    state: &State,
    pairs: &[(u32, Dy)],
    row: &Row,
) -> bool {
    if state.lits().len() != problem.atoms().len() || !are_atoms(problem, pairs) {
        return false;
    }
    leaves(alloc, by_search(alloc, problem, state, pairs), row)
        && leaves(alloc, by_checker(alloc, problem, state, pairs), row)
}

// The same in the row's state of the problem, by the combination that its line says.
fn are_left_in(alloc: Global, problem: &Problem, row: &Row) -> bool {
    match (
        state_of(alloc, problem.atoms().len(), row.state),
        line_of(alloc, row.line),
    ) {
        (Some(state), Some(Line::Rule(Rule::Narrow(Narrowing::Combine(pairs))))) => {
            both_leave(alloc, problem, &state, &pairs, row)
        }
        _ => false,
    }
}

fn are_left(alloc: Global, row: &Row) -> bool {
    match problem(alloc, row.script) {
        Some(problem) => are_left_in(alloc, &problem, row),
        None => false,
    }
}

// A script, the state of its problem that lines say, a combination, and what both ways answer and leave of the space.
struct Row {
    script: &'static str,
    state: &'static [&'static str],
    line: &'static str,
    answer: Narrowed,
    left: &'static [&'static str],
}

const ROWS: [Row; 6] = [
    Row {
        script: LINES,
        state: &["real 0 1b2", "real 0 1b2", "yes 4 5 6"],
        line: "comb 4 1b0 5 1b0",
        answer: Narrowed::Less,
        left: &["real 2097151b-20 1b2", "real 0 1b2"],
    },
    Row {
        script: LINES,
        state: &["real 0 1b2", "real 0 1b2", "yes 4 5 6"],
        line: "comb 4 1b0 5 1b0 6 -1b1",
        answer: Narrowed::Empty,
        left: &["real 0 1b2", "real 0 1b2"],
    },
    Row {
        script: LINES,
        state: &["real 0 1b2", "real 0 1b2", "yes 5", "no 4"],
        line: "comb 4 1b0 5 -1b0",
        answer: Narrowed::Less,
        left: &["real 0 1b2", "real 0 1b0"],
    },
    Row {
        script: PARABOLA,
        state: &["real 0 1b0", "yes 2"],
        line: "comb 2 1b0",
        answer: Narrowed::Empty,
        left: &["real 0 1b0"],
    },
    Row {
        script: EVEN,
        state: &["real 0 1b0", "real 0 1b0", "yes 4 5"],
        line: "comb 4 1b0 5 -1b0",
        answer: Narrowed::Less,
        left: &["real 0 1b0", "real 524287b-20 524289b-20"],
    },
    Row {
        script: GREAT,
        state: &["real 0 1b32", "yes 2"],
        line: "comb 2 -1b0",
        answer: Narrowed::Same,
        left: &["real 0 1b32"],
    },
];

#[test]
fn both_ways_leave_the_same(rt: HostRuntime) {
    for row in &ROWS {
        assert!(rt; are_left(rt.alloc(), row), "{}", row.line);
    }
}
