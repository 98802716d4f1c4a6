// In which assertion of a script an atom first stands: for people to read, and promised by no clause.
ghost use Rattle.std.specs.Prelude.{◌≤◌, ◌<◌, length};

use poly_graph::Problem;
use problem_build::read_session;
use problem_session::Session;
use script_fault::{Place, ReadError};
use smt_script::{Command, Step, commands};
use smt_sexp::read;
use std::alloc::{AllocError, Global};

// The places of the assertions that are in force, goals among them, in order, and how many there were as each open level
// was opened.
#[derive(Drop)]
struct InForce {
    places: Vec<Place>,
    levels: Vec<usize>,
}

impl InForce {
    fn take(&mut self, step: &Step<'_>) -> Result<(), AllocError> {
        match step {
            Step::Command(Command::Assert(place, _)) => self.places.push(*place)?,
            Step::Command(Command::Minimize(place, _)) => self.places.push(*place)?,
            Step::Command(_) | Step::Values(_, _) => {}
            Step::Push(_, count) => self.open(*count)?,
            Step::Pop(_, count) => self.close(*count),
            Step::Reset(_) => {
                self.places.truncate(0);
                self.levels.truncate(0);
            }
        }
        Ok(())
    }

    fn open(&mut self, count: usize) -> Result<(), AllocError> {
        for _level in 0..count {
            self.levels.push(self.places.len())?;
        }
        Ok(())
    }

    fn close(&mut self, count: usize) {
        for _level in 0..count {
            if let Some(length) = self.levels.pop() {
                self.places.truncate(length);
            }
        }
    }
}

// The places of the assertions in force at the check of this number, from 0 on, in order.
fn assertions(alloc: Global, script: &[u8], check: usize) -> Result<Vec<Place>, ReadError> {
    let sexps = read(alloc, script)?;
    let course = commands(alloc, &sexps)?;
    let mut force = InForce {
        places: Vec::new(alloc),
        levels: Vec::new(alloc),
    };
    let mut before = 0usize;
    for step in &course.steps {
        if let Step::Command(Command::Check(_)) = step {
            if before == check {
                break;
            }
            before = before.saturating_add(1);
        }
        force.take(step)?;
    }
    Ok(force.places)
}

// How many bytes stand before the place.
fn offset_of(script: &[u8], at: Place) -> usize
    ensures { result ≤ length script.now }
{
    let above = (at.line as usize).saturating_sub(1);
    let mut offset = (at.column as usize).saturating_sub(1);
    for line in script.split(|byte| *byte == b'\n').take(above) {
        offset = offset.saturating_add(line.len()).saturating_add(1);
    }
    offset.min(script.len())
}

// How many atoms are in force before the place; the bound is no matter.
fn atoms_before(alloc: Global, script: &[u8], at: Place) -> Result<usize, ReadError> {
    let mut text = Vec::from_slice(alloc, &script[..offset_of(script, at)])?;
    text.extend_from_slice(b"(check-sat)")?;
    let session = read_session(alloc, &text, Some(1))?;
    atoms_at_last(alloc, &session)
}

// The problem of the last check.
fn last_problem(alloc: Global, session: &Session) -> Result<Problem, ReadError>
    requires { 0 < length session.now }
{
    let mut problem = session.first(alloc)?;
    for k in 1..session.len() {
        problem = session.next(alloc, k - 1, &problem)?;
    }
    Ok(problem)
}

// How many atoms the problem of the last check has.
fn atoms_at_last(alloc: Global, session: &Session) -> Result<usize, ReadError> {
    if session.len() == 0 {
        return Ok(0);
    }
    Ok(last_problem(alloc, session)?.atoms().len())
}

// The last of the places before which the script has no more atoms than this one: by halving, since their number only grows.
fn last_before(
    alloc: Global,
    script: &[u8],
    places: &[Place],
    atom: usize,
) -> Result<Option<Place>, ReadError> {
    let mut rest = places;
    for _halving in 0..usize::BITS {
        if rest.len() <= 1 {
            break;
        }
        let (first, later) = rest.split_at(rest.len() / 2);
        rest = match later.first() {
            Some(at) if atoms_before(alloc, script, *at)? <= atom => later,
            _ => first,
        };
    }
    Ok(rest.first().copied())
}

// Whether a name is one of a constant that stands for a root or a quotient: it has a bar, as no name of a script.
fn stands_for_tree(name: &[u8]) -> bool {
    matches!(name, [b'|', ..])
}

// Whether constants stand for roots and quotients of the script: its atoms do not stand in its order then.
fn is_rewritten(alloc: Global, session: &Session) -> Result<bool, ReadError>
    requires { 0 < length session.now }
{
    let problem = last_problem(alloc, session)?;
    for axis in problem.axes() {
        if stands_for_tree(axis.name.as_slice()) {
            return Ok(true);
        }
    }
    Ok(false)
}

/// The assertion in which the atom of this number first stands, among those in force at the check of this number, from 0
/// on; none where the script cannot be read once more, or is read with roots.
pub fn assertion_with(alloc: Global, script: &[u8], check: usize, atom: usize) -> Option<Place> {
    let session = read_session(alloc, script, Some(1)).ok()?;
    if session.len() == 0 || is_rewritten(alloc, &session).ok()? {
        return None;
    }
    let places = assertions(alloc, script, check).ok()?;
    last_before(alloc, script, &places, atom).ok()?
}

// Whether the place is among these.
fn is_among(place: Place, places: &[Place]) -> bool {
    for it in places {
        if *it == place {
            return true;
        }
    }
    false
}

/// The goal that is in force at the first check; none where there is none, or the script cannot be read once more.
pub fn goal_in_force(alloc: Global, script: &[u8]) -> Option<Place> {
    let places = assertions(alloc, script, 0).ok()?;
    let sexps = read(alloc, script).ok()?;
    let course = commands(alloc, &sexps).ok()?;
    for step in &course.steps {
        if let Step::Command(Command::Minimize(place, _)) = step {
            if is_among(*place, &places) {
                return Some(*place);
            }
        }
    }
    None
}
