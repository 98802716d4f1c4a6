// Atoms that stand in each child that may hold of a needed disjunction: the form cannot hold without them, whichever child
// holds. Clauses alone do not show it. A heuristic that promises nothing: the patch tests each mark.
use crate::guide::Guide;
use crate::needs::is_set;
use poly_graph::{FormNode, Problem};
use std::alloc::{AllocError, Global};

/// The disjunctions that may have such atoms, and the atoms that were found at the last look.
#[derive(Drop)]
pub struct Common {
    disjunctions: Vec<u32, Global>,
    found: Vec<bool, Global>,
    // for each atom the last list that had it
    lists: Vec<u64, Global>,
    list: u64,
}

// Whether the node is a conjunction.
fn is_conjunction(problem: &Problem, n: u32) -> bool {
    let forms = problem.forms();
    (n as usize) < forms.len() && matches!(forms.node(n), FormNode::And(_))
}

// How many of these nodes are conjunctions, none counted past two.
fn conjunctions_up_to_two(problem: &Problem, numbers: &[u32]) -> u32 {
    let mut count = 0;
    for n in numbers {
        if count < 2 && is_conjunction(problem, *n) {
            count += 1;
        }
    }
    count
}

// The atoms that a node reaches through conjunctions alone.
fn conjuncts(alloc: Global, problem: &Problem, n: u32) -> Result<Vec<u32, Global>, AllocError> {
    let forms = problem.forms();
    let mut atoms = Vec::new(alloc);
    let mut waiting = Vec::new(alloc);
    waiting.push(n)?;
    for _ in 0..forms.len() {
        let Some(n) = waiting.pop() else {
            break;
        };
        if (n as usize) < forms.len() {
            match forms.node(n) {
                FormNode::AtomIs(j) => atoms.push(*j)?,
                FormNode::And(children) => {
                    for child in children {
                        waiting.push(*child)?;
                    }
                }
                _ => {}
            }
        }
    }
    Ok(atoms)
}

// Notes that a disjunction has the atom; whether that was noted already.
fn note(last: &mut [Option<u32>], j: u32, n: u32) -> bool {
    let j = j as usize;
    if j >= last.len() {
        return false;
    }
    let is_noted = last[j] == Some(n);
    last[j] = Some(n);
    is_noted
}

// Whether an atom stands in two of the children of disjunction n. `last` has for each atom the last disjunction that has it.
fn share_an_atom(
    alloc: Global,
    problem: &Problem,
    n: u32,
    children: &[u32],
    last: &mut [Option<u32>],
) -> Result<bool, AllocError> {
    for child in children {
        let atoms = conjuncts(alloc, problem, *child)?;
        for j in &atoms {
            if note(last, *j, n) {
                return Ok(true);
            }
        }
    }
    Ok(false)
}

// The disjunctions of two conjunctions or more in which two children have an atom in common.
fn disjunctions(alloc: Global, problem: &Problem) -> Result<Vec<u32, Global>, AllocError> {
    let forms = problem.forms();
    let mut last = vec![in alloc; None; problem.atoms().len()]?;
    let mut numbers = Vec::new(alloc);
    for n in 0..forms.len() {
        if let FormNode::Or(children) = forms.node(n as u32) {
            if conjunctions_up_to_two(problem, children) == 2
                && share_an_atom(alloc, problem, n as u32, children, &mut last)?
            {
                numbers.push(n as u32)?;
            }
        }
    }
    Ok(numbers)
}

impl Common {
    /// Nothing is found yet.
    pub fn of(alloc: Global, problem: &Problem) -> Result<Common, AllocError> {
        Ok(Common {
            disjunctions: disjunctions(alloc, problem)?,
            found: vec![in alloc; false; problem.atoms().len()]?,
            lists: vec![in alloc; 0; problem.atoms().len()]?,
            list: 0,
        })
    }

    /// Whether atom j was found at the last look.
    pub fn has(&self, j: u32) -> bool {
        is_set(&self.found, j as usize)
    }

    // Those of the first atoms that are among the second ones too.
    fn both(
        &mut self,
        alloc: Global,
        first: &[u32],
        second: &[u32],
    ) -> Result<Vec<u32, Global>, AllocError> {
        self.list = self.list.wrapping_add(1);
        for j in second {
            let j = *j as usize;
            if j < self.lists.len() {
                self.lists[j] = self.list;
            }
        }
        let mut both = Vec::new(alloc);
        for j in first {
            let at = *j as usize;
            if at < self.lists.len() && self.lists[at] == self.list {
                both.push(*j)?;
            }
        }
        Ok(both)
    }

    // The atoms that stand in each of these nodes that may hold.
    fn in_each(
        &mut self,
        alloc: Global,
        problem: &Problem,
        guide: &Guide,
        children: &[u32],
    ) -> Result<Vec<u32, Global>, AllocError> {
        let forms = problem.forms();
        let mut common: Option<Vec<u32, Global>> = None;
        for child in children {
            if (*child as usize) < forms.len() && guide.may(problem, *child) {
                let atoms = conjuncts(alloc, problem, *child)?;
                common = Some(match common {
                    None => atoms,
                    Some(others) => self.both(alloc, &others, &atoms)?,
                });
            }
        }
        match common {
            Some(atoms) => Ok(atoms),
            None => Ok(Vec::new(alloc)),
        }
    }

    // Notes the atoms of the disjunction in this place, where it is needed.
    fn note(
        &mut self,
        alloc: Global,
        problem: &Problem,
        guide: &Guide,
        place: usize,
    ) -> Result<(), AllocError> {
        if place >= self.disjunctions.len() {
            return Ok(());
        }
        let n = self.disjunctions[place];
        let forms = problem.forms();
        if n as usize >= forms.len() || !guide.needs(problem, n) {
            return Ok(());
        }
        let FormNode::Or(children) = forms.node(n) else {
            return Ok(());
        };
        let atoms = self.in_each(alloc, problem, guide, children)?;
        for j in &atoms {
            let j = *j as usize;
            if j < self.found.len() {
                self.found[j] = true;
            }
        }
        Ok(())
    }

    /// Finds the atoms of what the guide says is needed, and of what it says may hold.
    pub fn look(
        &mut self,
        alloc: Global,
        problem: &Problem,
        guide: &Guide,
    ) -> Result<(), AllocError> {
        for is_found in self.found.iter_mut() {
            *is_found = false;
        }
        for place in 0..self.disjunctions.len() {
            self.note(alloc, problem, guide, place)?;
        }
        Ok(())
    }
}
