// The walk over a script's assertions, over the places of their expressions.
use crate::frames::{Frame, Head, head_of};
use script_fault::{Place, ReadError};
use smt_script::{Command, Sort, Step, commands};
use smt_sexp::{Leaf, Seen, Sexps, read};
use std::alloc::{AllocError, Global};
use std::collections::HashMap;

/// At most so many places are answered.
const MOST: usize = 8;

// The first root in the body of a definition, and the first under a condition there.
#[derive(Clone, Copy, Debug)]
struct Body {
    is_bool: bool,
    root: Option<Place>,
    conditional: Option<Place>,
}

// The definitions in which roots stand, by their names.
type Bodies<'a> = HashMap<&'a [u8], Body>;

// What is found in an expression: the first root, and those under conditions.
#[derive(Drop)]
struct Found {
    root: Option<Place>,
    conditional: Vec<Place>,
}

impl Found {
    fn new(alloc: Global) -> Found {
        Found {
            root: None,
            conditional: Vec::new(alloc),
        }
    }

    // Takes note of a root that stands under a condition.
    fn note(&mut self, at: Place) -> Result<(), AllocError> {
        for it in &self.conditional {
            if *it == at {
                return Ok(());
            }
        }
        if self.conditional.len() < MOST {
            self.conditional.push(at)?;
        }
        Ok(())
    }

    // Takes note of a root.
    fn root(&mut self, at: Place, is_conditional: bool) -> Result<(), AllocError> {
        if self.root.is_none() {
            self.root = Some(at);
        }
        if is_conditional {
            self.note(at)?;
        }
        Ok(())
    }

    // Takes note of the roots in the body of a definition that is named where this frame is.
    fn body(&mut self, body: Body, frame: Frame) -> Result<(), AllocError> {
        let is_conditional = if body.is_bool {
            frame.is_condition_of_bool()
        } else {
            frame.is_conditional
        };
        if let Some(at) = body.root {
            self.root(at, is_conditional)?;
        }
        if let Some(at) = body.conditional {
            self.note(at)?;
        }
        Ok(())
    }

    // Takes note of what a name at a place means, within this frame.
    fn named(
        &mut self,
        bodies: &Bodies<'_>,
        at: Place,
        name: &[u8],
        frame: Frame,
    ) -> Result<(), AllocError> {
        if name == b"sqrt".as_slice() {
            return self.root(at, frame.is_conditional);
        }
        match bodies.get(name) {
            Some(body) => self.body(*body, frame),
            None => Ok(()),
        }
    }
}

// What is found in the expression at a place. Its places stand in a row up to its end.
fn found_in(
    alloc: Global,
    sexps: &Sexps,
    bodies: &Bodies<'_>,
    from: usize,
) -> Result<Found, AllocError> {
    let mut found = Found::new(alloc);
    let mut frames = Vec::new(alloc);
    let mut frame = Frame::top();
    for at in from..sexps.len() {
        match sexps.look(at) {
            Seen::Leaf(place, Leaf::Symbol(name), _) => {
                if name.as_slice() != b"sqrt".as_slice() {
                    found.named(bodies, place, name.as_slice(), frame)?;
                }
            }
            Seen::Leaf(_, _, _) => {}
            Seen::Group(place, first, _) => {
                let head = head_of(sexps, first);
                if let Head::Symbol(name) = head {
                    found.named(bodies, place, name, frame)?;
                }
                frames.push(frame)?;
                frame = frame.within(head);
            }
            Seen::End => match frames.pop() {
                Some(outer) => frame = outer,
                None => break,
            },
        }
        if frames.is_empty() {
            break;
        }
    }
    Ok(found)
}

// Whether a command gives `sqrt` another meaning.
fn names_sqrt(command: &Command<'_>) -> bool {
    match command {
        Command::Declare(_, name, _) | Command::Define(_, name, _, _, _) => {
            name.as_slice() == b"sqrt".as_slice()
        }
        _ => false,
    }
}

// Whether a text holds the name of a square root at all.
fn names_root(script: &[u8]) -> bool {
    script.windows(4).any(|it| it == b"sqrt".as_slice())
}

/// The places of square roots of a script that stand under conditions, the first eight: of those in its assertions, and in
/// the bodies of definitions that are named there.
///
/// # Errors
///
/// The first fault of the script's text or of its commands; want of memory.
pub fn conditional_roots(alloc: Global, script: &[u8]) -> Result<Vec<Place>, ReadError> {
    if !names_root(script) {
        return Ok(Vec::new(alloc));
    }
    let sexps = read(alloc, script)?;
    let course = commands(alloc, &sexps)?;
    let mut bodies = HashMap::new(alloc);
    let mut all = Found::new(alloc);
    for step in &course.steps {
        let Step::Command(command) = step else {
            continue;
        };
        if names_sqrt(command) {
            return Ok(Vec::new(alloc));
        }
        match command {
            Command::Define(_, name, _, sort, body) => {
                let found = found_in(alloc, &sexps, &bodies, *body)?;
                let body = Body {
                    is_bool: matches!(sort, Sort::Bool),
                    root: found.root,
                    conditional: found.conditional.first().copied(),
                };
                bodies.insert(name.as_slice(), body)?;
            }
            Command::Assert(_, term) => {
                let found = found_in(alloc, &sexps, &bodies, *term)?;
                for at in &found.conditional {
                    all.note(*at)?;
                }
            }
            _ => {}
        }
    }
    Ok(all.conditional)
}
