// The picture of a certificate: the checker goes through its lines, and each box is drawn where a branch of the main tree
// ends in it.

use crate::fate::fate_by;
use crate::fault::Fault;
use crate::frame::{Axes, Frame, frame_of};
use crate::picture::Picture;
use cert_check::Checker;
use cert_read::{Line, LineFault, LineReader};
use form_truth::{Root, root_space};
use ival::Space;
use poly_graph::Problem;
use problem_build::read_problem;
use std::alloc::{AllocError, Global};

// The lines of a certificate.
fn lines_of(alloc: Global, cert: &[u8]) -> Result<LineReader, Fault> {
    let mut lines = LineReader::new(alloc);
    lines.feed(cert)?;
    lines.end();
    Ok(lines)
}

// The bound that the fourth line names, without which the script has no problem. Whether the lines before it fit is for
// the checker to say; where the fourth is no such line, it refuses that.
fn bound_in(alloc: Global, cert: &[u8]) -> Result<Option<u32>, Fault> {
    let mut lines = lines_of(alloc, cert)?;
    for _ in 0..4 {
        match lines.next_line() {
            Ok(Some(Line::Bound(bound))) => return Ok(bound),
            Ok(Some(_)) => {}
            Ok(None) => return Ok(None),
            Err(LineFault::Memory) => return Err(Fault::Memory),
            Err(_) => return Ok(None),
        }
    }
    Ok(None)
}

// Draws the box of each branch that ends, up to the last of the lines, which are at most so many.
fn draw_boxes(
    frame: &Frame<'_>,
    root: &Space,
    lines: &mut LineReader,
    checker: &mut Checker,
    picture: &mut Picture,
    most: usize,
) -> Result<(), Fault> {
    let mut at_root = false;
    for _ in 0..most {
        let line = match lines.next_line() {
            Ok(Some(line)) => line,
            Ok(None) => return Ok(()),
            Err(fault) => return Err(Fault::Unconfirmed(checker.refuse(fault))),
        };
        if let Some(fate) = fate_by(&line) {
            if at_root {
                picture.add_box(frame, root, fate)?;
            } else if let Some(space) = checker.box_at() {
                picture.add_box(frame, space, fate)?;
            }
        }
        at_root = line == Line::Tree;
        checker.line(&line)?;
    }
    Ok(())
}

// Draws the point, if the certificate has one.
fn draw_point(
    frame: &Frame<'_>,
    checker: &Checker,
    picture: &mut Picture,
) -> Result<(), AllocError> {
    match checker.point() {
        Some(point) => picture.add_point(frame, point),
        None => Ok(()),
    }
}

// Draws what the certificate describes, which has to be accepted.
fn draw_lines(
    cert: &[u8],
    frame: &Frame<'_>,
    root: &Space,
    lines: &mut LineReader,
    checker: &mut Checker,
    picture: &mut Picture,
) -> Result<(), Fault> {
    // A line has a byte at least, its line feed, but for the last one.
    let most = cert.len().saturating_add(2);
    draw_boxes(frame, root, lines, checker, picture, most)?;
    checker.finish()?;
    draw_point(frame, checker, picture)?;
    Ok(())
}

// The picture of what the certificate describes of the problem, whose cover begins with this space.
fn picture_of(
    alloc: Global,
    problem: &Problem,
    bound: Option<u32>,
    root: &Space,
    cert: &[u8],
    frame: &Frame<'_>,
) -> Result<Picture, Fault> {
    let mut picture = Picture::new(alloc, frame)?;
    let mut checker = Checker::new(alloc, problem, bound)?;
    let mut lines = lines_of(alloc, cert)?;
    draw_lines(cert, frame, root, &mut lines, &mut checker, &mut picture)?;
    Ok(picture)
}

/// The picture of what the certificate describes of the script, projected to these axes. The certificate is checked: one
/// that is not accepted has no picture.
pub fn draw(alloc: Global, script: &[u8], cert: &[u8], axes: Axes<'_>) -> Result<String, Fault> {
    let bound = bound_in(alloc, cert)?;
    let problem = read_problem(alloc, script, bound)?;
    let root = match root_space(alloc, &problem)? {
        Root::Space(root) => root,
        Root::Empty(_) => return Err(Fault::EmptyBox),
    };
    let frame = frame_of(alloc, &problem, &root, axes)?;
    let picture = picture_of(alloc, &problem, bound, &root, cert, &frame)?;
    Ok(picture.finish()?)
}
