// What is asked of problems, and what a certificate says of them.
ghost use Rattle.std.specs.Prelude.{◌≡◌, [], IfOk, IfSome};
ghost use Rattle.sample_problems.specs.Small.{IsSmall};

use cert_check::{CertFault, Feed, Verdict};
use cover_data::Options;
use poly_graph::{FormNode, FormTable, Graph, NoNode, Problem};
use std::alloc::Global;

/// What a search is asked for where nothing else is said.
pub const USUAL: Options = Options {
    delta_bits: 10,
    margin_bits: 20,
    least_bits: 20,
    version: 2,
    budget: 65_536,
    workers: 1,
    bound: None,
};

/// A problem without axes and atoms, whose form is true.
///
/// # Errors
///
/// Memory ran out.
#[tactic(auto, using(poly_graph::proofs::Smallest::smallest))]
pub fn smallest(alloc: Global) -> Result<Problem, NoNode>
    ensures axes { IfOk result (λ p. p.axes ≡ []) }
    ensures nodes { IfOk result (λ p. p.nodes ≡ []) }
    ensures atoms { IfOk result (λ p. p.atoms ≡ []) }
{
    let mut forms = FormTable::new(alloc);
    let root = forms.intern(FormNode::True)?;
    Ok(Problem::new(
        Vec::new(alloc),
        Graph::new(alloc),
        Vec::new(alloc),
        forms.into_graph(),
        root,
    ))
}

/// The problem, if there may be a book of it.
pub fn small(problem: Problem) -> Option<Problem>
    ensures { IfSome result (λ p. IsSmall p) }
{
    if problem.axes().len() > 1_024 || problem.atoms().len() > 65_536 {
        return None;
    }
    Some(problem)
}

/// The verdict of a certificate for the problem.
pub fn verdict(alloc: Global, problem: &Problem, text: &[u8]) -> Result<Verdict, CertFault> {
    let mut feed = Feed::new(alloc, problem, None)?;
    taken_whole(&mut feed, text)
}

// The verdict of a whole text. Apart from the owner of the feed, which then drops it at one exit alone.
fn taken_whole(feed: &mut Feed, text: &[u8]) -> Result<Verdict, CertFault> {
    feed.piece(text)?;
    feed.end()
}
