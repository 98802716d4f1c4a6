// Lists of atoms of a lemma's state.
ghost use Rattle.std.specs.Prelude.{◌≡◌, ◌<◌, ◌&&◌, length, IfOk, IsTrue};
ghost use Rattle.std.specs.List.{list_all};
ghost use Rattle.poly_graph.specs.Marks.{Mark as AtomMark, is_unmarked, mark_at, marks_of};
ghost use Rattle.poly_graph.specs.MarkViews.{mark_of};
ghost use Rattle.cert_model.specs.Due.{all_below, ascends, apart};
ghost use Rattle.cert_check.specs.Lists.{marked, IsMarked};

use poly_graph::{Lits, Mark};
use std::alloc::{AllocError, Global};

/// Whether each is below `count`.
#[tactic(auto, using(crate::proofs::ListTests::below_fails, crate::proofs::ListTests::below_next, crate::proofs::ListTests::below_done))]
pub fn all_below(count: usize, js: &[u32]) -> bool
    ensures { result ≡ all_below count js.now }
{
    for j in js {
        if *j as usize >= count {
            return false;
        }
    }
    true
}

/// Whether each is below the next one.
#[tactic(auto, using(crate::proofs::ListTests::ascends_fails, crate::proofs::ListTests::ascends_next, crate::proofs::ListTests::ascends_done))]
pub fn ascends(js: &[u32]) -> bool
    ensures { result ≡ ascends js.now }
{
    let mut k = 1;
    while k < js.len() {
        if js[k - 1] >= js[k] {
            return false;
        }
        k += 1;
    }
    true
}

/// Whether these are atoms in order, of so many.
pub fn is_list(count: usize, js: &[u32]) -> bool
    ensures { result ≡ (all_below count js.now && ascends js.now) }
{
    all_below(count, js) && ascends(js)
}

/// Gives each of the atoms the mark.
#[tactic(auto, using(crate::proofs::ListTests::below_at, crate::proofs::Marking::marked_next, crate::proofs::Marking::marked_done))]
pub fn mark_all(lits: &mut Lits, js: &[u32], mark: Mark)
    requires { IsTrue (all_below (length lits.old) js.now) }
    ensures { lits.new ≡ marked lits.old js.now (mark_of mark) }
{
    for j in js {
        lits.set(*j, mark);
    }
}

/// Whether none of the atoms has a mark.
#[tactic(auto, using(crate::proofs::ListTests::below_at, crate::proofs::ListTests::all_fails, crate::proofs::ListTests::all_next, crate::proofs::ListTests::all_done))]
pub fn all_unmarked(lits: &Lits, js: &[u32]) -> bool
    requires { IsTrue (all_below (length lits.now) js.now) }
    ensures { result ≡ list_all (λ j. is_unmarked (mark_at lits.now j)) js.now }
{
    for j in js {
        match lits.mark(*j) {
            Mark::Neither => {}
            Mark::Yes => return false,
            Mark::No => return false,
        }
    }
    true
}

/// The marks of so many atoms, of which these are marked yes and those no; none where an atom is in both lists.
#[tactic(auto, using(crate::proofs::Marking::marks_meet, crate::proofs::Marking::marks_part, crate::proofs::Marking::length_marked))]
pub fn marks(
    alloc: Global,
    count: usize,
    yes: &[u32],
    no: &[u32],
) -> Result<Option<Lits>, AllocError>
    requires yes { IsTrue (all_below count yes.now) }
    requires no { IsTrue (all_below count no.now) }
    ensures { IfOk result (λ o. IsMarked count yes.now no.now o) }
{
    let mut lits = Lits::new(alloc, count)?;
    mark_all(&mut lits, yes, Mark::Yes);
    if !all_unmarked(&lits, no) {
        return Ok(None);
    }
    mark_all(&mut lits, no, Mark::No);
    Ok(Some(lits))
}
