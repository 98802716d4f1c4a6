// Whether lemmas cover marks.
ghost use Rattle.std.specs.Prelude.{◌≡◌, ◌≤◌, length, IsTrue};
ghost use Rattle.std.specs.List.{list_all};
ghost use Rattle.poly_graph.specs.Marks.{is_no, is_yes, mark_at, marks_of, marks_within};
ghost use Rattle.cert_model.specs.Due.{all_below};

use crate::standing::Lemma;
use poly_graph::{Lits, Mark};

// Whether each of the atoms is marked yes.
#[tactic(auto, using(crate::proofs::ListTests::below_at, crate::proofs::ListTests::all_fails, crate::proofs::ListTests::all_next, crate::proofs::ListTests::all_done))]
fn all_yes(lits: &Lits, js: &[u32]) -> bool
    requires { IsTrue (all_below (length lits.now) js.now) }
    ensures { result ≡ list_all (λ j. is_yes (mark_at lits.now j)) js.now }
{
    for j in js {
        match lits.mark(*j) {
            Mark::Yes => {}
            Mark::No => return false,
            Mark::Neither => return false,
        }
    }
    true
}

// Whether each of the atoms is marked no.
#[tactic(auto, using(crate::proofs::ListTests::below_at, crate::proofs::ListTests::all_fails, crate::proofs::ListTests::all_next, crate::proofs::ListTests::all_done))]
fn all_no(lits: &Lits, js: &[u32]) -> bool
    requires { IsTrue (all_below (length lits.now) js.now) }
    ensures { result ≡ list_all (λ j. is_no (mark_at lits.now j)) js.now }
{
    for j in js {
        match lits.mark(*j) {
            Mark::No => {}
            Mark::Yes => return false,
            Mark::Neither => return false,
        }
    }
    true
}

/// Whether each atom that the lemma marks has the same mark here.
#[tactic(auto, using(crate::proofs::Carried::below_more))]
pub fn marks_cover(lemma: &Lemma, lits: &Lits) -> bool
    requires { lemma.now.atoms ≤ length lits.now }
    ensures { result ≡ marks_within
        (marks_of (length lits.now) lemma.now.yes.items lemma.now.no.items) lits.now }
{
    all_yes(lits, &lemma.yes) && all_no(lits, &lemma.no)
}
