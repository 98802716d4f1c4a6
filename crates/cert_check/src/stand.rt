// Where the lines of a certificate stand, and what a whole one has of its lemmas.
ghost use Rattle.std.specs.Prelude.{◌≡◌, ℕ, MatchOption, Some, None};
ghost use Rattle.cert_model.specs.Accepted.{reached};
ghost use Rattle.poly_graph.specs.ProblemViews.{Parts};
ghost use Rattle.cert_check.specs.declared.part.Part.{Part};
ghost use Rattle.cert_check.specs.Courses.{cover_in, stand_due, stand_in};
ghost use Rattle.cert_check.specs.Dues.{due_of};
ghost use Rattle.cert_check.specs.Stands.{stand_of, whole_cover_of};
ghost use Rattle.cert_check.specs.Works.{work_of};

use crate::due::{Due, Value};
use crate::lemmas::Lemmas;
use crate::loosenings::Loosenings;
use crate::work::Work;
use ival::Space;
use poly_graph::Lits;

/// Where the next line of a main tree stands.
#[derive(Clone, Copy)]
pub enum Stand<'a> {
    /// No line of a main tree is due.
    Elsewhere,
    /// The first line, which stands at the root.
    Root,
    /// A later one, in the state with this box and these marks of the atoms.
    At(&'a Space, &'a Lits),
}

/// The header of a cover that is whole, and the states of its lemmas, by number.
#[derive(Clone, Copy)]
pub struct WholeCover<'a> {
    /// Its margin, its delta and its version.
    pub loosenings: &'a Loosenings,
    /// The states of its lemmas.
    pub lemmas: &'a Lemmas,
}

// Where the next line stands, where this is due.
fn stand_at(due: &Due) -> Stand<'_>
    ensures { (p : Parts) → stand_of result ≡ stand_due (due_of p due.now) }
{
    match due {
        Due::Root(_) => Stand::Root,
        Due::Tree(_, tree, _) => Stand::At(&tree.state.space, &tree.state.lits),
        _ => Stand::Elsewhere,
    }
}

/// Where the next line of the main tree in work stands.
pub fn stand_in_work(work: &Work) -> Stand<'_>
    ensures { (t : Part) (n : ℕ) →
        stand_of result ≡ stand_in (Some (reached (work_of t work.now) n)) }
{
    match work {
        Work::Alone(due) => stand_at(due),
        Work::Inside(due) => stand_at(due),
        _ => Stand::Elsewhere,
    }
}

/// The cover of a certificate of one check that is whole.
pub fn cover_in_work(work: &Work) -> Option<WholeCover<'_>>
    ensures { (t : Part) (n : ℕ) → let o = cover_in (Some (reached (work_of t work.now) n)) in
        MatchOption result (o ≡ None) (λ c. o ≡ Some (whole_cover_of c)) }
{
    match work {
        Work::Alone(Due::Nothing(loosenings, Value::Left(lemmas, _))) => {
            Some(WholeCover { loosenings, lemmas })
        }
        _ => None,
    }
}
