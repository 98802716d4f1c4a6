// Whether marks are among others.
ghost use Rattle.std.specs.Prelude.{◌≡◌, length, map};
ghost use Rattle.poly_graph.specs.MarkViews.{mark_of};
ghost use Rattle.poly_graph.specs.Marks.{mark_within, marks_within};

use poly_graph::Mark;

// Whether a mark says no more than another.
fn is_within(mark: Mark, other: Mark) -> bool
    ensures { result ≡ mark_within (mark_of mark) (mark_of other) }
{
    match (mark, other) {
        (Mark::Neither, _) => true,
        (Mark::Yes, Mark::Yes) => true,
        (Mark::Yes, Mark::No) => false,
        (Mark::Yes, Mark::Neither) => false,
        (Mark::No, Mark::No) => true,
        (Mark::No, Mark::Yes) => false,
        (Mark::No, Mark::Neither) => false,
    }
}

/// Whether each of these marks is one of the others, of which there are as many.
pub fn has_marks(marks: &[Mark], others: &[Mark]) -> bool
    requires { length marks.now ≡ length others.now }
    ensures { result ≡ marks_within (map mark_of marks.now) (map mark_of others.now) }
{
    for j in 0..marks.len() {
        if !is_within(marks[j], others[j]) {
            return false;
        }
    }
    true
}
