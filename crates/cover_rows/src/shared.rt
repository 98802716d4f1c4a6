// What a search makes may be shared by threads.
use cover_book::Book;
use cover_rule::{ClosedPatch, KeptPatch, Lemma, Options, Patch, Point, State};
use poly_graph::Problem;

// Threads may share values of this type.
fn is_shared<T: Send + Sync>() {}

#[test]
fn threads_may_share_what_a_search_makes() {
    is_shared::<Problem>();
    is_shared::<Options>();
    is_shared::<State>();
    is_shared::<Patch<'static>>();
    is_shared::<KeptPatch>();
    is_shared::<ClosedPatch>();
    is_shared::<Lemma>();
    is_shared::<Point>();
    is_shared::<Book>();
}
