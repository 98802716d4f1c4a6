//! What it is to join the trees of several certificates, and what a joined tree keeps of them.
//!
//! Each certificate has a tree at a place: its own at the root, and below a line that all of them share theirs below it.
//! Where a tree is one line that leaves the state open or stuck, the others are taken; where those differ, one of them
//! is. No code runs here: each function is a law about the definitions in `specs/`, and its contract is the law.
#![tactic(auto)]

ghost use Rattle.cert_joined.specs.Laws.{AcceptedHasHeader, AcceptedIsText, ClosedStaysClosed, JoinsLawful, JoinsRefines, KeepsEach, LawfulIsShaped};

/// What joins trees that are lawful at a state, each in its version of the format, is lawful there in each later one.
pub fn joins_lawful()
    ensures { JoinsLawful }
{}

/// Where one of the trees leaves nothing, what joins them leaves nothing.
pub fn closed_stays_closed()
    ensures { ClosedStaysClosed }
{}

/// No leaf that one of the trees closes is left open, unless another tree was taken at a place above it; and that
/// leaves nothing, or the one that was dropped leaves something.
pub fn keeps_each()
    ensures { KeepsEach }
{}

/// Where no trees differ, the lines of what joins them refine those of each.
pub fn joins_refines()
    ensures { JoinsRefines }
{}

/// A tree that is lawful at a state has below each line as many trees as the line leaves states.
pub fn lawful_is_shaped()
    ensures { LawfulIsShaped }
{}

/// The bytes of an accepted cover are the text of a cover, where the declared box is not empty.
pub fn accepted_is_text()
    ensures { AcceptedIsText }
{}

/// The header of an accepted certificate of a cover has a version that is read, and the bound of the words.
pub fn accepted_has_header()
    ensures { AcceptedHasHeader }
{}
