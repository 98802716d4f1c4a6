// How branches of a tree end.
ghost use Rattle.std.specs.Prelude.{◌≡◌};
ghost use Rattle.cert_read.specs.Views.{line_of};
ghost use Rattle.cover_svg.specs.Fates.{fate_by};

use cert_read::Line;
use cover_line::{Ending, Rule, Staying};

/// How a branch of the tree ends.
#[derive(Clone, Copy, Debug, PartialEq, Eq)]
pub enum Fate {
    Void,
    False,
    By,
    Open,
    Stuck,
}

/// How a branch ends by the line; none where it goes on.
pub fn fate_by(line: &Line) -> Option<Fate>
    ensures { result ≡ fate_by (line_of line.now) }
{
    let Line::Rule(rule) = line else {
        return None;
    };
    match rule {
        Rule::End(Ending::Void(_) | Ending::Squares(_, _)) => Some(Fate::Void),
        Rule::End(Ending::False) => Some(Fate::False),
        Rule::End(Ending::By(_)) => Some(Fate::By),
        Rule::Stay(Staying::Open) => Some(Fate::Open),
        Rule::Stay(Staying::Stuck(_)) => Some(Fate::Stuck),
        Rule::Narrow(_) | Rule::Mark(_) | Rule::Branch(_) => None,
    }
}
