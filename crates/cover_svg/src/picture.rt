// The text of a picture.

use crate::fate::Fate;
use crate::frame::{Frame, Side, UNITS};
use dyadic::Frac;
use ival::Space;
use std::alloc::{AllocError, Global};

const HEAD: &str =
    "<svg xmlns='http://www.w3.org/2000/svg' width='900' height='900' viewBox='-600 -200 9200 9200' font-family='sans-serif' font-size='240' style='background: white'>
<style>
rect, circle { fill: currentColor; fill-opacity: 0.3; stroke: currentColor; vector-effect: non-scaling-stroke }
rect.open, rect.frame { fill-opacity: 0 }
tspan { fill: currentColor }
.void { color: #4477aa }
.false { color: #228833 }
.by { color: #aa7700 }
.open, .stuck, .point { color: #dd0000 }
</style>
";

// How many boxes ended in each way.
#[derive(Clone, Copy, Debug, PartialEq, Eq)]
struct Counts {
    void: u64,
    make_false: u64,
    by: u64,
    open: u64,
    stuck: u64,
}

/// A picture that boxes are added to. Those that are open or stuck are drawn last, so that in a projection no closed box
/// hides them.
#[derive(Drop)]
pub struct Picture {
    text: String,
    left: String,
    counts: Counts,
}

impl Fate {
    // The word of the line, which names the colour too.
    fn word(self) -> &'static str {
        match self {
            Fate::Void => "void",
            Fate::False => "false",
            Fate::By => "by",
            Fate::Open => "open",
            Fate::Stuck => "stuck",
        }
    }
}

impl Counts {
    // Counts a box. No picture has so many that a count is full.
    fn add(&mut self, fate: Fate) {
        let count = match fate {
            Fate::Void => &mut self.void,
            Fate::False => &mut self.make_false,
            Fate::By => &mut self.by,
            Fate::Open => &mut self.open,
            Fate::Stuck => &mut self.stuck,
        };
        *count = count.saturating_add(1);
    }

    fn of(&self, fate: Fate) -> u64 {
        match fate {
            Fate::Void => self.void,
            Fate::False => self.make_false,
            Fate::By => self.by,
            Fate::Open => self.open,
            Fate::Stuck => self.stuck,
        }
    }
}

// Appends the bytes of a name, with a question mark for what no plain text holds.
fn append_name(text: &mut String, name: &[u8]) -> Result<(), AllocError> {
    for byte in name {
        match *byte {
            b'<' => text.push_str("&lt;")?,
            b'>' => text.push_str("&gt;")?,
            b'&' => text.push_str("&amp;")?,
            b' '..=b'~' => text.push(char::from(*byte))?,
            _ => text.push('?')?,
        }
    }
    Ok(())
}

// Appends a fraction.
fn append_fraction(text: &mut String, fraction: Frac) -> Result<(), AllocError> {
    let (n, d) = (fraction.n, fraction.d);
    if d == 1 {
        write!(text, "{n}")
    } else {
        write!(text, "{n}/{d}")
    }
}

// Appends the name and the ends of a side, along a line that this change of coordinates gives.
fn append_side(text: &mut String, side: Side<'_>, transform: &str) -> Result<(), AllocError> {
    let (middle, end) = (UNITS / 2, UNITS);
    write!(text, "<g transform='{transform}'><text>")?;
    append_fraction(text, side.from)?;
    write!(text, "</text><text x='{middle}' text-anchor='middle'>")?;
    append_name(text, side.name)?;
    write!(text, "</text><text x='{end}' text-anchor='end'>")?;
    append_fraction(text, side.to)?;
    text.push_str("</text></g>\n")
}

impl Picture {
    /// The frame, without a box in it.
    pub fn new(alloc: Global, frame: &Frame<'_>) -> Result<Picture, AllocError> {
        let mut text = String::from_str(alloc, HEAD)?;
        append_side(&mut text, frame.across, "translate(0 8492)")?;
        append_side(&mut text, frame.upward, "translate(-140 8192) rotate(-90)")?;
        let counts = Counts {
            void: 0,
            make_false: 0,
            by: 0,
            open: 0,
            stuck: 0,
        };
        let left = String::new(alloc);
        Ok(Picture { text, left, counts })
    }

    /// Adds the box of the space.
    pub fn add_box(
        &mut self,
        frame: &Frame<'_>,
        space: &Space,
        fate: Fate,
    ) -> Result<(), AllocError> {
        let across = frame.across.span(space);
        let upward = frame.upward.span(space);
        let (x, width) = (across.from, across.size);
        let (y, height) = (
            (UNITS - upward.from).saturating_sub(upward.size),
            upward.size,
        );
        let word = fate.word();
        self.counts.add(fate);
        let text = match fate {
            Fate::Open | Fate::Stuck => &mut self.left,
            Fate::Void | Fate::False | Fate::By => &mut self.text,
        };
        writeln!(
            text,
            "<rect class='{word}' x='{x}' y='{y}' width='{width}' height='{height}'/>"
        )
    }

    /// Adds a point.
    pub fn add_point(&mut self, frame: &Frame<'_>, point: &Space) -> Result<(), AllocError> {
        let x = frame.across.span(point).from;
        let y = UNITS - frame.upward.span(point).from;
        writeln!(
            self.text,
            "<circle class='point' cx='{x}' cy='{y}' r='60'/>"
        )
    }

    // Adds how many boxes ended so.
    fn add_count(&mut self, fate: Fate) -> Result<(), AllocError> {
        let word = fate.word();
        let count = self.counts.of(fate);
        write!(self.text, "<tspan class='{word}'>{word} {count}</tspan> ")
    }

    /// The whole text.
    pub fn finish(self) -> Result<String, AllocError> {
        let mut picture = self;
        picture.text.push_str(picture.left.as_str())?;
        picture.text.push_str("<text y='8852'>")?;
        for fate in [Fate::Void, Fate::False, Fate::By, Fate::Open, Fate::Stuck] {
            picture.add_count(fate)?;
        }
        picture.text.push_str(
            "</text>\n<rect class='frame' width='8192' height='8192'/>\n</svg>\n",
        )?;
        let Picture {
            text,
            left: _,
            counts: _,
        } = picture;
        Ok(text)
    }
}
