// Which searches for points are made: a heuristic that promises nothing.
use point_search::{Search, Start};
use poly_graph::Problem;

/// In so many boxes at first a point is searched from the middle.
const FIRST_BOXES: u32 = 8;

/// In the first box it is searched from scattered points too, until as many searches in a row as there are axes have come no
/// nearer, but at least so many. A box of one axis is split instead, which soon shows the middles of its parts.
const LEAST_VAIN: usize = 4;

/// So many times as many may come no nearer where the form is nearly met.
const PATIENCE: usize = 10;

/// The form is nearly met where atoms miss less than this, by the sum of the squares.
const NEARLY: f64 = 0.1;

/// Where so many searches have missed the least that was missed, it counts as the least of the box.
const MOST_MEETINGS: u32 = 3;

/// A search meets what another one missed where it misses at most so many times as much.
const AS_NEAR: f64 = 1.01;

/// A search comes nearer where it ends with less than this share of what the others missed.
const NEARER: f64 = 0.9;

/// In the first box searches take so many steps of work at most.
const MOST_WORK: u64 = 1 << 22;

/// Each box pays for so many points of later searches: work on a box takes about twenty times as long as a point.
const POINTS_A_BOX: i64 = 2;

/// At most so many points are paid in advance.
const MOST_SAVED: i64 = 64;

/// How searches for points went, and what boxes have paid for later ones.
#[derive(Clone, Copy)]
pub struct Searches {
    boxes: u32,
    // how many were begun at this box
    begun: u32,
    // how many started at scattered points
    scattered: u32,
    saved: i64,
    least: f64,
    // how many missed that
    meetings: u32,
    // how many in a row came no nearer, and how many may
    vain: usize,
    most_vain: usize,
    // how much work a point is, and how much there was
    point_work: u64,
    work: u64,
}

// How much work a point of the problem is: its nodes are evaluated, and equations between its axes are solved.
fn point_work(problem: &Problem) -> u64 {
    let axes = problem.axes().len();
    let nodes = problem.graph().len().saturating_add(problem.forms().len());
    axes.saturating_mul(axes).saturating_add(nodes) as u64
}

impl Searches {
    /// There were none yet.
    pub fn new() -> Searches {
        Searches {
            boxes: 0,
            begun: 0,
            scattered: 0,
            saved: 0,
            least: 1.0 / 0.0,
            meetings: 0,
            vain: 0,
            most_vain: LEAST_VAIN,
            point_work: 0,
            work: 0,
        }
    }

    /// Comes to a box of the problem that is about to be split.
    pub fn come_to_box(&mut self, problem: &Problem) {
        let axes = problem.axes().len();
        self.most_vain = if axes < 2 { 0 } else { axes.max(LEAST_VAIN) };
        self.point_work = point_work(problem);
        self.boxes = self.boxes.saturating_add(1);
        self.begun = 0;
        self.saved = self.saved.saturating_add(POINTS_A_BOX).min(MOST_SAVED);
    }

    // Whether one more search is made in the first box.
    fn goes_on(&self) -> bool {
        let patience = if self.least < NEARLY { PATIENCE } else { 1 };
        self.vain < self.most_vain.saturating_mul(patience)
            && self.meetings < MOST_MEETINGS
            && self.work < MOST_WORK
    }

    // The next scattered point.
    fn scatter(&mut self) -> Start {
        self.scattered = self.scattered.saturating_add(1);
        Start::Scattered(self.scattered)
    }

    // Where the first search of the box starts, if there is one.
    fn first(&mut self) -> Option<Start> {
        if self.boxes <= FIRST_BOXES {
            Some(Start::Middle)
        } else if self.saved <= 0 {
            None
        } else if self.boxes % 2 == 0 {
            Some(Start::Middle)
        } else {
            Some(self.scatter())
        }
    }

    /// Where the next search of the box starts, if there is one more.
    pub fn next(&mut self) -> Option<Start> {
        let begun = self.begun;
        self.begun = begun.saturating_add(1);
        if begun == 0 {
            self.first()
        } else if self.boxes == 1 && self.goes_on() {
            Some(self.scatter())
        } else {
            None
        }
    }

    // Notes what a search missed.
    fn note_missed(&mut self, missed: f64) {
        self.meetings = if missed * AS_NEAR < self.least {
            1
        } else if missed < AS_NEAR * self.least {
            self.meetings.saturating_add(1)
        } else {
            self.meetings
        };
        if missed < NEARER * self.least {
            self.vain = 0;
        } else {
            self.vain = self.vain.saturating_add(1);
        }
        self.least = self.least.min(missed);
    }

    /// Notes how a search went.
    pub fn note(&mut self, search: &Search) {
        if self.boxes > FIRST_BOXES {
            self.saved = self.saved.saturating_sub(i64::from(search.points));
        }
        let work = u64::from(search.points).saturating_mul(self.point_work);
        self.work = self.work.saturating_add(work);
        if search.points == 0 {
            self.vain = usize::MAX;
        } else {
            self.note_missed(search.missed);
        }
    }
}
