// Descent along the term of one atom or a Lagrangian, held within the box: a quasi-Newton method.
use crate::bounds::Bounds;
use crate::lagrangian::Lagrangian;
use crate::matrix::{Matrix, add_entry, add_to_row, image, product, zeros};
use crate::moves::{gradient, moved};
use floats::{at, set};
use std::alloc::{AllocError, Global};

/// At most so many steps are taken.
const MOST_STEPS: u32 = 80;

/// At most so many lengths of a step are tried.
const MOST_LENGTHS: u32 = 25;

/// A slope above minus this counts as none.
const FLATTEST: f64 = 1e-14;

/// So many turns are taken before the curvature counts as known.
const TURNS_TO_LEARN: u32 = 4;

/// A step ends the descent where it would take less than this share of what is left, by its slope.
const LEAST_SHARE: f64 = 0.01;

// A point, with the values of all terms and the height there.
#[derive(Drop)]
struct Place {
    x: Vec<f64, Global>,
    values: Vec<f64, Global>,
    height: f64,
}

// A point, the height there, and the slopes along the axes.
#[derive(Drop)]
struct Foot {
    x: Vec<f64, Global>,
    height: f64,
    slopes: Vec<f64, Global>,
}

impl Foot {
    // The descent that ends here.
    fn ended(self, points: u32) -> Descent {
        Descent {
            x: self.x,
            height: self.height,
            points,
        }
    }
}

// The way that a step goes, and how the height changes along it.
#[derive(Drop)]
struct Way {
    along: Vec<f64, Global>,
    slope: f64,
}

/// What is to fall.
#[derive(Clone, Copy)]
pub enum Hill<'a> {
    /// The term of this atom, or its negative where it rises, until it is low enough.
    Term(usize, bool),
    /// A Lagrangian, as far as it falls.
    Lagrangian(&'a Lagrangian),
}

/// What is to fall within the box.
#[derive(Clone, Copy)]
pub struct Slide<'a> {
    pub bounds: &'a Bounds<'a>,
    pub hill: Hill<'a>,
}

/// Where a descent ended, and at how many points it evaluated terms.
#[derive(Drop)]
pub struct Descent {
    pub x: Vec<f64, Global>,
    pub height: f64,
    pub points: u32,
}

// What a step does.
enum Step {
    To(Foot),
    Ends,
}

// Takes the negative of each entry.
fn negate(xs: &mut [f64]) {
    for x in xs.iter_mut() {
        *x = -*x;
    }
}

// The height of a term with this value.
fn term_height(value: f64, rises: bool) -> f64 {
    if rises { -value } else { value }
}

// The slopes of an atom's term.
fn term_slopes(
    alloc: Global,
    bounds: &Bounds,
    values: &[f64],
    atom: usize,
    rises: bool,
) -> Result<Vec<f64, Global>, AllocError> {
    let mut slopes = gradient(alloc, bounds, values, atom)?;
    if rises {
        negate(&mut slopes);
    }
    Ok(slopes)
}

impl<'a> Slide<'a> {
    // The height where the terms have these values.
    fn height(&self, values: &[f64]) -> f64 {
        match self.hill {
            Hill::Term(atom, rises) => term_height(self.bounds.term_value(values, atom), rises),
            Hill::Lagrangian(lagrangian) => lagrangian.height(self.bounds, values),
        }
    }

    // The slopes along the axes where the terms have these values.
    fn slopes(&self, alloc: Global, values: &[f64]) -> Result<Vec<f64, Global>, AllocError> {
        match self.hill {
            Hill::Term(atom, rises) => term_slopes(alloc, self.bounds, values, atom, rises),
            Hill::Lagrangian(lagrangian) => lagrangian.slopes(alloc, self.bounds, values),
        }
    }

    // Looks at a point.
    fn place(&self, alloc: Global, x: Vec<f64, Global>) -> Result<Place, AllocError> {
        let values = self.bounds.values(alloc, &x)?;
        let height = self.height(&values);
        Ok(Place { x, values, height })
    }

    // Stands at a point.
    fn foot(&self, alloc: Global, place: Place) -> Result<Foot, AllocError> {
        let slopes = self.slopes(alloc, &place.values)?;
        Ok(Foot {
            x: place.x,
            height: place.height,
            slopes,
        })
    }

    // The slopes along the axes that can move downwards.
    fn free_slopes(&self, alloc: Global, foot: &Foot) -> Result<Vec<f64, Global>, AllocError> {
        let mut free = vec![in alloc; 0.0; foot.slopes.len()]?;
        for axis in 0..free.len() {
            let slope = at(&foot.slopes, axis);
            if !self.bounds.is_at_end(axis, at(&foot.x, axis), slope < 0.0) {
                free[axis] = slope;
            }
        }
        Ok(free)
    }

    // The way downwards, by the inverse of the curvature.
    fn way(
        &self,
        alloc: Global,
        foot: &Foot,
        inverse: &[Vec<f64, Global>],
    ) -> Result<Way, AllocError> {
        let free = self.free_slopes(alloc, foot)?;
        let mut along = image(alloc, inverse, &free)?;
        for axis in 0..along.len() {
            along[axis] = if at(&free, axis) == 0.0 {
                0.0
            } else {
                -along[axis]
            };
        }
        let slope = product(&along, &free);
        Ok(Way { along, slope })
    }

    // The first length at which the height falls enough; none where none is found.
    fn search_along(
        &self,
        alloc: Global,
        foot: &Foot,
        way: &Way,
        first: f64,
        points: &mut u32,
    ) -> Result<Option<Foot>, AllocError> {
        let mut by = first;
        for _ in 0..MOST_LENGTHS {
            *points = points.saturating_add(1);
            let x = moved(alloc, self.bounds, &foot.x, by, &way.along)?;
            let next = self.place(alloc, x)?;
            if next.height <= foot.height + 1e-4 * by * way.slope {
                return Ok(Some(self.foot(alloc, next)?));
            }
            by *= 0.4;
        }
        Ok(None)
    }

    // The first length that is tried: less at first, and none past the box.
    fn first_length(&self, way: &Way, turn: u32) -> f64 {
        let mut wide = 0.0;
        for axis in 0..way.along.len() {
            let side = self.bounds.side(axis);
            wide += (side.high - side.low) * (side.high - side.low);
        }
        let far = (wide / product(&way.along, &way.along)).sqrt();
        let most = if turn == 0 { 0.1 * far } else { far };
        if most < 1.0 { most } else { 1.0 }
    }

    // What a step from this height has to take, by its slope, once the curvature is known.
    fn least_fall(&self, height: f64) -> f64 {
        match self.hill {
            Hill::Term(_, _) => LEAST_SHARE * (height - 0.5 * self.bounds.delta),
            Hill::Lagrangian(lagrangian) => lagrangian.least_fall(),
        }
    }

    // Whether a step along the way is of no use: nothing falls along it, or far too little once the curvature is known.
    fn is_lost(&self, foot: &Foot, way: &Way, turn: u32) -> bool {
        let least = if turn < TURNS_TO_LEARN {
            FLATTEST
        } else {
            self.least_fall(foot.height)
        };
        !(way.slope < -least)
    }

    // One step downwards.
    fn step(
        &self,
        alloc: Global,
        foot: &Foot,
        inverse: &[Vec<f64, Global>],
        turn: u32,
        points: &mut u32,
    ) -> Result<Step, AllocError> {
        let way = self.way(alloc, foot, inverse)?;
        if self.is_lost(foot, &way, turn) {
            return Ok(Step::Ends);
        }
        let first = self.first_length(&way, turn);
        match self.search_along(alloc, foot, &way, first, points)? {
            Some(next) => Ok(Step::To(next)),
            None => Ok(Step::Ends),
        }
    }

    /// Whether a height is low enough: of a term half of delta.
    pub fn is_low(&self, height: f64) -> bool {
        match self.hill {
            Hill::Term(_, _) => height <= 0.5 * self.bounds.delta,
            Hill::Lagrangian(_) => false,
        }
    }

    /// Goes down from a point until the height is low enough, or no step is of use.
    pub fn go(&self, alloc: Global, x: Vec<f64, Global>) -> Result<Descent, AllocError> {
        let mut inverse = identity(alloc, x.len(), 1.0)?;
        let first = self.place(alloc, x)?;
        let mut foot = self.foot(alloc, first)?;
        let mut points = 1;
        for turn in 0..MOST_STEPS {
            if self.is_low(foot.height) {
                return Ok(foot.ended(points));
            }
            match self.step(alloc, &foot, &inverse, turn, &mut points)? {
                Step::Ends => return Ok(foot.ended(points)),
                Step::To(next) => {
                    inverse = learn(alloc, inverse, &foot, &next, turn)?;
                    foot = next;
                }
            }
        }
        Ok(foot.ended(points))
    }
}

// So many times the identity.
fn identity(alloc: Global, count: usize, by: f64) -> Result<Matrix, AllocError> {
    let mut rows = zeros(alloc, count)?;
    for i in 0..count {
        add_entry(&mut rows, i, i, by);
    }
    Ok(rows)
}

// The differences of entries.
fn differences(alloc: Global, xs: &[f64], ys: &[f64]) -> Result<Vec<f64, Global>, AllocError> {
    let mut differences = vec![in alloc; 0.0; xs.len()]?;
    for i in 0..xs.len() {
        set(&mut differences, i, xs[i] - at(ys, i));
    }
    Ok(differences)
}

// Takes what a step tells of the curvature into its inverse.
fn learn(
    alloc: Global,
    inverse: Matrix,
    old: &Foot,
    new: &Foot,
    turn: u32,
) -> Result<Matrix, AllocError> {
    let went = differences(alloc, &new.x, &old.x)?;
    let bent = differences(alloc, &new.slopes, &old.slopes)?;
    let both = product(&went, &bent);
    if !(both > FLATTEST) {
        return Ok(inverse);
    }
    let mut inverse = if turn == 0 {
        identity(alloc, went.len(), both / product(&bent, &bent))?
    } else {
        inverse
    };
    update(alloc, &mut inverse, &went, &bent, both)?;
    Ok(inverse)
}

// The update of the inverse by the way that a step went, and by how the slopes changed.
fn update(
    alloc: Global,
    inverse: &mut [Vec<f64, Global>],
    went: &[f64],
    bent: &[f64],
    both: f64,
) -> Result<(), AllocError> {
    let seen = image(alloc, inverse, bent)?;
    let by = (1.0 + product(bent, &seen) / both) / both;
    for i in 0..went.len() {
        add_to_row(inverse, i, by * went[i] - at(&seen, i) / both, went);
        add_to_row(inverse, i, -(went[i] / both), &seen);
    }
    Ok(())
}
