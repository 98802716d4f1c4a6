// Programmes with known least values.
use semidefinite_program::{Outcome, Variable};

// A programme and its least value.
pub struct Row {
    pub name: &'static str,
    pub rights: &'static [f64],
    pub sizes: &'static [usize],
    pub scalars: &'static [f64],
    pub free: &'static [f64],
    pub coefficients: &'static [(usize, Variable, f64)],
    pub costs: &'static [(usize, usize, usize, f64)],
    pub least: f64,
}

// The trace of a matrix of two rows, one of three and one of five.
const TRACE_2: &[(usize, usize, usize, f64)] = &[(0, 0, 0, 1.0), (0, 1, 1, 1.0)];

const TRACE_3: &[(usize, usize, usize, f64)] = &[(0, 0, 0, 1.0), (0, 1, 1, 1.0), (0, 2, 2, 1.0)];

pub const ROWS: [Row; 9] = [
    Row {
        name: "the least trace with a one beside the diagonal",
        rights: &[1.0],
        sizes: &[2],
        scalars: &[],
        free: &[],
        coefficients: &[(0, Variable::Entry(0, 0, 1), 1.0)],
        costs: TRACE_2,
        least: 2.0,
    },
    // s + 2 / s for the middle entry s
    Row {
        name: "the least trace with two ones beside the diagonal",
        rights: &[1.0, 1.0],
        sizes: &[3],
        scalars: &[],
        free: &[],
        coefficients: &[
            (0, Variable::Entry(0, 0, 1), 1.0),
            (1, Variable::Entry(0, 2, 1), 1.0),
        ],
        costs: TRACE_3,
        least: 2.828_427_124_7,
    },
    // of twos on the diagonal and ones beside it
    Row {
        name: "the least eigenvalue of three rows",
        rights: &[1.0],
        sizes: &[3],
        scalars: &[],
        free: &[],
        coefficients: &[
            (0, Variable::Entry(0, 0, 0), 1.0),
            (0, Variable::Entry(0, 1, 1), 1.0),
            (0, Variable::Entry(0, 2, 2), 1.0),
        ],
        costs: &[
            (0, 0, 0, 2.0),
            (0, 1, 1, 2.0),
            (0, 2, 2, 2.0),
            (0, 0, 1, 2.0),
            (0, 1, 2, 2.0),
        ],
        least: 0.585_786_437_6,
    },
    // Lovasz 1979: the square root of 5
    Row {
        name: "the capacity of the pentagon",
        rights: &[1.0, 0.0, 0.0, 0.0, 0.0, 0.0],
        sizes: &[5],
        scalars: &[],
        free: &[],
        coefficients: &[
            (0, Variable::Entry(0, 0, 0), 1.0),
            (0, Variable::Entry(0, 1, 1), 1.0),
            (0, Variable::Entry(0, 2, 2), 1.0),
            (0, Variable::Entry(0, 3, 3), 1.0),
            (0, Variable::Entry(0, 4, 4), 1.0),
            (1, Variable::Entry(0, 0, 1), 1.0),
            (2, Variable::Entry(0, 1, 2), 1.0),
            (3, Variable::Entry(0, 2, 3), 1.0),
            (4, Variable::Entry(0, 3, 4), 1.0),
            (5, Variable::Entry(0, 4, 0), 1.0),
        ],
        costs: &[
            (0, 0, 0, -1.0),
            (0, 1, 1, -1.0),
            (0, 2, 2, -1.0),
            (0, 3, 3, -1.0),
            (0, 4, 4, -1.0),
            (0, 0, 1, -2.0),
            (0, 0, 2, -2.0),
            (0, 0, 3, -2.0),
            (0, 0, 4, -2.0),
            (0, 1, 2, -2.0),
            (0, 1, 3, -2.0),
            (0, 1, 4, -2.0),
            (0, 2, 3, -2.0),
            (0, 2, 4, -2.0),
            (0, 3, 4, -2.0),
        ],
        least: -2.236_067_977_5,
    },
    // 2 x + 3 y where x + y is 4 or more and x + 3 y is 6 or more: at (3, 1)
    Row {
        name: "a linear programme",
        rights: &[4.0, 6.0],
        sizes: &[],
        scalars: &[2.0, 3.0, 0.0, 0.0],
        free: &[],
        coefficients: &[
            (0, Variable::Scalar(0), 1.0),
            (0, Variable::Scalar(1), 1.0),
            (0, Variable::Scalar(2), -1.0),
            (1, Variable::Scalar(0), 1.0),
            (1, Variable::Scalar(1), 3.0),
            (1, Variable::Scalar(3), -1.0),
        ],
        costs: &[],
        least: 9.0,
    },
    // the least t with t on the diagonal and a one beside it
    Row {
        name: "a free number on the diagonal",
        rights: &[0.0, 0.0, 1.0],
        sizes: &[2],
        scalars: &[],
        free: &[1.0],
        coefficients: &[
            (0, Variable::Entry(0, 0, 0), 1.0),
            (0, Variable::Free(0), -1.0),
            (1, Variable::Entry(0, 1, 1), 1.0),
            (1, Variable::Free(0), -1.0),
            (2, Variable::Entry(0, 0, 1), 1.0),
        ],
        costs: &[],
        least: 1.0,
    },
    // the greatest g, with the other sign, so that x^4 - 2 x^2 - g is a sum of squares: rows by powers of x, over 1, x, x^2
    Row {
        name: "a lower bound of a quartic",
        rights: &[0.0, 0.0, -2.0, 0.0, 1.0],
        sizes: &[3],
        scalars: &[],
        free: &[-1.0],
        coefficients: &[
            (0, Variable::Entry(0, 0, 0), 1.0),
            (0, Variable::Free(0), 1.0),
            (1, Variable::Entry(0, 0, 1), 2.0),
            (2, Variable::Entry(0, 0, 2), 2.0),
            (2, Variable::Entry(0, 1, 1), 1.0),
            (3, Variable::Entry(0, 1, 2), 2.0),
            (4, Variable::Entry(0, 2, 2), 1.0),
        ],
        costs: &[],
        least: 1.0,
    },
    // the least s so that (x - y)^2 + 1 + s (1 + x^2 + y^2) is a sum of squares: rows 1, x, y, x^2, x y, y^2
    Row {
        name: "a sum of squares",
        rights: &[1.0, 0.0, 0.0, 1.0, -2.0, 1.0],
        sizes: &[3],
        scalars: &[],
        free: &[1.0],
        coefficients: &[
            (0, Variable::Entry(0, 0, 0), 1.0),
            (0, Variable::Free(0), -1.0),
            (1, Variable::Entry(0, 0, 1), 2.0),
            (2, Variable::Entry(0, 0, 2), 2.0),
            (3, Variable::Entry(0, 1, 1), 1.0),
            (3, Variable::Free(0), -1.0),
            (4, Variable::Entry(0, 1, 2), 2.0),
            (5, Variable::Entry(0, 2, 2), 1.0),
            (5, Variable::Free(0), -1.0),
        ],
        costs: &[],
        least: 0.0,
    },
    // a row that two blocks and a scalar share: the scalar's part costs least
    Row {
        name: "two blocks and a scalar",
        rights: &[3.0],
        sizes: &[2, 2],
        scalars: &[1.0],
        free: &[],
        coefficients: &[
            (0, Variable::Entry(0, 0, 1), 1.0),
            (0, Variable::Entry(1, 0, 1), 1.0),
            (0, Variable::Scalar(0), 1.0),
        ],
        costs: &[
            (0, 0, 0, 1.0),
            (0, 1, 1, 1.0),
            (1, 0, 0, 2.0),
            (1, 1, 1, 2.0),
        ],
        least: 3.0,
    },
];

// What a run towards a bound ends with, where that is no least value.
pub const ENDS: [(Row, f64, Outcome); 4] = [
    (
        Row {
            name: "a diagonal below 0",
            rights: &[-1.0],
            sizes: &[2],
            scalars: &[],
            free: &[],
            coefficients: &[(0, Variable::Entry(0, 0, 0), 1.0)],
            costs: &[],
            least: 0.0,
        },
        1.0,
        Outcome::NotBelow,
    ),
    // no matrix with 2 beside ones
    (
        Row {
            name: "a minor below 0",
            rights: &[1.0, 1.0, 2.0],
            sizes: &[2],
            scalars: &[],
            free: &[],
            coefficients: &[
                (0, Variable::Entry(0, 0, 0), 1.0),
                (1, Variable::Entry(0, 1, 1), 1.0),
                (2, Variable::Entry(0, 0, 1), 1.0),
            ],
            costs: &[],
            least: 0.0,
        },
        1.0,
        Outcome::NotBelow,
    ),
    (
        Row {
            name: "a trace without bound",
            rights: &[1.0],
            sizes: &[2],
            scalars: &[],
            free: &[],
            coefficients: &[(0, Variable::Entry(0, 0, 0), 1.0)],
            costs: &[(0, 1, 1, -1.0)],
            least: 0.0,
        },
        -1000.0,
        Outcome::Below,
    ),
    (
        Row {
            name: "a coefficient that is no number",
            rights: &[1.0],
            sizes: &[2],
            scalars: &[],
            free: &[],
            coefficients: &[(0, Variable::Entry(0, 0, 0), 0.0 / 0.0)],
            costs: TRACE_2,
            least: 0.0,
        },
        10.0,
        Outcome::Unknown,
    ),
];
