use linear_rows::Var;
use row_elimination::Multiplier;
use sqlite_items::Items;

/// A fraction for each of some variables, over one divisor. Every other variable has 0.
#[derive(Drop)]
pub struct RationalPoint {
    /// The variables, none twice.
    pub vars: Items<Var>,
    /// The numerator of each, in their order.
    pub numbers: Items<i128>,
    /// What each is divided by, at least 1.
    pub divisor: i128,
}

/// Whether rows entail a row.
#[derive(Drop)]
pub enum Answer {
    /// They do. The sum of the multiplied rows, divided by the divisor, has the row's left side and a
    /// constant that is at most the row's; or it has no terms and a negative constant.
    Proved {
        /// The rows of the sum.
        multipliers: Items<Multiplier>,
        /// What the sum is divided by, at least 1.
        divisor: u128,
    },
    /// They don't: all rows hold at the point, and the row doesn't.
    Refuted(RationalPoint),
    /// A limit of the method was passed.
    Beyond,
}

/// Whether rows have no rational point.
#[derive(Drop)]
pub enum Emptiness {
    /// They have none. The sum of the multiplied rows has no terms and a negative constant.
    Empty {
        /// The rows of the sum.
        multipliers: Items<Multiplier>,
    },
    /// They hold at the point.
    Inhabited(RationalPoint),
    /// A limit of the method was passed.
    Beyond,
}
