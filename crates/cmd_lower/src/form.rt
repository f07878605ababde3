//! What is asked for.

/// For which conditions families are made.
#[derive(Clone, Copy, Debug, PartialEq, Eq)]
pub enum Families {
    /// For the first two: an unbounded selected column, or an unbounded equality.
    FirstTwo,
    /// For all three: for an unbounded inequality, too.
    All,
}

/// What is asked for: a family of so many rows, for these conditions.
#[derive(Clone, Copy, Debug, PartialEq, Eq)]
pub struct LowerForm {
    /// How many rows the family has.
    pub rows: u16,
    /// For which conditions it is made.
    pub families: Families,
}
