//! The reasons for hypotheses.

/// The reason for a hypothesis: the text states it, under this number; a comparison holds after an action exactly when
/// the substituted one holds before it; or comparisons, given by their numbers among the tests, exclude or imply one
/// another.
#[derive(Clone, Copy, PartialEq, Eq)]
pub enum Rule {
    Stated(usize),
    /// The numbers of an action and of a test.
    Assign(usize, usize),
    /// Two forms whose difference or sum is a constant other than 0 are not both 0.
    F1(usize, usize),
    /// `f < g` and `g < f` exclude one another.
    F2(usize, usize),
    /// `f < g` and `f == g` exclude one another.
    F3(usize, usize),
    /// `f < c` implies `f < d` if c is less than d.
    F4(usize, usize),
    /// A test that makes a form a constant decides whether the form is below another constant.
    F5(usize, usize),
    /// One of `f < g`, `g < f` and `f == g` holds.
    F6(usize, usize, usize),
}
