//! The phrases of the grammar, by their numbers.

/// File.
pub const FILE: usize = 0;
/// Names.
pub const NAMES: usize = 1;
/// The names after a first one.
pub const MORE_NAMES: usize = 2;
/// A sort.
pub const SORT_NAME: usize = 3;
/// The parameters of a function, to the parenthesis.
pub const PARAMETERS: usize = 4;
/// The sorts after a first one.
pub const MORE_SORTS: usize = 5;
/// A block.
pub const FIRST_BLOCK: usize = 6;
/// The blocks after a first one.
pub const MORE_BLOCKS: usize = 7;
/// The statements and the jump of a block.
pub const BODY: usize = 8;
/// What `return` returns, to the semicolon.
pub const RESULTS: usize = 9;
/// A condition.
pub const CONDITION: usize = 10;
/// What follows `||`.
pub const MORE_CONJUNCTIONS: usize = 11;
/// A conjunction.
pub const CONJUNCTION: usize = 12;
/// What follows `&&`.
pub const MORE_LITERALS: usize = 13;
/// A literal.
pub const LITERAL: usize = 14;
/// A relation.
pub const RELATION: usize = 15;
/// Tokens after which a parenthesis was an expression.
pub const CONTINUES: usize = 16;
/// An expression.
pub const EXPRESSION: usize = 17;
/// What follows `+` or `-`.
pub const MORE_SUMMANDS: usize = 18;
/// A product.
pub const PRODUCT: usize = 19;
/// What follows `*`.
pub const MORE_FACTORS: usize = 20;
/// A factor.
pub const FACTOR: usize = 21;
/// The arguments after a name, if there are any.
pub const CALL: usize = 22;
/// The arguments, to the parenthesis.
pub const ARGUMENTS: usize = 23;
/// The expressions after a first one.
pub const MORE_EXPRESSIONS: usize = 24;
/// What follows `match`.
pub const MATCHED: usize = 25;
/// The equations of `where`, if there are any.
pub const WHERE_EQUATIONS: usize = 26;
/// The equations of `back`, if there are any.
pub const BACK_EQUATIONS: usize = 27;
/// The equations of `keeping`, if there are any.
pub const KEEPING_EQUATIONS: usize = 28;
/// Equations.
pub const EQUATIONS: usize = 29;
/// The equations after a first one.
pub const MORE_EQUATIONS: usize = 30;
/// The condition of a match, if there is one.
pub const MATCH_CONDITION: usize = 31;
/// The rounds of a match, if they are given.
pub const MATCH_ROUNDS: usize = 32;
/// `split` in a match, if it is given.
pub const MATCH_SPLIT: usize = 33;
