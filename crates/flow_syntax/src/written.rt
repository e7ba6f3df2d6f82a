//! Flow files as they are spelled, with the tokens by which they name things. Each list is from its last member to its
//! first, since the values of a derivation are made from its last step to its first.

use text_parser::Token;

/// The first name or conversion in an expression that is in no argument and under no conversion.
#[derive(Clone, Copy)]
pub enum FirstName<'a> {
    NoName,
    /// A name, of a variable or of a function.
    Name(Token<'a>),
    /// The word of a conversion.
    Word(Token<'a>),
}

/// A node of an expression. An expression is in Polish notation: each node is before its operands.
#[derive(Clone, Copy)]
pub enum Node<'a> {
    Numeral(Token<'a>),
    Named(Token<'a>),
    /// A call, with the number of its arguments.
    Called(Token<'a>, usize),
    /// A conversion, with the first name in its operand.
    Converted(Token<'a>, FirstName<'a>),
    Operation(Token<'a>),
}

/// A node of a condition, which is in Polish notation too. A comparison has both expressions.
pub enum CondNode<'a> {
    Always,
    Never,
    Compared(Token<'a>, Vec<Node<'a>>, Vec<Node<'a>>),
    ComparedSigned(Token<'a>, Vec<Node<'a>>, Vec<Node<'a>>),
    Negation,
    Both,
    Either,
}

// Explicit drops, so that each is proved once and not at each end of each function that owns one of these.
impl Drop for CondNode<'_> {
    fn drop(self) {
        match self {
            CondNode::Always => {}
            CondNode::Never => {}
            CondNode::Compared(_rel, _left, _right) => {}
            CondNode::ComparedSigned(_rel, _left, _right) => {}
            CondNode::Negation => {}
            CondNode::Both => {}
            CondNode::Either => {}
        }
    }
}

pub enum Statement<'a> {
    /// The variables that are set, the token `:=`, and the values.
    Assign(Vec<Token<'a>>, Token<'a>, Vec<Vec<Node<'a>>>),
    Claim(Vec<CondNode<'a>>),
}

impl Drop for Statement<'_> {
    fn drop(self) {
        match self {
            Statement::Assign(_targets, _set, _values) => {}
            Statement::Claim(_cond) => {}
        }
    }
}

pub enum Jump<'a> {
    Goto(Token<'a>),
    Branch(Vec<CondNode<'a>>, Token<'a>, Token<'a>),
    Return(Token<'a>, Vec<Vec<Node<'a>>>),
    Abort,
}

impl Drop for Jump<'_> {
    fn drop(self) {
        match self {
            Jump::Goto(_target) => {}
            Jump::Branch(_cond, _target, _other) => {}
            Jump::Return(_word, _values) => {}
            Jump::Abort => {}
        }
    }
}

#[derive(Drop)]
pub struct Block<'a> {
    pub is_cut: bool,
    pub name: Token<'a>,
    pub statements: Vec<Statement<'a>>,
    pub jump: Jump<'a>,
}

/// A variable and an expression for its value.
pub struct Equation<'a> {
    pub variable: Token<'a>,
    pub value: Vec<Node<'a>>,
}

impl Drop for Equation<'_> {
    fn drop(self) {
        let Equation {
            variable: _,
            value: _value,
        } = self;
    }
}

/// A match of two blocks: the equations of `where`, of `back` and of `keeping`, and a condition, which is empty if it is
/// not given.
pub struct BlockMatch<'a> {
    pub before: Token<'a>,
    pub after: Token<'a>,
    pub forth: Vec<Equation<'a>>,
    pub back: Vec<Equation<'a>>,
    pub keeping: Vec<Equation<'a>>,
    pub condition: Vec<CondNode<'a>>,
    pub rounds: Option<Token<'a>>,
    pub splits: bool,
}

impl Drop for BlockMatch<'_> {
    fn drop(self) {
        let BlockMatch {
            before: _,
            after: _,
            forth: _forth,
            back: _back,
            keeping: _keeping,
            condition: _condition,
            rounds: _,
            splits: _,
        } = self;
    }
}

/// What a `match` matches.
pub enum Match<'a> {
    /// Each block with the block of the same name.
    SameNames,
    TwoBlocks(BlockMatch<'a>),
}

impl Drop for Match<'_> {
    fn drop(self) {
        match self {
            Match::SameNames => {}
            Match::TwoBlocks(_blocks) => {}
        }
    }
}

/// An item, with its keyword.
#[derive(Drop)]
pub enum Item<'a> {
    Sorts(Token<'a>, Vec<Token<'a>>),
    /// The sort of the result, the name and the sorts of the parameters.
    Function(Token<'a>, Token<'a>, Token<'a>, Vec<Token<'a>>),
    Variables(Token<'a>, Token<'a>, Vec<Token<'a>>),
    Graph(Token<'a>, Token<'a>, Vec<Block<'a>>),
    Rounds(Token<'a>, Token<'a>),
    Split(Token<'a>),
    Equal(Token<'a>, Token<'a>, Token<'a>),
    Match(Token<'a>, Match<'a>),
}
