//! Values of the parts of productions.
ghost use Rattle.std.specs.Prelude.{◌≡◌};
ghost use Rattle.text_parser.specs.TokenParts.{parts_of_token};
ghost use Rattle.flow_syntax.specs.Actions.{token_in, tokens_in, expr_in, exprs_in, operators_in, operands_in, cond_in, statements_in, jump_in, blocks_in, equations_in, match_in, items_in};
ghost use Rattle.flow_syntax.specs.SyntaxViews.{tokens_syntax, expr_syntax, exprs_syntax, cond_syntax, statements_syntax, jump_syntax, blocks_syntax, equations_syntax, match_syntax, items_syntax, value_syntax};

use crate::written::{Block, CondNode, Equation, Item, Jump, Match, Node, Statement};
use std::alloc::Global;
use text_parser::{Kind, Token};

/// The value of a part. Its lists are from the last member to the first.
pub(crate) enum Value<'a> {
    Token(Token<'a>),
    Tokens(Vec<Token<'a>>),
    Expr(Vec<Node<'a>>),
    Exprs(Vec<Vec<Node<'a>>>),
    /// Operators and their second operands, joined, that follow a first operand.
    Operations(Vec<Token<'a>>, Vec<Node<'a>>),
    NoCall,
    /// A condition. An empty one is the end of a list of them.
    Cond(Vec<CondNode<'a>>),
    Body(Vec<Statement<'a>>, Jump<'a>),
    Blocks(Vec<Block<'a>>),
    Equations(Vec<Equation<'a>>),
    Match(Match<'a>),
    Items(Vec<Item<'a>>),
}

// Explicit, so that it is proved once and not at each end of each function that owns a value.
impl Drop for Value<'_> {
    fn drop(self) {
        match self {
            Value::Token(_token) => {}
            Value::Tokens(_tokens) => {}
            Value::Expr(_expr) => {}
            Value::Exprs(_exprs) => {}
            Value::Operations(_operators, _operands) => {}
            Value::NoCall => {}
            Value::Cond(_cond) => {}
            Value::Body(_statements, _jump) => {}
            Value::Blocks(_blocks) => {}
            Value::Equations(_equations) => {}
            Value::Match(_matched) => {}
            Value::Items(_items) => {}
        }
    }
}

// What a value is, or what is empty if it is of another kind.
impl<'a> Value<'a> {
    pub(crate) fn into_token(self) -> Token<'a>
        ensures { parts_of_token result ≡ token_in (value_syntax self.entry) }
    {
        if let Value::Token(token) = self {
            return token;
        }
        Token {
            kind: Kind::Name,
            text: "",
            at: 0,
        }
    }

    pub(crate) fn into_tokens(self, alloc: Global) -> Vec<Token<'a>>
        ensures { tokens_syntax result.items ≡ tokens_in (value_syntax self.entry) }
    {
        if let Value::Tokens(tokens) = self {
            return tokens;
        }
        Vec::new(alloc)
    }

    pub(crate) fn into_expr(self, alloc: Global) -> Vec<Node<'a>>
        ensures { expr_syntax result.items ≡ expr_in (value_syntax self.entry) }
    {
        if let Value::Expr(expr) = self {
            return expr;
        }
        Vec::new(alloc)
    }

    pub(crate) fn into_exprs(self, alloc: Global) -> Vec<Vec<Node<'a>>>
        ensures { exprs_syntax result.items ≡ exprs_in (value_syntax self.entry) }
    {
        if let Value::Exprs(exprs) = self {
            return exprs;
        }
        Vec::new(alloc)
    }

    pub(crate) fn into_cond(self, alloc: Global) -> Vec<CondNode<'a>>
        ensures { cond_syntax result.items ≡ cond_in (value_syntax self.entry) }
    {
        if let Value::Cond(cond) = self {
            return cond;
        }
        Vec::new(alloc)
    }

    pub(crate) fn into_blocks(self, alloc: Global) -> Vec<Block<'a>>
        ensures { blocks_syntax result.items ≡ blocks_in (value_syntax self.entry) }
    {
        if let Value::Blocks(blocks) = self {
            return blocks;
        }
        Vec::new(alloc)
    }

    pub(crate) fn into_equations(self, alloc: Global) -> Vec<Equation<'a>>
        ensures { equations_syntax result.items ≡ equations_in (value_syntax self.entry) }
    {
        if let Value::Equations(equations) = self {
            return equations;
        }
        Vec::new(alloc)
    }

    pub(crate) fn into_match(self) -> Match<'a>
        ensures { match_syntax result ≡ match_in (value_syntax self.entry) }
    {
        if let Value::Match(matched) = self {
            return matched;
        }
        Match::SameNames
    }

    pub(crate) fn into_items(self, alloc: Global) -> Vec<Item<'a>>
        ensures { items_syntax result.items ≡ items_in (value_syntax self.entry) }
    {
        if let Value::Items(items) = self {
            return items;
        }
        Vec::new(alloc)
    }

    pub(crate) fn into_operations(self, alloc: Global) -> (Vec<Token<'a>>, Vec<Node<'a>>)
        ensures operators { tokens_syntax result.0.items ≡ operators_in (value_syntax self.entry) }
        ensures operands { expr_syntax result.1.items ≡ operands_in (value_syntax self.entry) }
    {
        if let Value::Operations(operators, operands) = self {
            return (operators, operands);
        }
        (Vec::new(alloc), Vec::new(alloc))
    }

    pub(crate) fn into_body(self, alloc: Global) -> (Vec<Statement<'a>>, Jump<'a>)
        ensures statements { statements_syntax result.0.items ≡ statements_in (value_syntax self.entry) }
        ensures jump { jump_syntax result.1 ≡ jump_in (value_syntax self.entry) }
    {
        if let Value::Body(statements, jump) = self {
            return (statements, jump);
        }
        (Vec::new(alloc), Jump::Abort)
    }
}
