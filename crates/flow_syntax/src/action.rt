//! What the productions make of the values of their parts. A name with `No` is for the end of a list, one with `Next` for a
//! member and the members after it.

/// Makes names and sorts.
#[derive(Clone, Copy)]
pub(crate) enum NameAction {
    Keep,
    NoTokens,
    OneToken,
    NextToken,
    NoParameters,
    SomeParameters,
}

/// Makes expressions.
#[derive(Clone, Copy)]
pub(crate) enum ExprAction {
    NoExprs,
    NextExpr,
    EndedAtOnce,
    EndedList,
    NoOperations,
    NextOperation,
    Join,
    Numeral,
    NameOrCall,
    CallNothing,
    CallList,
    Convert,
    EnclosedExpr,
}

/// Makes conditions.
#[derive(Clone, Copy)]
pub(crate) enum CondAction {
    NoConds,
    NextAny,
    NextAll,
    Any,
    All,
    TrueCond,
    FalseCond,
    Negate,
    EnclosedCond,
    Compare,
    CompareSigned,
}

/// Makes statements, jumps and blocks.
#[derive(Clone, Copy)]
pub(crate) enum BodyAction {
    Assigning,
    Asserting,
    Going,
    Branching,
    Returning,
    Aborting,
    CutBlock,
    PlainBlock,
    NoBlocks,
    NextCutBlock,
    NextPlainBlock,
}

/// Makes the parts of a `match`.
#[derive(Clone, Copy)]
pub(crate) enum MatchAction {
    NoEquations,
    NextEquation,
    FirstEquation,
    GivenEquations,
    GivenCondition,
    GivenNumber,
    GivenWord,
    MatchNames,
    MatchBlocks,
}

/// Makes items.
#[derive(Clone, Copy)]
pub(crate) enum ItemAction {
    NoItems,
    SortsItem,
    FunctionItem,
    VariablesItem,
    GraphItem,
    RoundsItem,
    SplitItem,
    EqualItem,
    MatchItem,
}

/// What a production makes of the values of its parts.
#[derive(Clone, Copy)]
pub(crate) enum Action {
    Names(NameAction),
    Exprs(ExprAction),
    Conds(CondAction),
    Bodies(BodyAction),
    Matches(MatchAction),
    Items(ItemAction),
}
