//! The grammar as data: a row for each rule.
ghost use Rattle.std.specs.Prelude.{◌≡◌, map, IfOk};
ghost use Rattle.flow_syntax.specs.Rules.{parts_of_rules};
ghost use Rattle.flow_syntax.specs.Productions.{rules, weights};
ghost use Rattle.flow_syntax.specs.Working.Rows.{row_parts};

use crate::phrase::*;
use crate::rule::Part::{Closing, Opening, Phrase, Token};
use crate::rule::Start::{Group, Open, Otherwise, Take};
use crate::rule::{CLOSE_ROUND, Grammar, NUMBER, OPEN_ROUND, Part, Rule, Start, push_rule};
use crate::terminal::*;
use kat_model::NoMemory;
use std::alloc::Global;

/// A rule: the phrase that it makes, how it begins, and the parts that follow.
struct RuleRow(usize, Start, &'static [Part]);

/// An expression in parentheses, after the word of a conversion.
const IN_PARENTHESES: &[Part] = &[
    Opening(OPEN_ROUND),
    Phrase(EXPRESSION),
    Token(CLOSE_ROUND),
    Closing,
];

/// Two expressions in parentheses, after the word of a signed comparison.
const TWO_IN_PARENTHESES: &[Part] = &[
    Opening(OPEN_ROUND),
    Phrase(EXPRESSION),
    Token(COMMA),
    Phrase(EXPRESSION),
    Token(CLOSE_ROUND),
    Closing,
];

/// The rules of each phrase, in the order in which they are tried.
#[rattlefmt::skip]
const ROWS: &[RuleRow] = &[
    RuleRow(FILE, Take(SORT), &[Phrase(NAMES), Token(SEMICOLON), Phrase(FILE)]),
    RuleRow(FILE, Take(FUN),
        &[Phrase(SORT_NAME), Token(NAME), Opening(OPEN_ROUND), Phrase(PARAMETERS), Closing,
            Token(SEMICOLON), Phrase(FILE)]),
    RuleRow(FILE, Take(VAR), &[Phrase(SORT_NAME), Phrase(NAMES), Token(SEMICOLON), Phrase(FILE)]),
    RuleRow(FILE, Take(GRAPH),
        &[Token(NAME), Opening(CURLY_OPEN), Phrase(FIRST_BLOCK), Phrase(MORE_BLOCKS),
            Token(CURLY_CLOSE), Closing, Phrase(FILE)]),
    RuleRow(FILE, Take(ROUNDS), &[Token(NUMBER), Token(SEMICOLON), Phrase(FILE)]),
    RuleRow(FILE, Take(SPLIT), &[Token(SEMICOLON), Phrase(FILE)]),
    RuleRow(FILE, Take(EQUAL),
        &[Token(NAME), Token(COMMA), Token(NAME), Token(SEMICOLON), Phrase(FILE)]),
    RuleRow(FILE, Take(MATCH), &[Phrase(MATCHED), Phrase(FILE)]),
    RuleRow(FILE, Otherwise, &[]),
    RuleRow(NAMES, Take(NAME), &[Phrase(MORE_NAMES)]),
    RuleRow(MORE_NAMES, Take(COMMA), &[Token(NAME), Phrase(MORE_NAMES)]),
    RuleRow(MORE_NAMES, Otherwise, &[]),
    RuleRow(SORT_NAME, Take(U8), &[]),
    RuleRow(SORT_NAME, Take(U16), &[]),
    RuleRow(SORT_NAME, Take(U32), &[]),
    RuleRow(SORT_NAME, Take(U64), &[]),
    RuleRow(SORT_NAME, Take(NAME), &[]),
    RuleRow(PARAMETERS, Take(CLOSE_ROUND), &[]),
    RuleRow(PARAMETERS, Otherwise, &[Phrase(SORT_NAME), Phrase(MORE_SORTS), Token(CLOSE_ROUND)]),
    RuleRow(MORE_SORTS, Take(COMMA), &[Phrase(SORT_NAME), Phrase(MORE_SORTS)]),
    RuleRow(MORE_SORTS, Otherwise, &[]),
    RuleRow(FIRST_BLOCK, Take(CUT),
        &[Token(BLOCK), Token(NAME), Opening(CURLY_OPEN), Phrase(BODY), Token(CURLY_CLOSE),
            Closing]),
    RuleRow(FIRST_BLOCK, Take(BLOCK),
        &[Token(NAME), Opening(CURLY_OPEN), Phrase(BODY), Token(CURLY_CLOSE), Closing]),
    RuleRow(MORE_BLOCKS, Take(CUT),
        &[Token(BLOCK), Token(NAME), Opening(CURLY_OPEN), Phrase(BODY), Token(CURLY_CLOSE),
            Closing, Phrase(MORE_BLOCKS)]),
    RuleRow(MORE_BLOCKS, Take(BLOCK),
        &[Token(NAME), Opening(CURLY_OPEN), Phrase(BODY), Token(CURLY_CLOSE), Closing,
            Phrase(MORE_BLOCKS)]),
    RuleRow(MORE_BLOCKS, Otherwise, &[]),
    RuleRow(BODY, Take(NAME),
        &[Phrase(MORE_NAMES), Token(BECOMES), Phrase(EXPRESSION), Phrase(MORE_EXPRESSIONS),
            Token(SEMICOLON), Phrase(BODY)]),
    RuleRow(BODY, Take(ASSERT), &[Phrase(CONDITION), Token(SEMICOLON), Phrase(BODY)]),
    RuleRow(BODY, Take(GOTO), &[Token(NAME), Token(SEMICOLON)]),
    RuleRow(BODY, Take(IF),
        &[Phrase(CONDITION), Token(GOTO), Token(NAME), Token(ELSE), Token(NAME), Token(SEMICOLON)]),
    RuleRow(BODY, Take(RETURN), &[Phrase(RESULTS)]),
    RuleRow(BODY, Take(ABORT), &[Token(SEMICOLON)]),
    RuleRow(RESULTS, Take(SEMICOLON), &[]),
    RuleRow(RESULTS, Otherwise, &[Phrase(EXPRESSION), Phrase(MORE_EXPRESSIONS), Token(SEMICOLON)]),
    RuleRow(CONDITION, Otherwise, &[Phrase(CONJUNCTION), Phrase(MORE_CONJUNCTIONS)]),
    RuleRow(MORE_CONJUNCTIONS, Take(OR), &[Phrase(CONJUNCTION), Phrase(MORE_CONJUNCTIONS)]),
    RuleRow(MORE_CONJUNCTIONS, Otherwise, &[]),
    RuleRow(CONJUNCTION, Otherwise, &[Phrase(LITERAL), Phrase(MORE_LITERALS)]),
    RuleRow(MORE_LITERALS, Take(AND), &[Phrase(LITERAL), Phrase(MORE_LITERALS)]),
    RuleRow(MORE_LITERALS, Otherwise, &[]),
    RuleRow(LITERAL, Open(BANG), &[Phrase(LITERAL), Closing]),
    RuleRow(LITERAL, Take(TRUE), &[]),
    RuleRow(LITERAL, Take(FALSE), &[]),
    RuleRow(LITERAL, Group(CONTINUES), &[Phrase(CONDITION), Token(CLOSE_ROUND), Closing]),
    RuleRow(LITERAL, Take(SLT), TWO_IN_PARENTHESES),
    RuleRow(LITERAL, Take(SLE), TWO_IN_PARENTHESES),
    RuleRow(LITERAL, Take(SGT), TWO_IN_PARENTHESES),
    RuleRow(LITERAL, Take(SGE), TWO_IN_PARENTHESES),
    RuleRow(LITERAL, Otherwise, &[Phrase(EXPRESSION), Phrase(RELATION), Phrase(EXPRESSION)]),
    RuleRow(RELATION, Take(EQ), &[]),
    RuleRow(RELATION, Take(NE), &[]),
    RuleRow(RELATION, Take(LT), &[]),
    RuleRow(RELATION, Take(LE), &[]),
    RuleRow(RELATION, Take(GT), &[]),
    RuleRow(RELATION, Take(GE), &[]),
    RuleRow(CONTINUES, Take(PLUS), &[]),
    RuleRow(CONTINUES, Take(MINUS), &[]),
    RuleRow(CONTINUES, Take(STAR), &[]),
    RuleRow(CONTINUES, Take(EQ), &[]),
    RuleRow(CONTINUES, Take(NE), &[]),
    RuleRow(CONTINUES, Take(LT), &[]),
    RuleRow(CONTINUES, Take(LE), &[]),
    RuleRow(CONTINUES, Take(GT), &[]),
    RuleRow(CONTINUES, Take(GE), &[]),
    RuleRow(EXPRESSION, Otherwise, &[Phrase(PRODUCT), Phrase(MORE_SUMMANDS)]),
    RuleRow(MORE_SUMMANDS, Take(PLUS), &[Phrase(PRODUCT), Phrase(MORE_SUMMANDS)]),
    RuleRow(MORE_SUMMANDS, Take(MINUS), &[Phrase(PRODUCT), Phrase(MORE_SUMMANDS)]),
    RuleRow(MORE_SUMMANDS, Otherwise, &[]),
    RuleRow(PRODUCT, Otherwise, &[Phrase(FACTOR), Phrase(MORE_FACTORS)]),
    RuleRow(MORE_FACTORS, Take(STAR), &[Phrase(FACTOR), Phrase(MORE_FACTORS)]),
    RuleRow(MORE_FACTORS, Otherwise, &[]),
    RuleRow(FACTOR, Take(NUMBER), &[]),
    RuleRow(FACTOR, Take(NAME), &[Phrase(CALL)]),
    RuleRow(FACTOR, Take(U8), IN_PARENTHESES),
    RuleRow(FACTOR, Take(U16), IN_PARENTHESES),
    RuleRow(FACTOR, Take(U32), IN_PARENTHESES),
    RuleRow(FACTOR, Take(U64), IN_PARENTHESES),
    RuleRow(FACTOR, Take(S8), IN_PARENTHESES),
    RuleRow(FACTOR, Take(S16), IN_PARENTHESES),
    RuleRow(FACTOR, Take(S32), IN_PARENTHESES),
    RuleRow(FACTOR, Take(S64), IN_PARENTHESES),
    RuleRow(FACTOR, Open(OPEN_ROUND), &[Phrase(EXPRESSION), Token(CLOSE_ROUND), Closing]),
    RuleRow(CALL, Open(OPEN_ROUND), &[Phrase(ARGUMENTS), Closing]),
    RuleRow(CALL, Otherwise, &[]),
    RuleRow(ARGUMENTS, Take(CLOSE_ROUND), &[]),
    RuleRow(ARGUMENTS, Otherwise,
        &[Phrase(EXPRESSION), Phrase(MORE_EXPRESSIONS), Token(CLOSE_ROUND)]),
    RuleRow(MORE_EXPRESSIONS, Take(COMMA), &[Phrase(EXPRESSION), Phrase(MORE_EXPRESSIONS)]),
    RuleRow(MORE_EXPRESSIONS, Otherwise, &[]),
    RuleRow(MATCHED, Take(ALL_NAMES), &[Token(SEMICOLON)]),
    RuleRow(MATCHED, Take(NAME),
        &[Token(COMMA), Token(NAME), Phrase(WHERE_EQUATIONS), Phrase(BACK_EQUATIONS),
            Phrase(KEEPING_EQUATIONS), Phrase(MATCH_CONDITION), Phrase(MATCH_ROUNDS),
            Phrase(MATCH_SPLIT), Token(SEMICOLON)]),
    RuleRow(WHERE_EQUATIONS, Take(WHERE), &[Phrase(EQUATIONS)]),
    RuleRow(WHERE_EQUATIONS, Otherwise, &[]),
    RuleRow(BACK_EQUATIONS, Take(BACK), &[Phrase(EQUATIONS)]),
    RuleRow(BACK_EQUATIONS, Otherwise, &[]),
    RuleRow(KEEPING_EQUATIONS, Take(KEEPING), &[Phrase(EQUATIONS)]),
    RuleRow(KEEPING_EQUATIONS, Otherwise, &[]),
    RuleRow(EQUATIONS, Take(NAME), &[Token(BECOMES), Phrase(EXPRESSION), Phrase(MORE_EQUATIONS)]),
    RuleRow(MORE_EQUATIONS, Take(COMMA),
        &[Token(NAME), Token(BECOMES), Phrase(EXPRESSION), Phrase(MORE_EQUATIONS)]),
    RuleRow(MORE_EQUATIONS, Otherwise, &[]),
    RuleRow(MATCH_CONDITION, Take(IF), &[Phrase(CONDITION)]),
    RuleRow(MATCH_CONDITION, Otherwise, &[]),
    RuleRow(MATCH_ROUNDS, Take(ROUNDS), &[Token(NUMBER)]),
    RuleRow(MATCH_ROUNDS, Otherwise, &[]),
    RuleRow(MATCH_SPLIT, Take(SPLIT), &[]),
    RuleRow(MATCH_SPLIT, Otherwise, &[]),
];

fn rules_of_rows(alloc: Global, rows: &[RuleRow]) -> Result<Vec<Rule>, NoMemory>
    ensures { IfOk result (λ list. parts_of_rules list.items ≡ map row_parts rows.now) }
{
    let mut list = Vec::new(alloc);
    for row in rows {
        push_rule(alloc, &mut list, row.0, row.1, row.2)?;
    }
    Ok(list)
}

#[tactic(auto, unfolding(crate::specs::Productions::rules))]
fn grammar_rules(alloc: Global) -> Result<Vec<Rule>, NoMemory>
    ensures { IfOk result (λ list. parts_of_rules list.items ≡ rules) }
{
    rules_of_rows(alloc, ROWS)
}

/// Returns the grammar of flow files. Fails only when out of memory.
#[tactic(auto, unfolding(crate::specs::Productions::weights))]
pub(crate) fn grammar(alloc: Global) -> Result<Grammar, NoMemory>
    ensures rules { IfOk result (λ g. parts_of_rules g.rules.items ≡ rules) }
    ensures weights { IfOk result (λ g. g.weights.items ≡ weights) }
{
    let rules = grammar_rules(alloc)?;
    let mut weights = Vec::new(alloc);
    weights.extend_from_slice(&[
        1, 1, 1, 1, 4, 1, 1, 1, 1, 8, 16, 1, 14, 1, 12, 1, 1, 5, 1, 3, 1, 1, 1, 8, 1, 1, 1, 1, 1,
        1, 1, 1, 1, 1,
    ])?;
    Ok(Grammar { rules, weights })
}
