//! What both sides of a piece know at its match, and return at its exits.
ghost use Rattle.std.specs.Prelude.{◌≡◌, ◌+◌, ◌<◌, ◌^◌, ◌∷◌, ◌++◌, ℕ, true, false, not, IfOk, OnOk, [], map, filter, replicate, slice_index_or};
ghost use Rattle.std.specs.List.{list_all};
ghost use Rattle.flow_model.specs.Expressions.{variable as a_variable};
ghost use Rattle.flow_model.specs.Polish.{expr_of, cond_of, cond_part, values_of, statement_of};
ghost use Rattle.flow_model.specs.WholeGraphs.{is_whole_expr, are_whole_exprs, has_whole_sides, is_whole_cond, is_whole_statement};
ghost use Rattle.flow_model.specs.WholeMatches.{are_whole_equations, is_whole_match};
ghost use Rattle.flow_pieces.specs.Matches.{gives, equations_read, is_shared};
ghost use Rattle.flow_pieces.specs.PieceGraphs.{mark as a_mark, has_block as has_number, equations_hold, assigned, known_at, exit_mark as mark_of, shared_variables, results_before as first_results, results_after as second_results};
ghost use Rattle.flow_model.specs.Matches.{equation_of, match_of};
ghost use Rattle.flow_matches.specs.Tables.{AreBelow};
ghost use Rattle.flow_matches.specs.Working.ExitViews.{exit_with, AddsTrees};
ghost use Rattle.flow_matches.specs.Working.SideViews.{HasMarks, equation_parts};
ghost use Rattle.flow_matches.specs.Working.WholeSides.{are_whole_statements, AddsWholeExprs};

use crate::copies::{copy_expr, push_cond};
use crate::exits::Exit;
use crate::tables::{has_mark, mark as mark_block};
use flow_model::{BlockMatch, CondNode, Equation, ExprNode, Statement};
use flow_places::mark_expr;
use kat_model::{NoMemory, Rel, Width, append};
use std::alloc::Global;

/// Returns the expression of a variable.
fn variable(alloc: Global, number: usize) -> Result<Vec<ExprNode>, NoMemory>
    ensures tree { IfOk result (λ nodes. expr_of nodes.items ≡ a_variable number) }
    ensures whole { IfOk result (λ nodes. is_whole_expr nodes.items ≡ true) }
{
    Ok(vec![in alloc; ExprNode::Variable(number); 1]?)
}

/// Returns the expression of a mark.
pub(crate) fn mark(alloc: Global, number: u64) -> Result<Vec<ExprNode>, NoMemory>
    ensures tree { IfOk result (λ nodes. expr_of nodes.items ≡ a_mark number) }
    ensures whole { IfOk result (λ nodes. is_whole_expr nodes.items ≡ true) }
{
    Ok(vec![in alloc; ExprNode::Number(Width::W32, number); 1]?)
}

// Adds the nodes of the condition that an equation holds and the next condition too.
fn push_equation(
    alloc: Global,
    equation: &Equation,
    nodes: &mut Vec<CondNode>,
) -> Result<(), NoMemory>
    ensures parts { OnOk result (map cond_part nodes.new.items ≡ map cond_part nodes.old.items ++ equation_parts (equation_of equation.now)) }
    ensures whole { OnOk result (is_whole_expr equation.now.expression.items ≡ true → list_all has_whole_sides nodes.old.items ≡ true → list_all has_whole_sides nodes.new.items ≡ true) }
{
    let left = variable(alloc, equation.variable)?;
    let right = copy_expr(&equation.expression)?;
    append(nodes, CondNode::Both)?;
    append(nodes, CondNode::Compared(Rel::Eq, left, right))
}

/// Returns the condition that equations hold, and another condition.
pub(crate) fn holding(
    alloc: Global,
    equations: &[Equation],
    cond: &[CondNode],
) -> Result<Vec<CondNode>, NoMemory>
    ensures tree { IfOk result (λ nodes. cond_of nodes.items ≡ equations_hold (map equation_of equations.now) (cond_of cond.now)) }
    ensures whole { IfOk result (λ nodes. are_whole_equations equations.now ≡ true → is_whole_cond cond.now ≡ true → is_whole_cond nodes.items ≡ true) }
{
    let mut nodes = Vec::new(alloc);
    for equation in equations {
        push_equation(alloc, equation, &mut nodes)?;
    }
    push_cond(cond, &mut nodes)?;
    Ok(nodes)
}

// Adds the variables of equations.
fn push_variables(
    alloc: Global,
    equations: &[Equation],
    values: &mut Vec<Vec<ExprNode>>,
) -> Result<(), NoMemory>
    ensures trees { OnOk result (AddsTrees values.old values.new (map (λ e. a_variable e.variable) (map equation_of equations.now))) }
    ensures whole { OnOk result (AddsWholeExprs values.old values.new) }
{
    for equation in equations {
        append(values, variable(alloc, equation.variable)?)?;
    }
    Ok(())
}

// Adds the expressions of equations.
fn push_expressions(equations: &[Equation], values: &mut Vec<Vec<ExprNode>>) -> Result<(), NoMemory>
    ensures trees { OnOk result (AddsTrees values.old values.new (map (λ e. e.expression) (map equation_of equations.now))) }
    ensures whole { OnOk result (are_whole_equations equations.now ≡ true → AddsWholeExprs values.old values.new) }
{
    for equation in equations {
        append(values, copy_expr(&equation.expression)?)?;
    }
    Ok(())
}

// Returns the assignment of the expressions of equations to their variables.
fn assignment(alloc: Global, equations: &[Equation]) -> Result<Statement, NoMemory>
    ensures tree { IfOk result (λ statement. statement_of statement ≡ assigned (map equation_of equations.now)) }
    ensures whole { IfOk result (λ statement. are_whole_equations equations.now ≡ true → is_whole_statement statement ≡ true) }
{
    let mut targets = Vec::new(alloc);
    for equation in equations {
        targets.push(equation.variable)?;
    }
    let mut values = Vec::new(alloc);
    push_expressions(equations, &mut values)?;
    Ok(Statement::Assign(targets, values))
}

/// Returns what is known at a match, and the assignment of other equations of it.
pub(crate) fn opening(
    alloc: Global,
    own: &BlockMatch,
    equations: &[Equation],
) -> Result<Vec<Statement>, NoMemory>
    ensures trees { IfOk result (λ list. map statement_of list.items ≡ known_at (match_of own.now) ++ assigned (map equation_of equations.now) ∷ []) }
    ensures whole { IfOk result (λ list. is_whole_match own.now ≡ true → are_whole_equations equations.now ≡ true → are_whole_statements list.items ≡ true) }
{
    let known = holding(alloc, &own.keeping, &own.condition)?;
    let mut list = Vec::new(alloc);
    list.push(Statement::Claim(known))?;
    list.push(assignment(alloc, &own.keeping)?)?;
    list.push(assignment(alloc, equations)?)?;
    Ok(list)
}

// Marks the variables that equations give.
fn mark_given(equations: &[Equation], marks: &mut Vec<bool>)
    ensures { HasMarks (gives (map equation_of equations.now)) marks.old.items marks.new.items }
{
    for equation in equations {
        mark_block(marks, equation.variable);
    }
}

// Marks the variables that equations read.
fn mark_read(equations: &[Equation], marks: &mut Vec<bool>)
    ensures { HasMarks (equations_read (map equation_of equations.now)) marks.old.items marks.new.items }
{
    for equation in equations {
        mark_expr(&equation.expression, marks);
    }
}

fn no_marks(alloc: Global, count: usize) -> Result<Vec<bool>, NoMemory>
    ensures { IfOk result (λ marks. marks.items ≡ replicate count false) }
{
    Ok(vec![in alloc; false; count]?)
}

// Marks the variables of which equations between both states speak.
fn equation_marks(alloc: Global, variables: usize, own: &BlockMatch) -> Result<Vec<bool>, NoMemory>
    ensures { IfOk result (λ marks. (x : ℕ) → x < variables → not (slice_index_or marks.items x false) ≡ is_shared (match_of own.now) x) }
{
    let mut marks = no_marks(alloc, variables)?;
    mark_given(&own.forth, &mut marks);
    mark_given(&own.back, &mut marks);
    mark_read(&own.back, &mut marks);
    Ok(marks)
}

// Adds the live variables of an exit of which no equation between both states speaks.
fn push_shared(
    alloc: Global,
    variables: usize,
    exit: &Exit,
    own: &BlockMatch,
    values: &mut Vec<Vec<ExprNode>>,
) -> Result<(), NoMemory>
    requires { AreBelow variables exit.now.live.items }
    ensures trees { OnOk result (AddsTrees values.old values.new (map a_variable (shared_variables (exit_with (match_of own.now) exit.now)))) }
    ensures whole { OnOk result (AddsWholeExprs values.old values.new) }
{
    let marks = equation_marks(alloc, variables, own)?;
    for number in &exit.live {
        if !has_mark(&marks, *number) {
            append(values, variable(alloc, *number)?)?;
        }
    }
    Ok(())
}

// Adds the expressions of equations whose variable is live.
fn push_live_expressions(
    equations: &[Equation],
    live: &[usize],
    values: &mut Vec<Vec<ExprNode>>,
) -> Result<(), NoMemory>
    ensures trees { OnOk result (AddsTrees values.old values.new (map (λ e. e.expression) (filter (λ e. has_number live.now e.variable) (map equation_of equations.now)))) }
    ensures whole { OnOk result (are_whole_equations equations.now ≡ true → AddsWholeExprs values.old values.new) }
{
    for equation in equations {
        if live.contains(&equation.variable) {
            append(values, copy_expr(&equation.expression)?)?;
        }
    }
    Ok(())
}

// Adds the variables of equations that are live.
fn push_live_variables(
    alloc: Global,
    equations: &[Equation],
    live: &[usize],
    values: &mut Vec<Vec<ExprNode>>,
) -> Result<(), NoMemory>
    ensures trees { OnOk result (AddsTrees values.old values.new (map (λ e. a_variable e.variable) (filter (λ e. has_number live.now e.variable) (map equation_of equations.now)))) }
    ensures whole { OnOk result (AddsWholeExprs values.old values.new) }
{
    for equation in equations {
        if live.contains(&equation.variable) {
            append(values, variable(alloc, equation.variable)?)?;
        }
    }
    Ok(())
}

/// Returns what the first graph returns at an exit.
pub(crate) fn results_before(
    alloc: Global,
    variables: usize,
    exit: &Exit,
    own: &BlockMatch,
    place: usize,
) -> Result<Vec<Vec<ExprNode>>, NoMemory>
    requires place { place + 3 < 2 ^ 64 }
    requires live { AreBelow variables exit.now.live.items }
    ensures trees { IfOk result (λ values. values_of values.items ≡ mark_of place ∷ first_results (exit_with (match_of own.now) exit.now)) }
    ensures whole { IfOk result (λ values. is_whole_match own.now ≡ true → are_whole_exprs values.items ≡ true) }
{
    let mut values = Vec::new(alloc);
    append(&mut values, mark(alloc, place as u64 + 3)?)?;
    push_shared(alloc, variables, exit, own, &mut values)?;
    push_live_expressions(&own.forth, &exit.live, &mut values)?;
    push_variables(alloc, &own.back, &mut values)?;
    Ok(values)
}

/// Returns what the second graph returns at an exit.
pub(crate) fn results_after(
    alloc: Global,
    variables: usize,
    exit: &Exit,
    own: &BlockMatch,
    place: usize,
) -> Result<Vec<Vec<ExprNode>>, NoMemory>
    requires place { place + 3 < 2 ^ 64 }
    requires live { AreBelow variables exit.now.live.items }
    ensures trees { IfOk result (λ values. values_of values.items ≡ mark_of place ∷ second_results (exit_with (match_of own.now) exit.now)) }
    ensures whole { IfOk result (λ values. is_whole_match own.now ≡ true → are_whole_exprs values.items ≡ true) }
{
    let mut values = Vec::new(alloc);
    append(&mut values, mark(alloc, place as u64 + 3)?)?;
    push_shared(alloc, variables, exit, own, &mut values)?;
    push_live_variables(alloc, &own.forth, &exit.live, &mut values)?;
    push_expressions(&own.back, &mut values)?;
    Ok(values)
}
