//! Laws of the definitions. Each function does nothing: its contract is the law.
ghost use Rattle.std.specs.Prelude.{◌≡◌, ◌≤◌, ◌+◌, ℕ, List, [], length, Bool, true};
ghost use Rattle.kat_model.specs.declared.limits.TheConstants.{MAX_TERM_NODES, MAX_EXPR_NODES, MAX_OPEN};
ghost use Rattle.kat_model.specs.Trees.{Term, term_size};
ghost use Rattle.kat_model.specs.Expressions.{ExprTree, CondTree, has_comparison};
ghost use Rattle.text_parser.specs.declared.lexer.TheConstants.{MAX_LEN};
ghost use Rattle.text_parser.specs.Pieces.{spelled};
ghost use Rattle.text_parser.specs.declared.meaning.Meaning.{Meaning};
ghost use Rattle.text_parser.specs.Sizes.{expr_size, cond_size, largest_expr};
ghost use Rattle.text_parser.specs.ScopeParts.{ScopeParts, IsNameOf};
ghost use Rattle.text_parser.specs.Readings.{term_at, cond_at, expr_at};
ghost use Rattle.text_print.specs.Printing.{name_of, expr_pieces, cond_pieces, term_pieces, ExprIsNamed, CondIsNamed, TermIsNamed, expr_nesting, cond_nesting, term_nesting};
ghost use Rattle.text_print.specs.Laws.{ReadsBack};

/// A text printed with the only name of each meaning reads back as the same tree with no tokens left, if the text, the
/// size of the tree and the nesting of the text are within the limits.
pub fn printed_reads_back()
    ensures terms { (w : ScopeParts) (names : Meaning → List ℕ) (e : Term) (d : ℕ) → TermIsNamed w names e → length (spelled (term_pieces names e [])) ≤ MAX_LEN → term_size e ≤ MAX_TERM_NODES → d + term_nesting e ≤ MAX_OPEN → ReadsBack (term_pieces names e []) (term_at w d) e (term_nesting e) }
    ensures conds { (w : ScopeParts) (names : Meaning → List ℕ) (b : CondTree) (d : ℕ) (compares : Bool) → CondIsNamed w names b → (has_comparison b ≡ true → compares ≡ true) → length (spelled (cond_pieces names b [])) ≤ MAX_LEN → largest_expr b ≤ MAX_EXPR_NODES → cond_size b ≤ MAX_TERM_NODES → d + cond_nesting b ≤ MAX_OPEN → ReadsBack (cond_pieces names b []) (cond_at w d compares) b (cond_nesting b) }
    ensures exprs { (w : ScopeParts) (names : Meaning → List ℕ) (e : ExprTree) (d : ℕ) → ExprIsNamed w names e → length (spelled (expr_pieces names e [])) ≤ MAX_LEN → expr_size e ≤ MAX_EXPR_NODES → d + expr_nesting e ≤ MAX_OPEN → ReadsBack (expr_pieces names e []) (expr_at w d) e (expr_nesting e) }
    ensures names { (w : ScopeParts) (m : Meaning) (name : List ℕ) → IsNameOf w name m → name_of w m ≡ name }
{}
