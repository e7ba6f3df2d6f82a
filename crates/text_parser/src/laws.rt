//! Laws of the definitions. Each function does nothing: its contract is the law.
ghost use Rattle.std.specs.Prelude.{◌≡◌, ◌↔◌, false, Ok, IsOk, List, ◌≤◌, ◌<◌, ◌^◌, ◌⊎◌, ℕ, length, map, true, All, decimal};
ghost use Rattle.std.specs.List.Sorted.{IsStrictlyIncreasing};
ghost use Rattle.text_parser.specs.declared.reading.Context.{Context};
ghost use Rattle.text_parser.specs.Phrases.{term, cond, expr, Phrase, IsWithinLimits, Symbol, yield_before, MeetsLookahead, IsLongest};
ghost use Rattle.text_parser.specs.Folds.{fold};
ghost use Rattle.text_parser.specs.declared.extent.Extent.{Extent};
ghost use Rattle.text_parser.specs.ScopeParts.{ScopeParts};
ghost use Rattle.text_parser.specs.Building.{trees};
ghost use Rattle.text_parser.specs.Measuring.{extents};
ghost use Rattle.text_parser.specs.Sound.{IsSound};
ghost use Rattle.text_parser.specs.Laws.{PassesPhrases, MeasuresTerm, MeasuresCond, MeasuresExpr};
ghost use Rattle.text_parser.specs.Lexemes.{Lexeme};
ghost use Rattle.text_parser.specs.Scans.{scan_term, scan_cond, scan_expr, TakesPhrases};
ghost use Rattle.text_parser.specs.Ends.{Ends, TakesGrammar};
ghost use Rattle.text_parser.specs.declared.token.Kind.TheVariants.{Name, Number};
ghost use Rattle.text_parser.specs.Kinds.{IsToken};
ghost use Rattle.text_parser.specs.Keywords.{is_keyword};
ghost use Rattle.text_parser.specs.TokenParts.{TokenParts, place_of};
ghost use Rattle.text_parser.specs.declared.lexer.TheConstants.{MAX_LEN};
ghost use Rattle.text_parser.specs.Lex.{IsText, Lexes, FirstBad, IsSlice};
ghost use Rattle.text_parser.specs.Pieces.{Piece, AreSeparate, spelled, parts_from};

/// A text has either exactly one list of tokens or exactly one first place where no token begins, never both.
pub fn one_reading()
    ensures tokens { (text : List ℕ) (ms ns : List TokenParts) → Lexes text ms → Lexes text ns → ms ≡ ns }
    ensures places { (text : List ℕ) (m n : ℕ) → FirstBad text m → FirstBad text n → m ≡ n }
    ensures either { (text : List ℕ) (ms : List TokenParts) (n : ℕ) → Lexes text ms → FirstBad text n → ⊥ }
    ensures some { (text : List ℕ) → IsText text → ((ms : List TokenParts) × Lexes text ms) ⊎ ((n : ℕ) × FirstBad text n) }
{}

/// The tokens of a text are slices of the text, each of its kind, in ascending order of place.
pub fn tokens_are_slices()
    ensures slices { (text : List ℕ) (ms : List TokenParts) → Lexes text ms → All (IsSlice text) ms }
    ensures ascend { (text : List ℕ) (ms : List TokenParts) → Lexes text ms → IsStrictlyIncreasing (map place_of ms) }
{}

/// A text spelled by separate pieces, none of which extends the piece before it, has the tokens of its pieces.
pub fn pieces_lex()
    ensures { (ps : List Piece) → AreSeparate ps → length (spelled ps) ≤ MAX_LEN → Lexes (spelled ps) (parts_from 0 ps) }
{}

/// A keyword is a name, and the decimal form of a number below 2^64 is a number.
pub fn words_are_tokens()
    ensures keywords { (bytes : List ℕ) → is_keyword bytes ≡ true → IsToken Name bytes }
    ensures decimals { (n : ℕ) → n < 2 ^ 64 → IsToken Number (decimal n) }
{}

/// The syntax check accepts exactly the phrases of the grammar that are as long as possible, nest at most `MAX_OPEN`
/// constructs and have no number of 2^64 or more.
pub fn grammar_is_scanned()
    ensures terms { TakesPhrases term scan_term }
    ensures conds { TakesPhrases cond scan_cond }
    ensures exprs { TakesPhrases expr scan_expr }
{}

/// If the token that follows cannot continue a phrase of the symbol, each phrase before it is as long as possible, and
/// the syntax check accepts exactly the phrases of the grammar that obey its two rules on conditions and its limits.
pub fn phrases_end()
    ensures longest { (x : Symbol) (p : Phrase x) (ts : List Lexeme) → Ends x ts → IsLongest p ts }
    ensures terms { TakesGrammar term scan_term }
    ensures conds { TakesGrammar cond scan_cond }
    ensures exprs { TakesGrammar expr scan_expr }
{}

/// The grammar is unambiguous: tokens begin with at most one phrase of a symbol that is as long as possible.
pub fn phrases_are_unique()
    ensures { (x : Symbol) (p q : Phrase x) (r s : List Lexeme) → yield_before p r ≡ yield_before q s → MeetsLookahead p r → MeetsLookahead q s → IsLongest p r → IsLongest q s → (p ≡ q) × (r ≡ s) }
{}

/// Measuring and building a phrase give the folds of their actions over the phrase, in text order. Both read only
/// phrases of the grammar.
pub fn phrases_are_passed()
    ensures measures { (w : ScopeParts) → PassesPhrases (extents w) }
    ensures trees { (w : ScopeParts) → PassesPhrases (trees w) }
{}

/// Measuring a phrase succeeds if and only if the phrase is sound, nests at most `MAX_OPEN` constructs and has no
/// number of 2^64 or more.
pub fn sound_phrases_are_measured()
    ensures terms { (w : ScopeParts) (c : Context) (p : Phrase term) → IsOk (fold (extents w) c p (λ m. m)) ↔ (IsSound w c p × IsWithinLimits c.depth p) }
    ensures conds { (w : ScopeParts) (c : Context) (p : Phrase cond) → IsOk (fold (extents w) c p (λ m. m)) ↔ (IsSound w c p × IsWithinLimits c.depth p) }
    ensures exprs { (w : ScopeParts) (c : Context) (p : Phrase expr) → IsOk (fold (extents w) c p (λ m. m)) ↔ (IsSound w c p × IsWithinLimits c.depth p) }
{}

/// A measured phrase has a tree. The measures are the size of the tree and the nesting of the phrase, each capped at
/// its limit plus one.
pub fn measures_are_of_trees()
    ensures terms { (w : ScopeParts) (c : Context) (p : Phrase term) (m : Extent) → c.compares ≡ false → fold (extents w) c p (λ m. m) ≡ Ok m → MeasuresTerm w c p m }
    ensures conds { (w : ScopeParts) (c : Context) (p : Phrase cond) (m : Extent) → fold (extents w) c p (λ m. m) ≡ Ok m → MeasuresCond w c p m }
    ensures exprs { (w : ScopeParts) (c : Context) (p : Phrase expr) (m : Extent) → fold (extents w) c p (λ m. m) ≡ Ok m → MeasuresExpr w c p m }
{}
