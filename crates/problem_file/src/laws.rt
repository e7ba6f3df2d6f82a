//! Laws of the definitions. Each function does nothing: its contract is the law.
ghost use Rattle.std.specs.Prelude.{ℕ, List};
ghost use Rattle.problem_file.specs.Laws.{FilesAreScanned, ItemsAreFolded, ItemsAreMade, HaveOneAnswer, ReadsBoth, AreInRanges, AreAllInRanges};
ghost use Rattle.problem_file.specs.Reads.{Reads, FirstFault, FirstFaultOfAll};
ghost use Rattle.kat_model.specs.Problems.{ProblemParts};
ghost use Rattle.kat_model.specs.Expressions.{CondTree};
ghost use Rattle.kat_model.specs.declared.expression.Width.{Width};
ghost use Rattle.text_parser.specs.declared.meaning.Meaning.{Meaning};
ghost use Rattle.while_lang.specs.Programs.{ProgTree};
ghost use Rattle.while_lang.specs.Files.{prog_side, equal, triple};
ghost use Rattle.problem_file.specs.CommentedTexts.{Comments, commented_text, IsCommentedPrintable};
ghost use Rattle.problem_file.specs.NamedTexts.{named_text, IsNamedPrintable};
ghost use Rattle.problem_file.specs.Questions.{question_text, IsPrintable};
ghost use Rattle.problem_file.specs.ProgramTexts.{one_program_text, programs_text, triple_text, IsOnePrintable, ArePrintable, IsTriplePrintable};
ghost use Rattle.problem_file.specs.TextLaws.{PosesEqual, PosesPrograms, DenotesProgram};

/// The syntax check accepts all tokens exactly when they are one phrase `file` of the grammar and nothing in them is
/// too deep or too wide.
pub fn files_are_scanned()
    ensures { FilesAreScanned }
{}

/// For the tokens of a file, the results of the syntax check and of `parse_items` are the folds of their actions over its
/// items, from the first on. So the first fault is the fault of the first item that has one.
pub fn items_are_folded()
    ensures { ItemsAreFolded }
{}

/// If the syntax is correct, `parse_items` succeeds exactly when each item makes a next state, and it returns the state
/// that they make. This requires that the expressions of earlier programs have at most `MAX_EXPR_NODES`
/// nodes, as those of programs that were read have.
pub fn items_are_made()
    ensures { ItemsAreMade }
{}

/// Bytes have exactly one answer or exactly one first fault, and never both; a first fault is never `NoMemory`.
pub fn have_one_answer()
    ensures one { HaveOneAnswer Reads FirstFault }
    ensures all { HaveOneAnswer ReadsBoth FirstFaultOfAll }
{}

/// At most `MAX_TESTS` tests, `MAX_ACTIONS` actions and `MAX_VARS` variables are declared, each has a name, and
/// hypotheses, programs and the goals use no others.
pub fn are_in_ranges()
    ensures one { AreInRanges }
    ensures all { AreAllInRanges }
{}

/// The plain text of a question reads back as exactly that question, if it is within the limits of a text.
pub fn plain_texts_read_back()
    ensures { (q : ProblemParts) → IsPrintable q → PosesEqual (question_text q) q }
{}

/// The same holds of the text with any names of the tests and actions: identifiers, of which no two are the same.
pub fn named_texts_read_back()
    ensures { (names : Meaning → List ℕ) (q : ProblemParts) → IsNamedPrintable names q → PosesEqual (named_text names q) q }
{}

/// It also holds with comments, each a line of text, before the declarations and the hypotheses.
pub fn commented_texts_read_back()
    ensures { (names : Meaning → List ℕ) (c : Comments) (q : ProblemParts) → IsCommentedPrintable names c q → PosesEqual (commented_text names c q) q }
{}

/// The plain text of two programs reads back as the goal that they are equal, if it is within the limits of a text. The
/// file has that width and number of variables, and no tests, actions, terms or hypotheses.
pub fn plain_programs_read_back()
    ensures { (w : Width) (v : ℕ) (p q : ProgTree) → ArePrintable w v p q → PosesPrograms (programs_text w v p q) w v (equal (prog_side p) (prog_side q)) }
{}

/// The plain text of a triple of a program reads back likewise as the goal of that triple.
pub fn plain_triples_read_back()
    ensures { (w : Width) (v : ℕ) (b : CondTree) (p : ProgTree) (c : CondTree) → IsTriplePrintable w v b p c → PosesPrograms (triple_text w v b p c) w v (triple b (prog_side p) c) }
{}

/// The text of one program over variables of any names reads back as a file of that width and those variables, with
/// that program under its name and nothing else, if it is within the limits of a text.
pub fn named_programs_read_back()
    ensures { (names : Meaning → List ℕ) (w : Width) (v : ℕ) (name : List ℕ) (p : ProgTree) → IsOnePrintable names w v name p
        → DenotesProgram (one_program_text names w v name p) names w v name p }
{}
