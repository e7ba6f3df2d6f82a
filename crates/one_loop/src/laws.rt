//! The law of forms. The function does nothing: its contract is the law.
ghost use Rattle.one_loop.specs.Laws.{FormsEndAsPrograms};

/// A form has one meaning: from a store of the program's variables, with any value of the counter, it ends exactly in
/// the stores in which the program ends, followed by 0.
pub fn forms_end_as_programs()
    ensures { FormsEndAsPrograms }
{}
