//! Scopes: what the names declared so far mean.
ghost use Rattle.std.specs.Prelude.{◌≡◌, ◌<◌, OnOk};
ghost use Rattle.text_parser.specs.TokenParts.{parts_of_token};
ghost use Rattle.problem_file.specs.Working.Walks.{Does};
ghost use Rattle.flow_text.specs.Scopes.{no_names, meaning, may_declare, with_sort, may_have_function, with_function, with_variable, may_have_graph, with_graph_name, sorts_declared, variables_declared};
ghost use Rattle.flow_syntax.specs.SyntaxViews.{tokens_syntax};
ghost use Rattle.flow_text.specs.ScopeViews.{scope_parts};

use crate::faults::{limit_fault, repeat_fault};
use crate::limits::{MAX_FUNCTIONS, MAX_SORTS, MAX_VARIABLES};
use crate::meaning::Meaning;
use crate::names::Names;
use flow_model::Sort;
use kat_model::{NoMemory, append};
use std::alloc::Global;
use text_parser::{TextFault, Token};

/// The sorts of the result and of the parameters of a function.
#[derive(Drop)]
pub(crate) struct Function {
    pub(crate) result_sort: Sort,
    pub(crate) parameters: Vec<Sort>,
}

pub(crate) struct Scope {
    pub(crate) names: Names,
    pub(crate) sorts: usize,
    pub(crate) functions: Vec<Function>,
    pub(crate) variables: Vec<Sort>,
    pub(crate) graphs: usize,
}

// Explicit, so that it is proved once and not at each end of each function that owns a scope.
impl Drop for Scope {
    fn drop(self) {
        let Scope {
            names: _names,
            sorts: _,
            functions: _functions,
            variables: _variables,
            graphs: _,
        } = self;
    }
}

impl Scope {
    pub(crate) fn new(alloc: Global) -> Scope
        ensures { scope_parts result ≡ no_names }
    {
        Scope {
            names: Names::new(alloc),
            sorts: 0,
            functions: Vec::new(alloc),
            variables: Vec::new(alloc),
            graphs: 0,
        }
    }

    /// Returns the sorts of the variables.
    pub(crate) fn into_variables(self) -> Vec<Sort>
        ensures { result.items ≡ (scope_parts self).variables }
    {
        let Scope {
            names: _names,
            sorts: _,
            functions: _functions,
            variables,
            graphs: _,
        } = self;
        variables
    }

    /// Returns what a token means as a name.
    pub(crate) fn meaning(&self, name: &Token) -> Option<Meaning>
        ensures { result ≡ meaning (scope_parts self.now) (parts_of_token name.now) }
    {
        self.names.meaning(name.text)
    }

    // Checks that a name is new and that another name of its kind, of which there are `count`, may be declared.
    fn may_declare(&self, name: &Token, count: usize, limit: usize) -> Result<(), TextFault>
        ensures value { result ≡ may_declare (meaning (scope_parts self.now) (parts_of_token name.now)) count limit (parts_of_token name.now) }
        ensures within { OnOk result (count < limit) }
    {
        match self.meaning(name) {
            Some(_) => repeat_fault(name),
            None => {
                if count < limit {
                    Ok(())
                } else {
                    limit_fault(name)
                }
            }
        }
    }

    pub(crate) fn declare_sort(&mut self, name: &Token) -> Result<(), TextFault>
        ensures { Does (Unit {0}) result (scope_parts self.new) (with_sort (scope_parts self.old) (parts_of_token name.now)) }
    {
        self.may_declare(name, self.sorts, MAX_SORTS)?;
        self.names.insert(name.text, Meaning::SortName(self.sorts))?;
        self.sorts += 1;
        Ok(())
    }

    pub(crate) fn declare_variable(&mut self, sort: Sort, name: &Token) -> Result<(), TextFault>
        ensures { Does (Unit {0}) result (scope_parts self.new) (with_variable (scope_parts self.old) sort (parts_of_token name.now)) }
    {
        self.may_declare(name, self.variables.len(), MAX_VARIABLES)?;
        self.names
            .insert(name.text, Meaning::Variable(self.variables.len()))?;
        append(&mut self.variables, sort)?;
        Ok(())
    }

    /// Checks that a function of this name may be declared.
    pub(crate) fn may_have_function(&self, name: &Token) -> Result<(), TextFault>
        ensures { result ≡ may_have_function (scope_parts self.now) (parts_of_token name.now) }
    {
        self.may_declare(name, self.functions.len(), MAX_FUNCTIONS)
    }

    pub(crate) fn declare_function(
        &mut self,
        name: &Token,
        result_sort: Sort,
        parameters: Vec<Sort>,
    ) -> Result<(), NoMemory>
        ensures { OnOk result (scope_parts self.new ≡ with_function (scope_parts self.old) (parts_of_token name.now) result_sort parameters.items) }
    {
        self.names
            .insert(name.text, Meaning::Function(self.functions.len()))?;
        let function = Function {
            result_sort,
            parameters,
        };
        append(&mut self.functions, function)
    }

    /// Checks that a graph of this name may be declared.
    pub(crate) fn may_have_graph(&self, name: &Token) -> Result<(), TextFault>
        ensures { result ≡ may_have_graph (scope_parts self.now) (parts_of_token name.now) }
    {
        self.may_declare(name, 0, 1)
    }

    /// Declares the name of the graph with this number.
    pub(crate) fn declare_graph(&mut self, name: &Token, number: usize) -> Result<(), NoMemory>
        ensures { OnOk result (scope_parts self.new ≡ with_graph_name (scope_parts self.old) (parts_of_token name.now) number) }
    {
        self.names.insert(name.text, Meaning::GraphName(number))
    }

    /// Declares sorts of these names, which are from the last to the first.
    #[tactic(auto, using(flow_syntax::proofs::Stacked::pushes, crate::proofs::Declared::declarations, crate::proofs::LastTaken::last))]
    pub(crate) fn declare_sorts(&mut self, names: &[Token]) -> Result<(), TextFault>
        ensures { Does (Unit {0}) result (scope_parts self.new) (sorts_declared (scope_parts self.old) (tokens_syntax names.now)) }
    {
        let mut rest = names;
        'names: while let Some((name, _)) = rest.split_last() {
            self.declare_sort(name)?;
            rest = &rest[..rest.len() - 1];
        }
        Ok(())
    }

    /// Declares variables of these names, which are from the last to the first.
    #[tactic(auto, using(flow_syntax::proofs::Stacked::pushes, crate::proofs::Declared::declarations, crate::proofs::LastTaken::last))]
    pub(crate) fn declare_variables(&mut self, sort: Sort, names: &[Token]) -> Result<(), TextFault>
        ensures { Does (Unit {0}) result (scope_parts self.new) (variables_declared (scope_parts self.old) sort (tokens_syntax names.now)) }
    {
        let mut rest = names;
        'names: while let Some((name, _)) = rest.split_last() {
            self.declare_variable(sort, name)?;
            rest = &rest[..rest.len() - 1];
        }
        Ok(())
    }
}
