//! The short hypotheses that are likely to matter to pairs under tests: after each action, and if they have no action,
//! they depend only on tests that the tests of pairs name. With fewer hypotheses there are fewer cases.
ghost use Rattle.std.specs.Prelude.{◌≡◌};
ghost use Rattle.cert_checker.specs.NodeTables.{ArePrimsBelow, tables_of};

use crate::queried::{add_tests_of, with_parts};
use crate::tables::Tables;
use certificate::{Cert, TestNode};
use kat_model::NoMemory;
use std::alloc::Global;
use std::collections::BTreeSet;

// Returns the primitive tests among these tests.
fn prims_among(alloc: Global, nodes: &[TestNode], tests: &[usize]) -> Result<Vec<usize>, NoMemory> {
    let mut prims = Vec::new(alloc);
    for test in tests {
        if let Some(TestNode::Prim(k)) = nodes.get(*test) {
            prims.push(*k)?;
        }
    }
    Ok(prims)
}

// Returns the primitive tests that the tests of pairs name. The tables have only the nodes of the certificate.
fn queried_prims(tables: &Tables, cert: &Cert) -> Result<Vec<usize>, NoMemory>
    requires { tables.now ≡ tables_of tables.now.width cert.now }
{
    let mut tests = BTreeSet::new(tables.alloc());
    add_tests_of(&mut tests, cert.pairs())?;
    let queried = with_parts(tables, tests)?;
    prims_among(tables.alloc(), cert.test_nodes(), &queried)
}

/// Returns the primitive tests that the tests of pairs name. All are below `width`.
pub(crate) fn queried_tests(
    alloc: Global,
    cert: &Cert,
    width: usize,
) -> Result<Vec<usize>, NoMemory>
    requires { ArePrimsBelow width cert.now.test_nodes }
{
    let tables = Tables::of(alloc, cert, width)?;
    queried_prims(&tables, cert)
}
