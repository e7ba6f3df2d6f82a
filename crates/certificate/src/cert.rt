//! Certificates.
ghost use Rattle.std.specs.Prelude.{◌≡◌};
ghost use Rattle.certificate.specs.Certs.{cert_of, IsCert};

use crate::nodes::{Pair, Style, TermNode, TestNode};
use std::marker::Model;

/// A certificate that two terms are the same: nodes of tests and terms, and pairs of sets of terms. A node names only
/// earlier nodes of its list; `Test` names a test node. No node occurs twice in a list. The sets of a pair name term
/// nodes, in strictly ascending order. The test of a pair names a test node in the style `Under`; in the other styles a
/// pair has no test.
pub struct Cert {
    style: Style,
    test_nodes: Vec<TestNode>,
    term_nodes: Vec<TermNode>,
    pairs: Vec<Pair>,
}

// Explicit, so that it is proved once and not at each end of each function that owns one.
impl Drop for Cert {
    fn drop(self) {
        let Cert {
            style: _,
            test_nodes: _test_nodes,
            term_nodes: _term_nodes,
            pairs: _pairs,
        } = self;
    }
}

impl Model for Cert {
    ghost use Rattle.certificate.specs.Certs.{CertParts, cert_of, IsCert};

    ghost Value = { CertParts };

    ghost view = { λ c. cert_of c.style c.test_nodes.items c.term_nodes.items c.pairs.items };

    ghost invariant = { λ c. IsCert (cert_of c.style c.test_nodes.items c.term_nodes.items c.pairs.items) };
}

impl Cert {
    /// Builds the certificate of these parts, which must keep its rules. Allocates no memory.
    pub fn of_parts(
        style: Style,
        test_nodes: Vec<TestNode>,
        term_nodes: Vec<TermNode>,
        pairs: Vec<Pair>,
    ) -> Cert
        requires { IsCert (cert_of style test_nodes.items term_nodes.items pairs.items) }
        ensures { result ≡ cert_of style test_nodes.items term_nodes.items pairs.items }
    {
        Cert {
            style,
            test_nodes,
            term_nodes,
            pairs,
        }
    }

    /// Returns how the listed pairs determine the successors of a pair.
    pub fn style(&self) -> Style
        ensures value { result ≡ self.now.style }
        ensures rules { IsCert self.now }
    {
        self.style
    }

    /// Returns the test nodes.
    pub fn test_nodes(&self) -> &[TestNode]
        ensures value { result.now ≡ self.now.test_nodes }
        ensures rules { IsCert self.now }
    {
        &self.test_nodes
    }

    /// Returns the term nodes.
    pub fn term_nodes(&self) -> &[TermNode]
        ensures value { result.now ≡ self.now.term_nodes }
        ensures rules { IsCert self.now }
    {
        &self.term_nodes
    }

    /// Returns the pairs of sets of terms. In an accepted certificate the first is that of both sides.
    pub fn pairs(&self) -> &[Pair]
        ensures value { result.now ≡ self.now.pairs }
        ensures rules { IsCert self.now }
    {
        &self.pairs
    }
}
