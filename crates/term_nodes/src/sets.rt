//! Sets of nodes as ascending lists of their numbers.
ghost use Rattle.std.specs.Prelude.{◌≡◌};
ghost use Rattle.term_nodes.specs.NumberSets.{are_ascending};

/// Whether each number is below the next.
pub fn is_ascending(numbers: &[usize]) -> bool
    ensures { result ≡ are_ascending numbers.now }
{
    numbers.is_sorted_by(|a, b| *a < *b)
}
