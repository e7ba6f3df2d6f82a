//! The reasons why a question of two graphs has no problem.
ghost use Rattle.std.specs.Prelude.{◌≡◌};
ghost use Rattle.flow_abstraction.specs.declared.fault.FlowFault.TheVariants.{NoMemory as NoRoom};
ghost use Rattle.flow_abstraction.specs.Working.Placed.{of_place_fault, of_way_fault, of_table_fault, of_split_fault, of_term_fault, of_hypothesis_fault};

use crate::hypothesis_fault::HypothesisFault;
use flow_edges::{SplitFault, TableFault};
use flow_places::{PlaceFault, TermFault};
use flow_ways::WayFault;
use kat_model::NoMemory;

/// The reason why a question of two graphs has no problem.
#[derive(Clone, Copy)]
pub enum FlowFault {
    /// Out of memory.
    NoMemory,
    /// A loop that is reached has no place.
    UncutLoop,
    /// There are more than `MAX_WAYS` ways from one place, before or after splits.
    TooManyPaths,
    /// A form on a way is too large.
    TooLarge,
    /// There are more than `MAX_TESTS` tests before the rounds.
    TooManyTests,
    /// There are more than `MAX_ACTIONS` actions.
    TooManyActions,
    /// There are more than `MAX_HYPS` hypotheses, or more than `MAX_TERM_NODES` nodes of hypotheses and terms, or of
    /// the terms between the places that are left after an elimination.
    ProblemTooLarge,
}

impl From<NoMemory> for FlowFault {
    ghost from_gives = { λ _ fault. fault ≡ NoRoom };

    fn from(_: NoMemory) -> Self {
        FlowFault::NoMemory
    }
}

impl From<PlaceFault> for FlowFault {
    ghost from_gives = { λ reason fault. fault ≡ of_place_fault reason };

    fn from(fault: PlaceFault) -> Self {
        match fault {
            PlaceFault::NoMemory => FlowFault::NoMemory,
            PlaceFault::UncutLoop => FlowFault::UncutLoop,
        }
    }
}

impl From<WayFault> for FlowFault {
    ghost from_gives = { λ reason fault. fault ≡ of_way_fault reason };

    fn from(fault: WayFault) -> Self {
        match fault {
            WayFault::NoMemory => FlowFault::NoMemory,
            WayFault::TooLarge => FlowFault::TooLarge,
            WayFault::TooManyPaths => FlowFault::TooManyPaths,
        }
    }
}

impl From<TableFault> for FlowFault {
    ghost from_gives = { λ reason fault. fault ≡ of_table_fault reason };

    fn from(fault: TableFault) -> Self {
        match fault {
            TableFault::NoMemory => FlowFault::NoMemory,
            TableFault::TooManyTests => FlowFault::TooManyTests,
            TableFault::TooManyActions => FlowFault::TooManyActions,
        }
    }
}

impl From<SplitFault> for FlowFault {
    ghost from_gives = { λ reason fault. fault ≡ of_split_fault reason };

    fn from(fault: SplitFault) -> Self {
        match fault {
            SplitFault::NoMemory => FlowFault::NoMemory,
            SplitFault::TooManyPaths => FlowFault::TooManyPaths,
        }
    }
}

impl From<TermFault> for FlowFault {
    ghost from_gives = { λ reason fault. fault ≡ of_term_fault reason };

    fn from(fault: TermFault) -> Self {
        match fault {
            TermFault::NoMemory => FlowFault::NoMemory,
            TermFault::TooLarge => FlowFault::ProblemTooLarge,
        }
    }
}

impl From<HypothesisFault> for FlowFault {
    ghost from_gives = { λ reason fault. fault ≡ of_hypothesis_fault reason };

    fn from(fault: HypothesisFault) -> Self {
        match fault {
            HypothesisFault::NoMemory => FlowFault::NoMemory,
            HypothesisFault::TooMany => FlowFault::ProblemTooLarge,
        }
    }
}
