//! Failures of scenarios. Their errors are not kept: with `Fail` of std, the proof of each scenario
//! would have to show them.

use mh_base::NoMemory;
use mh_eval::Unevaluated;
use mh_network::ProblemFault;
use mh_tree::TreeFault;
use mh_type::TypeFault;
use std::alloc::{AllocError, AllocFailed};

/// A scenario that returned nothing.
#[derive(Clone, Copy, Debug)]
pub(crate) struct Failed;

impl From<NoMemory> for Failed {
    fn from(_: NoMemory) -> Failed {
        Failed
    }
}

impl From<TreeFault> for Failed {
    fn from(_: TreeFault) -> Failed {
        Failed
    }
}

impl From<TypeFault> for Failed {
    fn from(_: TypeFault) -> Failed {
        Failed
    }
}

impl From<ProblemFault> for Failed {
    fn from(_: ProblemFault) -> Failed {
        Failed
    }
}

impl From<Unevaluated> for Failed {
    fn from(_: Unevaluated) -> Failed {
        Failed
    }
}

impl From<AllocError> for Failed {
    fn from(_: AllocError) -> Failed {
        Failed
    }
}

impl<T: Drop> From<AllocFailed<T>> for Failed {
    fn from(_: AllocFailed<T>) -> Failed {
        Failed
    }
}
