//! Code under construction.

ghost use Rattle.std.specs.Prelude.{◌≡◌, IfOk};
ghost use Rattle.std.specs.Arc.{arc_value};
ghost use Rattle.mh_code.specs.PieceOf.{routine_of, routine_of_code};

use crate::code::{Code, Piece};
use mh_base::NoMemory;
use std::alloc::Global;
use std::sync::Arc;

// The number of pieces of one code that may be dropped by one another. Code may contain other code,
// at most as deeply as a handle is.
const FEW: usize = 256;

/// The pieces that were made so far, in order.
#[derive(Drop)]
pub(crate) struct Made {
    alloc: Global,
    pieces: Vec<Arc<Piece>>,
}

impl Made {
    // Returns an empty list of pieces.
    pub(crate) fn new(alloc: Global) -> Made {
        Made {
            alloc,
            pieces: Vec::new(alloc),
        }
    }

    // Returns the allocator.
    pub(crate) fn alloc(&self) -> Global {
        self.alloc
    }

    // Adds a piece, and returns an owner of it.
    pub(crate) fn add(&mut self, piece: Piece) -> Result<Arc<Piece>, NoMemory>
        ensures value { IfOk result (λ a. arc_value a ≡ piece) }
    {
        let made = own(self.alloc, piece)?;
        let kept = Arc::try_clone(&made).map_err(|_| NoMemory)?;
        self.pieces.push(kept).map_err(|_| NoMemory)?;
        Ok(made)
    }

    // Returns the code that begins with a piece.
    pub(crate) fn finish(self, entry: Arc<Piece>) -> Result<Arc<Code>, NoMemory>
        ensures value { IfOk result (λ c. routine_of_code (arc_value c)
            ≡ routine_of (arc_value entry)) }
    {
        let Made { alloc, pieces } = self;
        let owners = if pieces.len() > FEW {
            last_first(alloc, pieces)?
        } else {
            Vec::new(alloc)
        };
        Code::with_owners(alloc, entry, owners)
    }
}

// Returns an owner of a piece.
pub(crate) fn own(alloc: Global, piece: Piece) -> Result<Arc<Piece>, NoMemory>
    ensures value { IfOk result (λ a. arc_value a ≡ piece) }
{
    Arc::new(alloc, piece).map_err(|_| NoMemory)
}

// Returns the pieces in reverse order.
fn last_first(alloc: Global, mut pieces: Vec<Arc<Piece>>) -> Result<Vec<Arc<Piece>>, NoMemory> {
    let mut turned = Vec::with_capacity(alloc, pieces.len()).map_err(|_| NoMemory)?;
    while let Some(piece) = pieces.pop() {
        turned.push(piece).map_err(|_| NoMemory)?;
    }
    Ok(turned)
}
