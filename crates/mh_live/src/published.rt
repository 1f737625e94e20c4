//! The published values: a world, and the list whose replay it is.

use crate::front::Past;
use left_right::Absorb;
use mh_site::{Control, World};
use std::alloc::AllocError;
use std::collections::LinkedList;

/// A world and its list of controls. There are two of them, and calls read one.
#[derive(Drop)]
pub struct Published {
    pub world: World,
    pub past: Past,
}

/// A control, and the list that ends with it: the two steps of a change.
#[derive(Drop)]
pub enum Publication {
    Change(Control),
    Stamp(Past),
}

/// The history of a reader: the list of each world that it entered, newest first. No value of it
/// exists at run time.
pub struct View {
    pub entered: LinkedList<LinkedList<Control>>,
}

impl Absorb<Publication> for Published {
    ghost use Rattle.mh_live.specs.Steps.{stepped};

    type State = Published;

    ghost state = { λ p. p };

    ghost applied = { stepped };

    fn absorb_first(
        &mut self,
        operation: &Publication,
        _other: &Published,
    ) -> Result<(), AllocError> {
        match operation {
            Publication::Change(control) => self.world.try_absorb(control).map_err(|_| AllocError),
            Publication::Stamp(past) => {
                self.past = past.again();
                Ok(())
            }
        }
    }

    fn absorb_second(
        &mut self,
        operation: Publication,
        _other: &Published,
    ) -> Result<(), Publication> {
        match operation {
            Publication::Change(control) => {
                if self.world.front() == u64::MAX {
                    return Err(Publication::Change(control));
                }
                self.world.absorb(control);
                Ok(())
            }
            Publication::Stamp(past) => {
                self.past = past;
                Ok(())
            }
        }
    }
}
