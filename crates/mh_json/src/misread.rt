//! Why a part of an input could not be read, and its place.
ghost use Rattle.std.specs.Prelude.{◌≡◌, ◌⊎◌, ◌∷◌, Some, Result, IfOk};
ghost use Rattle.mh_json.specs.Misreads.{path_of, MisreadData, here, behind, err_of, under};
ghost use Rattle.mh_json.specs.declared.fault.InputFault.TheVariants.{BadShape, BadValue, NoMemory as out_of_memory};
ghost use Rattle.mh_json.specs.Gives.{Gives};

use crate::fault::{Fault, InputFault};
use crate::json::wanted::Wanted;
use crate::key::Key;
use mh_core::NoMemory;
use mh_network::ProblemFault;
use mh_tree::TreeFault;
use mh_type::TypeFault;
use std::alloc::{AllocError, AllocFailed, Global};
use std::marker::Model;

/// The first fault of an input in the order of reading, and the part that has it.
#[derive(Debug, Drop)]
pub struct Misread {
    fault: InputFault,
    /// The keys that lead to the part, the innermost first. Empty for the whole input.
    keys: Option<Vec<Key>>,
    wanted: Wanted,
}

impl Model for Misread {
    ghost use Rattle.mh_json.specs.Misreads.{MisreadData};

    ghost Value = { MisreadData };

    ghost use Rattle.mh_json.specs.Misreads.{misread_data};

    ghost view = { misread_data };
}

impl Misread {
    /// Makes a fault of the part as a whole.
    pub fn of(fault: InputFault) -> Misread
        ensures value { result ≡ here fault }
    {
        Misread::wanting(fault, Wanted::Nothing)
    }

    /// Makes a fault of the part as a whole, for which this form was expected.
    pub(crate) fn wanting(fault: InputFault, wanted: Wanted) -> Misread
        ensures value { result ≡ here fault }
    {
        Misread {
            fault,
            keys: None,
            wanted,
        }
    }

    /// Makes the fault of a part that does not have the expected form.
    pub(crate) fn bad_shape(wanted: Wanted) -> Misread
        ensures value { result ≡ here BadShape }
    {
        Misread::wanting(InputFault::BadShape, wanted)
    }

    /// Returns the fault.
    pub fn fault(&self) -> InputFault
        ensures value { result ≡ self.now.fault }
    {
        self.fault
    }

    /// Makes the fault of a value that does not have the expected kind.
    pub(crate) fn bad_value(wanted: Wanted) -> Misread
        ensures value { result ≡ here BadValue }
    {
        Misread::wanting(InputFault::BadValue, wanted)
    }

    /// Returns the expected form of the part, as far as it is known. It is for messages only.
    pub fn wanted(&self) -> Wanted {
        self.wanted
    }

    /// Returns the keys that lead to the part, the outermost first.
    pub fn into_path(self, alloc: Global) -> Vec<Key>
        ensures value { result.items ≡ self.path }
    {
        let mut keys = self.keys.unwrap_or_else(|| Vec::new(alloc));
        keys.reverse();
        keys
    }

    /// Returns the fault with a further key, that of the part in the value that contains it.
    pub(crate) fn behind(self, alloc: Global, key: Key) -> Misread
        ensures value { (result.fault ≡ out_of_memory) ⊎ (result ≡ behind key self) }
    {
        let Misread {
            fault,
            keys,
            wanted,
        } = self;
        match longer(alloc, keys, key) {
            Ok(keys) => Misread {
                fault,
                keys: Some(keys),
                wanted,
            },
            Err(_) => Misread::of(InputFault::NoMemory),
        }
    }
}

/// Returns the keys with one more appended.
fn longer(alloc: Global, keys: Option<Vec<Key>>, key: Key) -> Result<Vec<Key>, AllocError>
    ensures value { IfOk result (λ longer. path_of (Some longer) ≡ key ∷ path_of keys) }
{
    let mut longer = keys.unwrap_or_else(|| Vec::new(alloc));
    longer.push(key)?;
    Ok(longer)
}

/// Returns the result of reading the member at a key. A fault gets the key.
pub(crate) fn at<T: Drop>(alloc: Global, key: Key, read: Result<T, Misread>) -> Result<T, Misread>
    ensures value { (f : Result T MisreadData) → Gives (λ x. x) read f
        → Gives (λ x. x) result (under key f) }
{
    match read {
        Ok(value) => Ok(value),
        Err(misread) => Err(misread.behind(alloc, key)),
    }
}

/// Returns the fault of a reading, or `None` if it has none.
pub(crate) fn misread_of<T: Drop>(read: Result<T, Misread>) -> Result<Option<Misread>, NoMemory>
    ensures value { (f : Result T MisreadData) → Gives (λ x. x) read f
        → IfOk result (λ found. found ≡ err_of f) }
{
    match read {
        Ok(_) => Ok(None),
        Err(misread) => {
            if let InputFault::NoMemory = misread.fault() {
                return Err(NoMemory);
            }
            Ok(Some(misread))
        }
    }
}

impl From<InputFault> for Misread {
    ghost use Rattle.std.specs.Prelude.{◌≡◌};
    ghost use Rattle.mh_json.specs.Misreads.{here};

    ghost from_gives = { λ cause e. e ≡ here cause };

    fn from(cause: InputFault) -> Misread {
        Misread::of(cause)
    }
}

impl From<AllocError> for Misread {
    ghost use Rattle.std.specs.Prelude.{◌≡◌};
    ghost use Rattle.mh_json.specs.declared.fault.InputFault.TheVariants.{NoMemory};

    ghost from_gives = { λ _ e. e.fault ≡ NoMemory };

    fn from(_e: AllocError) -> Misread {
        Misread::of(InputFault::NoMemory)
    }
}

impl<T: Drop> From<AllocFailed<T>> for Misread {
    ghost use Rattle.std.specs.Prelude.{◌≡◌};
    ghost use Rattle.mh_json.specs.declared.fault.InputFault.TheVariants.{NoMemory};

    ghost from_gives = { λ _ e. e.fault ≡ NoMemory };

    fn from(_e: AllocFailed<T>) -> Misread {
        Misread::of(InputFault::NoMemory)
    }
}

impl From<NoMemory> for Misread {
    ghost use Rattle.std.specs.Prelude.{◌≡◌};
    ghost use Rattle.mh_json.specs.declared.fault.InputFault.TheVariants.{NoMemory};

    ghost from_gives = { λ _ e. e.fault ≡ NoMemory };

    fn from(_e: NoMemory) -> Misread {
        Misread::of(InputFault::NoMemory)
    }
}

impl From<TreeFault> for Misread {
    ghost use Rattle.std.specs.Prelude.{◌≡◌};
    ghost use Rattle.mh_json.specs.Gives.{of_tree};
    ghost use Rattle.mh_json.specs.Misreads.{here};

    ghost from_gives = { λ cause e. e ≡ here (of_tree cause) };

    fn from(cause: TreeFault) -> Misread {
        Misread::of(InputFault::from(cause))
    }
}

impl From<TypeFault> for Misread {
    ghost use Rattle.std.specs.Prelude.{◌≡◌};
    ghost use Rattle.mh_json.specs.Gives.{of_type};
    ghost use Rattle.mh_json.specs.Misreads.{here};

    ghost from_gives = { λ cause e. e ≡ here (of_type cause) };

    fn from(cause: TypeFault) -> Misread {
        Misread::of(InputFault::from(cause))
    }
}

impl From<ProblemFault> for Misread {
    ghost use Rattle.std.specs.Prelude.{◌≡◌};
    ghost use Rattle.mh_json.specs.Gives.{of_problem};
    ghost use Rattle.mh_json.specs.Misreads.{here};

    ghost from_gives = { λ cause e. e ≡ here (of_problem cause) };

    fn from(cause: ProblemFault) -> Misread {
        Misread::of(InputFault::from(cause))
    }
}

impl From<Misread> for Fault {
    ghost use Rattle.std.specs.Prelude.{◌≡◌};
    ghost use Rattle.mh_json.specs.declared.fault.TextFault.TheVariants.{Input};

    ghost from_gives = { λ misread e. e ≡ record { kind = Input misread.fault; at = 0 } };

    fn from(misread: Misread) -> Fault {
        Fault::from(misread.fault())
    }
}
