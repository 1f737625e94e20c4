//! Faults of making a cache.

ghost use Rattle.std.specs.Prelude.{◌≡◌, Ok, IfOk, IfErr};

use mh_base::NoMemory;
use mh_tree::TreeFault;

// Returns the result of a constructor whose tests all pass: it can only fail for lack of memory.
pub(crate) fn expect_made<T>(built: Result<T, TreeFault>) -> Result<T, NoMemory>
    requires passed { IfErr built (λ e. e ≡ TreeFault.NoMemory) }
    ensures value { IfOk result (λ h. built ≡ Ok h) }
{
    match built {
        Ok(handle) => Ok(handle),
        Err(TreeFault::NoMemory) => Err(NoMemory),
        Err(_) => unreachable!(),
    }
}
