//! Testing whether arguments fit a type.

ghost use Rattle.std.specs.Prelude.{◌↔◌, IsTrue};
ghost use Rattle.mh_type.specs.Fits.{Fits};

use mh_type::{MethodType, Value, have_kinds};

/// Returns whether there is one argument for each parameter, of its kind.
pub fn fits(method_type: &MethodType, arguments: &[Value]) -> bool
    ensures decides { IsTrue result ↔ Fits method_type.now arguments.now }
{
    have_kinds(arguments, method_type.parameters())
}
