//! Laws about types that cross threads.

ghost use Rattle.mh_site.specs.Laws.Crossing.{WorldsCross};

use mh_code::code_crosses_threads;
use mh_tree::trees_cross_threads;
use mh_type::values_cross_threads;

/// Proves that definitions, worlds and controls can be sent to another thread and shared between
/// threads.
pub fn worlds_cross_threads()
    ensures worlds { WorldsCross }
{
    trees_cross_threads();
    code_crosses_threads();
    values_cross_threads();
}
