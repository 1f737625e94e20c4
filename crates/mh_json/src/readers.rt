//! The readers of parts of an input for other crates.
//!
//! Each returns the result of its part's specification for the same value: the part, or the first
//! fault in the order of reading with its place. Any of them may fail with `NoMemory`.
pub use crate::json::claim::Claim;
pub use crate::json::declarations::Declarations;
pub use crate::json::plan::{read_plan_at, read_plan_value};
pub use crate::json::points::{point_names, read_points};
pub use crate::json::problem::{ProblemRows, read_problem_at, read_rows};
pub use crate::json::scope::{Scope, Shared};
pub use crate::json::script::{read_definition, read_script_value};
pub use crate::json::shape::{count, each, list, member, part, place, text};
pub use crate::json::shared::{read_shared, read_shared_trees};
pub use crate::json::sites::{Sited, read_site, read_site_list};
pub use crate::json::trees::{read_declared, read_filter_or_none, read_tree};
pub use crate::json::values::{read_type, read_value};
pub use crate::json::versions::{most_links, read_version};
pub use crate::json::{parse_json, read_json};
