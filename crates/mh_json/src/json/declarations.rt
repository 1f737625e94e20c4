//! The definition of a script, and the names that its events may use.
ghost use Rattle.std.specs.Prelude.{◌≡◌};
ghost use Rattle.mh_site.specs.NamesInOrder.{place_of};
ghost use Rattle.mh_json.specs.Script.{parameters_at};

use crate::json::scope::Scope;
use mh_site::Definition;
use mh_type::Kind;

/// A definition, with the names of its points, shared trees and sites.
#[derive(Drop)]
pub struct Declarations {
    pub definition: Definition,
    pub scope: Scope,
}

impl Declarations {
    /// Returns the number of a site by its name, or one past the last number if no site has the
    /// name.
    pub fn site_number(&self, name: &str) -> usize
        ensures value { result ≡ place_of self.now.scope.sites name.now }
    {
        self.scope.sites.place(name)
    }

    /// Returns the parameters of a site, and none past the last site.
    pub fn parameters(&self, site: usize) -> &[Kind]
        ensures value { result.now ≡ parameters_at self.now.definition site }
    {
        if site < self.definition.sites().len() {
            self.definition.method_type(site).parameters()
        } else {
            &[]
        }
    }
}
