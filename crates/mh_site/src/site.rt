//! Call sites.

use crate::link::Link;
use crate::name::Name;
use mh_base::Listing;
use mh_tree::Declared;
use mh_type::MethodType;

/// A mutable call site (`java.lang.invoke.MutableCallSite`, Java SE 17): its type, and the tree
/// that it runs when its world is opened.
#[derive(Debug, Drop)]
pub struct Site {
    /// The name: 1 to 64 bytes in a definition, and different from those of all other sites.
    pub name: Name,
    /// The type, which is that of each tree of the site.
    pub method_type: MethodType,
    /// The level, at most 3 in a definition: the site's trees invoke only sites of lower levels.
    pub level: u64,
    /// The key position: the index, from 0, of the parameter that the keys of the links are
    /// compared with. It may be `None` if the site has no links.
    pub key: Option<usize>,
    /// The tree, of the site's type. It names only points of the definition, and invokes only sites
    /// of lower levels, with their types.
    pub target: Declared,
    /// The links: at most 4 in a definition.
    pub links: Listing<Link>,
}
