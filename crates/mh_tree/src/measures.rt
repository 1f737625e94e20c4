//! The measures of a tree: its depth, its size, its point bound and its site bound.

ghost use Rattle.std.specs.Prelude.{◌≡◌, ◌+◌, ◌≤◌, ◌<◌, max};
ghost use Rattle.mh_tree.specs.Limits.{depth, size, point_bound, site_bound, deepest, total_size, greatest_bound, greatest_site, most_nodes, greatest_depth};
ghost use Rattle.mh_tree.specs.Tree.{filters_of};
ghost use Rattle.mh_tree.specs.TreeOf.{tree_of, filter_trees};

use crate::node::Node;
use std::sync::Arc;

// The depth, the size, the point bound and the site bound of a tree, or of several.
#[derive(Clone, Copy)]
pub(crate) struct Measures {
    pub(crate) depth: usize,
    pub(crate) size: usize,
    pub(crate) point_bound: usize,
    pub(crate) site_bound: usize,
}

impl Measures {
    // Returns the measures of no tree.
    fn nothing() -> Measures
        ensures value { result ≡ record { depth = 0; size = 0; point_bound = 0; site_bound = 0 } }
    {
        Measures {
            depth: 0,
            size: 0,
            point_bound: 0,
            site_bound: 0,
        }
    }

    // Returns the measures of these trees and others together.
    fn and(self, others: Measures) -> Measures
        requires few { self.size + others.size ≤ most_nodes }
        ensures value { result ≡ record {
          depth = max self.depth others.depth;
          size = self.size
              + others.size;
          point_bound = max self.point_bound others.point_bound;
          site_bound = max self.site_bound others.site_bound;
        } }
    {
        Measures {
            depth: self.depth.max(others.depth),
            size: self.size + others.size,
            point_bound: self.point_bound.max(others.point_bound),
            site_bound: self.site_bound.max(others.site_bound),
        }
    }

    // Returns the measures of a node with these children.
    fn over(self) -> Measures
        requires few { self.size < most_nodes }
        requires shallow { self.depth < greatest_depth }
        ensures value { result ≡ record {
          depth = 1 + self.depth;
          size = 1
              + self.size;
          point_bound = self.point_bound;
          site_bound = self.site_bound;
        } }
    {
        Measures {
            depth: 1 + self.depth,
            size: 1 + self.size,
            point_bound: self.point_bound,
            site_bound: self.site_bound,
        }
    }

    // Returns the measures of a point with these children.
    fn over_point(self, point: u32) -> Measures
        requires few { self.size < most_nodes }
        requires shallow { self.depth < greatest_depth }
        ensures value { result ≡ record {
          depth = 1 + self.depth;
          size = 1
              + self.size;
          point_bound = max (point + 1) self.point_bound;
          site_bound = self.site_bound;
        } }
    {
        let Measures {
            depth,
            size,
            point_bound,
            site_bound,
        } = self.over();
        Measures {
            depth,
            size,
            point_bound: (point as usize + 1).max(point_bound),
            site_bound,
        }
    }

    // Returns the measures of an invocation.
    fn of_site(site: u32) -> Measures
        ensures value { result ≡ record {
          depth = 1;
          size = 1;
          point_bound = 0;
          site_bound = site + 1;
        } }
    {
        Measures {
            depth: 1,
            size: 1,
            point_bound: 0,
            site_bound: site as usize + 1,
        }
    }
}

/// Returns the measures of a node's tree. Linear in its size.
#[cycle(measures)]
pub(crate) fn measure(node: &Node) -> Measures
    requires shallow { depth (tree_of node.now) ≤ greatest_depth }
    requires small { size (tree_of node.now) ≤ most_nodes }
    ensures value { result ≡ record {
      depth = depth (tree_of node.now);
      size = size
          (tree_of node.now);
      point_bound = point_bound (tree_of node.now);
      site_bound = site_bound (tree_of node.now);
    } }
{
    match node {
        Node::Constant(_) | Node::Identity(_) | Node::Operation(_) => Measures::nothing().over(),
        Node::Insert { target, .. } | Node::Drop { target, .. } | Node::Permute { target, .. } => {
            measure(target).over()
        }
        Node::Filter {
            target,
            filters,
            ..
        } => measure(target).and(measure_filters(filters)).over(),
        Node::FilterReturn { target, filter } => measure(target).and(measure(filter)).over(),
        Node::Fold { target, combiner } => measure(target).and(measure(combiner)).over(),
        Node::Guard {
            test,
            target,
            fallback,
        } => {
            let branches = measure(target).and(measure(fallback));
            measure(test).and(branches).over()
        }
        Node::Point {
            point,
            target,
            fallback,
        } => measure(target).and(measure(fallback)).over_point(*point),
        Node::Invoke { site, .. } => Measures::of_site(*site),
    }
}

// Returns the measures of the filters that are present.
#[cycle(measures)]
fn measure_filters(filters: &[Option<Arc<Node>>]) -> Measures
    requires shallow { deepest (filters_of (filter_trees filters.now)) ≤ greatest_depth }
    requires small { total_size (filters_of (filter_trees filters.now)) ≤ most_nodes }
    ensures value { result ≡ record {
      depth = deepest
          (filters_of (filter_trees filters.now));
      size = total_size
          (filters_of (filter_trees filters.now));
      point_bound = greatest_bound
          (filters_of (filter_trees filters.now));
      site_bound = greatest_site
          (filters_of (filter_trees filters.now));
    } }
{
    let mut all = Measures::nothing();
    for filter in filters {
        if let Some(filter) = filter {
            all = all.and(measure(filter));
        }
    }
    all
}
