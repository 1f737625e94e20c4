//! Runs of the flow.

ghost use Rattle.std.specs.Prelude.{◌≡◌, ◌<◌, ◌+◌, ◌^◌, ◌↔◌, length, ℕ, IfOk, OnOk, OnErr, IsTrue, MatchBool};
ghost use Rattle.std.specs.List.Sorted.{IsStrictlyIncreasing};
ghost use Rattle.mh_network.specs.Problems.{gain_of};
ghost use Rattle.mh_network.specs.Selection.{member};
ghost use Rattle.mh_flow.specs.Carried.{carried, number_at};
ghost use Rattle.mh_flow.specs.Charged.{paid_charges, paid_of};
ghost use Rattle.mh_flow.specs.Distances.{AreDistances};
ghost use Rattle.mh_flow.specs.LayerData.{HasNoLevels, IsLayerRun, IsSameFlow, IsEnd, IsPathPushed, IsSinkLevel};
ghost use Rattle.mh_flow.specs.Paths.{IsPath, room};
ghost use Rattle.mh_flow.specs.Levels.{far, IsLower};
ghost use Rattle.mh_flow.specs.Phases.{IsSentAlong};
ghost use Rattle.mh_flow.specs.Run.{IsLayered, is_reached, positive_rows};
ghost use Rattle.mh_flow.specs.inner.Spent.{IsPhase, IsSpent};

use crate::levels::{UNREACHED, levels_from, sink_level, unreached};
use crate::need_row::NeedRow;
use crate::outcome::{paid_charges, positive, reached_links};
use crate::path::Path;
use crate::push::push_along;
use crate::row_index::RowIndex;
use crate::search::{Places, find_path};
use crate::start::{costs, gains, need_rows};
use mh_base::NoMemory;
use mh_network::{Problem, needs_are_of_links};
use std::alloc::Global;
use std::fmt;
use std::marker::Model;

/// A run of the layered flow (Dinitz 1970).
#[derive(Drop)]
pub struct LayerRun<'p> {
    alloc: Global,
    problem: &'p Problem,
    rows: Vec<NeedRow>,
    index: RowIndex,
    gain_left: Vec<u64>,
    cost_left: Vec<u64>,
    links: Vec<u32>,
    points: Vec<u32>,
    sink: u32,
    phases: u64,
}

impl<'p> Model for LayerRun<'p> {
    ghost use Rattle.mh_flow.specs.LayerData.{LayerData};

    ghost Value = { LayerData };

    ghost use Rattle.mh_flow.specs.LayerData.{layer_data, IsKept};

    ghost view = { layer_data };

    ghost invariant = { IsKept };
}

/// Shows the number of phases so far.
impl<'p> fmt::Debug for LayerRun<'p> {
    fn fmt<W: fmt::Write>(&self, f: &mut fmt::Formatter<W>) -> fmt::Result {
        write!(f, "LayerRun({} phases)", self.phases)
    }
}

/// A maximum flow, the links that its source reaches, and the number of phases that it took.
#[derive(Debug, Drop)]
pub struct FlowRun {
    rows: Vec<(u32, u32, u64)>,
    charges: Vec<(u32, u64)>,
    reached: Vec<u32>,
    phases: u64,
}

impl Model for FlowRun {
    ghost use Rattle.mh_flow.specs.FlowData.{FlowData};

    ghost Value = { FlowData };

    ghost view = { λ a. record {
      rows = a.rows.items;
      charges = a.charges.items;
      reached = a.reached.items;
      phases = a.phases;
    } };
}

impl FlowRun {
    /// Returns the positive amounts that the flow carries from a link to a point.
    pub fn rows(&self) -> &[(u32, u32, u64)]
        ensures value { result.now ≡ self.now.rows }
    {
        self.rows.as_slice()
    }

    /// Returns the positive amounts that links pay of their charges.
    pub fn charges(&self) -> &[(u32, u64)]
        ensures value { result.now ≡ self.now.charges }
    {
        self.charges.as_slice()
    }

    /// Returns the links that the source reaches, ascending.
    pub fn reached(&self) -> &[u32]
        ensures value { result.now ≡ self.now.reached }
    {
        self.reached.as_slice()
    }

    /// Returns how often levels were built.
    pub fn phases(&self) -> u64
        ensures value { result ≡ self.now.phases }
    {
        self.phases
    }
}

impl<'p> LayerRun<'p> {
    /// Returns a run in which each link pays as much of its charge as its gain allows, and nothing
    /// else, with no level built.
    pub fn new(alloc: Global, problem: &'p Problem) -> Result<LayerRun<'p>, NoMemory>
        ensures problem { IfOk result (λ run. run.problem ≡ problem.now) }
        ensures levels { IfOk result HasNoLevels }
        ensures phases { IfOk result (λ run. run.phases ≡ 0) }
        ensures idle { IfOk result (λ run. carried run.rows ≡ 0) }
        ensures paid { IfOk result (λ run. (j : ℕ) → j < length run.gain_left
            → number_at run.gain_left j + paid_of problem.now j ≡ gain_of problem.now j) }
        ensures kept { IfOk result (λ run. IsLayerRun run) }
    {
        needs_are_of_links();
        let rows = need_rows(alloc, problem)?;
        let index = RowIndex::new(alloc, &rows, problem.links(), problem.points())?;
        let gain_left = gains(alloc, problem)?;
        let cost_left = costs(alloc, problem)?;
        let links = unreached(alloc, problem.links())?;
        let points = unreached(alloc, problem.points())?;
        Ok(LayerRun {
            alloc,
            problem,
            rows,
            index,
            gain_left,
            cost_left,
            links,
            points,
            sink: UNREACHED,
            phases: 0,
        })
    }

    /// Builds the level of each link and point and of the sink, which is its distance from the
    /// source over edges with residual capacity, and counts one more phase.
    pub fn build_levels(&mut self) -> Result<(), NoMemory>
        requires count { self.old.phases + 1 < 2 ^ 64 }
        ensures distances { OnOk result (AreDistances self.new) }
        ensures layered { OnOk result (IsLayered self.new.rows self.new.gain_left self.new.links
            self.new.points) }
        ensures sink { OnOk result (IsSinkLevel self.new.cost_left self.new.points self.new.sink) }
        ensures phases { OnOk result (self.new.phases ≡ self.old.phases + 1) }
        ensures same { IsSameFlow self.new self.old }
        ensures kept { IsLayerRun self.new }
        ensures refused { OnErr result (self.new ≡ self.old) }
    {
        let (links, points) = levels_from(
            self.alloc,
            &self.rows,
            &self.index,
            &self.gain_left,
            self.cost_left.len(),
        )?;
        self.sink = sink_level(&self.cost_left, &points);
        self.links = links;
        self.points = points;
        self.phases += 1;
        Ok(())
    }

    /// Returns whether the sink has a level.
    pub fn reaches_sink(&self) -> bool
        ensures value { IsTrue result ↔ (self.now.sink < far) }
    {
        self.sink < UNREACHED
    }

    /// Pushes the least residual capacity of a path's edges along the path, which changes only the
    /// rows of the path.
    pub fn push_path(&mut self, path: &Path)
        requires path { IsPath self.old.rows self.old.gain_left (number_at self.old.links)
            (number_at self.old.points) path.now.point path.now.turns.items path.now.first }
        requires inside { path.now.point < length self.old.points }
        requires end { IsEnd self.old path.now.point }
        ensures pushed { IsPathPushed self.old self.new path.now.point }
        ensures least { carried self.new.rows ≡ carried self.old.rows + room self.old.rows
            self.old.gain_left (number_at self.old.cost_left path.now.point) path.now.turns.items
            path.now.first }
        ensures sent { IsSentAlong self.old self.new path.now.point path.now.turns.items
            path.now.first }
        ensures kept { IsLayerRun self.new }
    {
        needs_are_of_links();
        let amount = push_along(
            &mut self.rows,
            &mut self.gain_left,
            &self.links,
            &self.points,
            &path.turns,
            path.first,
            path.point as u32,
            self.cost_left[path.point],
        );
        self.cost_left[path.point] -= amount;
    }

    /// Returns the flow, the links that have a level, ascending, and the number of phases.
    pub fn finish(self) -> Result<FlowRun, NoMemory>
        ensures rows { IfOk result (λ run. run.rows ≡ positive_rows self.entry.rows) }
        ensures charges { IfOk result (λ run. run.charges ≡ paid_charges self.entry.problem) }
        ensures reached { IfOk result (λ run. (j : ℕ)
            → member run.reached j ≡ is_reached self.entry.links j) }
        ensures ascending { IfOk result (λ run. IsStrictlyIncreasing run.reached) }
        ensures phases { IfOk result (λ run. run.phases ≡ self.entry.phases) }
    {
        Ok(FlowRun {
            rows: positive(self.alloc, &self.rows)?,
            charges: paid_charges(self.alloc, self.problem)?,
            reached: reached_links(self.alloc, &self.links)?,
            phases: self.phases,
        })
    }

    /// Returns the number of points.
    pub(crate) fn points(&self) -> usize
        ensures count { result ≡ length self.now.points }
        ensures kept { IsLayerRun self.now }
    {
        self.points.len()
    }

    /// Returns whether a point has residual capacity and its edge to the sink leads to the next
    /// level.
    pub(crate) fn is_end(&self, point: usize) -> bool
        requires inside { point < length self.now.points }
        ensures value { IsTrue result ↔ IsEnd self.now point }
    {
        self.points[point] < self.sink
            && self.points[point] + 1 == self.sink
            && self.cost_left[point] > 0
    }

    /// Returns the last row of each link and each point, from which a phase begins.
    pub(crate) fn places(&self) -> Result<Places, NoMemory>
        ensures spent { IfOk result (λ p. IsSpent self.now.rows self.now.gain_left self.now.links
            self.now.points p.links.items p.points.items) }
        ensures kept { IsLayerRun self.now }
    {
        Ok(Places {
            links: self.index.by_link.last.as_slice().to_vec(self.alloc)?,
            points: self.index.by_point.last.as_slice().to_vec(self.alloc)?,
        })
    }

    /// Returns an empty path to the first point.
    pub(crate) fn path(&self) -> Path {
        Path {
            point: 0,
            turns: Vec::new(self.alloc),
            first: 0,
        }
    }

    /// Finds a path to the path's point, and returns whether there is one.
    pub(crate) fn search(&self, places: &mut Places, path: &mut Path) -> Result<bool, NoMemory>
        requires phase { IsPhase self.now.rows self.now.gain_left self.now.links self.now.points }
        requires spent { IsSpent self.now.rows self.now.gain_left self.now.links self.now.points
            places.old.links.items places.old.points.items }
        requires inside { path.old.point < length self.now.points }
        requires reached { number_at self.now.points path.old.point < far }
        ensures point { path.new.point ≡ path.old.point }
        ensures spent { OnOk result (IsSpent self.now.rows self.now.gain_left self.now.links
            self.now.points places.new.links.items places.new.points.items) }
        ensures lower { OnOk result (IsLower places.old.points.items places.new.points.items) }
        ensures found { IfOk result (λ b. MatchBool b
            (IsPath self.now.rows self.now.gain_left (number_at self.now.links)
            (number_at self.now.points) path.old.point path.new.turns.items path.new.first)
            (number_at places.new.points.items path.old.point ≡ 0)) }
    {
        let found = find_path(
            &self.rows,
            &self.index,
            &self.gain_left,
            &self.links,
            &self.points,
            &mut places.links,
            &mut places.points,
            path.point,
            &mut path.turns,
        )?;
        match found {
            Some(first) => {
                path.first = first;
                Ok(true)
            }
            None => Ok(false),
        }
    }
}
