//! Laws of costs at each scale. The functions compute nothing.

ghost use Rattle.std.specs.Prelude.{ℕ, Bool, true, ◌*◌, ◌≤◌};
ghost use Rattle.mh_network.specs.declared.part.Part.{Part};
ghost use Rattle.mh_network.specs.Limits.{greatest_sum};
ghost use Rattle.mh_network.specs.Problems.{IsProblem, ProblemData, sum_of_costs};
ghost use Rattle.mh_network.specs.Blocks.{BlockJoins, BlocksSolve, BlocksSplit, IsBlock, ScaleBlocksJoin, scaled_block};
ghost use Rattle.mh_network.specs.Factors.{AreSure, IsWithinFactor};
ghost use Rattle.mh_network.specs.Scales.{DearerNest, IsCheaper, IsMostForCost, net_sum, scaled};
ghost use Rattle.mh_network.specs.Selection.{IsBest, IsLeast};

/// Proves that links that are least best if more is asked for their gains are chosen whenever less
/// is asked: so each link has one scale of costs up to which it is chosen (Gallo, Grigoriadis and
/// Tarjan 1989).
pub fn dearer_nest()
    ensures nest { (P : ProblemData) → (Q : ProblemData) → IsCheaper P Q → DearerNest P Q }
    ensures scales { (P : ProblemData) → (k : ℕ) → (m : ℕ) → k ≤ m → DearerNest (scaled P k)
        (scaled P m) }
{}

/// Proves that the least best links at a scale of 1000 thousandths of the costs are those of the
/// problem itself.
pub fn thousand_is_one()
    ensures there { (P : ProblemData) → (S : ℕ → Bool) → IsLeast P S → IsLeast (scaled P 1000) S }
    ensures back { (P : ProblemData) → (S : ℕ → Bool) → IsLeast (scaled P 1000) S → IsLeast P S }
{}

/// Proves that between two scales of costs only the links are undecided that the lower has and the
/// upper has not, and only the points that the upper does not need: the least best links of this
/// block, solved as a problem of its own, are with those of the upper scale the least best links of
/// all. Adjacent blocks determine the scale up to which each link is chosen.
pub fn blocks_join()
    ensures cheaper { (L : ProblemData) → (P : ProblemData) → (H : ProblemData)
        → (low : ℕ → Bool) → (high : ℕ → Bool) → (part : Part) → IsCheaper L P → IsCheaper P H
        → IsBest L low → IsLeast H high → IsBlock P low high part → BlockJoins P high part }
    ensures scales { (P : ProblemData) → ScaleBlocksJoin P }
    ensures solve { (P : ProblemData) → BlocksSolve P }
{}

/// Proves that blocks, beginning with all links that gain and all points, split at the chosen links
/// in between: into those links of the block that are chosen, and the others without the points
/// that those need.
pub fn blocks_split()
    ensures split { (P : ProblemData) → IsProblem P → BlocksSplit P }
{}

/// Proves that a block at a scale is a problem that may be solved, if a thousand times the gains of
/// all links beyond their charges, and all costs at the scale, are within the greatest sum.
pub fn blocks_are_problems()
    ensures problem { (P : ProblemData) → (k : ℕ) → (low : ℕ → Bool) → (high : ℕ → Bool)
        → (part : Part) → IsProblem P → 1000 * net_sum P (λ _. true) ≤ greatest_sum
        → k * sum_of_costs P ≤ greatest_sum → IsBlock P low high part
        → IsProblem (scaled_block P k part) }
{}

/// Proves that, if each gain and each cost may be wrong by a factor of its own, a link is certainly
/// chosen if it is chosen at the scale of both factors, and certainly left out if it is left out
/// when costs are smaller by the same factors.
pub fn factors_are_bounded()
    ensures sure { (g : ℕ) → (f : ℕ) → (P : ProblemData) → (Q : ProblemData)
        → IsWithinFactor g f P Q → AreSure g f P Q }
{}

/// Proves that the links that are best at some scale of costs gain most of all links whose points
/// cost no more (Everett 1963).
pub fn scales_are_budgets()
    ensures most { (P : ProblemData) → (k : ℕ) → (S : ℕ → Bool) → IsBest (scaled P k) S
        → IsMostForCost P S }
{}
