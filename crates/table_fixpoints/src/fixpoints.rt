// Takes nodes out of the product of a table and a cycle through which no accepting run goes: those without an endless walk, and those
// without a walk to an accepting node.
ghost use Rattle.std.specs.Prelude.{◌≡◌, ◌⊎◌, ℕ, ◌≤◌, ◌<◌, length, get_or};
ghost use Rattle.table_lent.specs.Lent.{in_both};
ghost use Rattle.graph_walks.specs.Walks.{Pruned};
ghost use Rattle.table_fixpoints_spec.specs.Product.{NodeEdge, Fits};
ghost use Rattle.graph_walks.specs.Marks.{settled, goes_out_lem};
ghost use Rattle.graph_walks.specs.Rounds.{Settling, PruneRound, SolveRound};

use crate::rounds::{mark_place, mark_until_stable, place_before, waiting_after};

// A mark after settling: 0 if the node is not marked, else without its mark.
fn settled_mark(v: u8) -> u8
    ensures { result ≡ settled v }
{
    if v < 3 {
        return 0;
    }
    v - 2
}

// Whether settling takes out an accepting node, v being its mark.
fn goes_out(v: u8) -> bool
    ensures { result ≡ goes_out_lem v }
{
    v == 2
}

// Of the nodes from `from` up to `to`, takes out those that are not marked, and the marks off the others; whether an accepting node went
// out.
pub fn settle(marks: &mut [u8], from: usize, to: usize) -> bool
    requires { (from ≤ to) × (to ≤ length marks.old) }
    ensures { Settling from to marks.old marks.new result }
{
    let mut changed = false;
    for i in from..to {
        let v = marks[i];
        marks[i] = settled_mark(v);
        if goes_out(v) {
            changed = true;
        }
    }
    changed
}

// Nodes at place p without an edge to a node that is in go out; whether there were such.
fn prune_place(
    moves: &[u64],
    movebytes: &[u8],
    cycle: &[u8],
    n: usize,
    marks: &mut [u8],
    p: usize,
) -> bool
    requires { Fits n cycle.now (in_both moves.now movebytes.now).numbers marks.old
        × ((x : ℕ) → (get_or marks.old x 0 ≡ 0) ⊎ (get_or marks.old x 0 ≡ 2)) × (p < length cycle.now) }
    ensures { PruneRound (NodeEdge n cycle.now (in_both moves.now movebytes.now).numbers)
        marks.old marks.new result }
{
    mark_place(moves, movebytes, false, cycle, n, marks, p);
    settle(marks, p * n, p * n + n)
}

// Takes out nodes without an endless walk: at the places from the last to the first and round again, while one waits.
pub fn prune(moves: &[u64], movebytes: &[u8], cycle: &[u8], n: usize, marks: &mut [u8])
    requires { Fits n cycle.now (in_both moves.now movebytes.now).numbers marks.old
        × ((x : ℕ) → (get_or marks.old x 0 ≡ 0) ⊎ (get_or marks.old x 0 ≡ 2)) }
    ensures { Pruned (NodeEdge n cycle.now (in_both moves.now movebytes.now).numbers) marks.old
        marks.new }
{
    let mut waiting = cycle.len();
    let mut p = 0;
    // A while: what a place brings decides how many still wait.
    while 0 < waiting {
        p = place_before(cycle.len(), p);
        let new = prune_place(moves, movebytes, cycle, n, marks, p);
        waiting = waiting_after(new, waiting);
    }
}

// Takes out the nodes without a walk to an accepting one; whether there were accepting ones among them. If not, from each that is left a
// walk leads to an accepting one that is left.
pub fn solve_round(
    moves: &[u64],
    movebytes: &[u8],
    cycle: &[u8],
    n: usize,
    marks: &mut [u8],
) -> bool
    requires { Fits n cycle.now (in_both moves.now movebytes.now).numbers marks.old × ((x : ℕ) → get_or marks.old x 0 ≤ 2) }
    ensures { SolveRound (NodeEdge n cycle.now (in_both moves.now movebytes.now).numbers)
        marks.old marks.new result }
{
    mark_until_stable(moves, movebytes, cycle, n, marks);
    let end = marks.len();
    settle(marks, 0, end)
}
