// Sweeps round the places of a cycle, until the nodes with a walk to an accepting one are marked. Only places that wait for news are swept.
ghost use Rattle.std.specs.Prelude.{◌≡◌, ℕ, ◌≤◌, ◌<◌, length, get_or};
ghost use Rattle.table_lent.specs.Lent.{in_both};
ghost use Rattle.table_fixpoints_spec.specs.Product.{NodeEdge, Fits};
ghost use Rattle.table_fixpoints_spec.specs.Marks.{marked_at, is_new_at, ordered};
ghost use Rattle.table_fixpoints_spec.specs.Waiting.{place_before_lem, waiting_after_lem};
ghost use Rattle.graph_walks.specs.Rounds.{Stable};

use crate::marks::mark_all;

// Marks nodes at place p of the cycle, by the transitions from the last to the first where `back`.
pub fn mark_place(
    moves: &[u64],
    movebytes: &[u8],
    back: bool,
    cycle: &[u8],
    n: usize,
    marks: &mut [u8],
    p: usize,
) -> bool
    requires { Fits n cycle.now (in_both moves.now movebytes.now).numbers marks.old × (p < length cycle.now) }
    ensures { (marks.new
        ≡ marked_at n cycle.now (ordered back (in_both moves.now movebytes.now).numbers) p
        marks.old)
        × (result
        ≡ is_new_at n cycle.now (ordered back (in_both moves.now movebytes.now).numbers) p
        marks.old) }
{
    let here = p * n;
    let mut there = here + n;
    if p + 1 == cycle.len() {
        there = 0;
    }
    mark_all(
        moves,
        movebytes,
        back,
        cycle[p] as usize,
        marks,
        here,
        there,
    )
}

// The place before p in a cycle of c places.
pub fn place_before(c: usize, p: usize) -> usize
    requires { p < c }
    ensures { result ≡ place_before_lem c p }
{
    if p == 0 {
        return c - 1;
    }
    p - 1
}

// How many places wait for a sweep after one of them was swept; whether that brought something new.
pub fn waiting_after(new: bool, waiting: usize) -> usize
    requires { 0 < waiting }
    ensures { result ≡ waiting_after_lem new waiting }
{
    if !new {
        return waiting - 1;
    }
    if waiting < 2 {
        return 1;
    }
    waiting - 1
}

// Marks nodes until none is left to mark: those with a walk to an accepting node. Places are swept from the last to the first and round
// again while one waits, in either order of the transitions by turns: in a cycle of one letter news runs along a chain of nodes in one
// sweep if their numbers rise, or if they fall.
pub fn mark_until_stable(moves: &[u64], movebytes: &[u8], cycle: &[u8], n: usize, marks: &mut [u8])
    requires { Fits n cycle.now (in_both moves.now movebytes.now).numbers marks.old × ((x : ℕ) → get_or marks.old x 0 ≤ 2) }
    ensures { Stable (NodeEdge n cycle.now (in_both moves.now movebytes.now).numbers) marks.old
        marks.new }
{
    let mut back = false;
    let mut waiting = cycle.len();
    let mut p = 0;
    // A while: what a place brings decides how many still wait.
    while 0 < waiting {
        p = place_before(cycle.len(), p);
        let new = mark_place(moves, movebytes, back, cycle, n, marks, p);
        waiting = waiting_after(new, waiting);
        back = !back;
    }
}
