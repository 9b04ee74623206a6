// Marks the source of a transition whose target is accepting or marked: so news of accepting nodes goes back from place to place.
ghost use Rattle.std.specs.Prelude.{◌≡◌, ℕ, ◌+◌, ◌<◌, length, get_or};
ghost use mathlib.Core.List.{Memᴰ};
ghost use Rattle.theory.specs.Run.{source_of, target_of};
ghost use Rattle.table_lent.specs.Lent.{in_both};
ghost use Rattle.graph_walks.specs.Marks.{marked, is_new};
ghost use Rattle.table_fixpoints_spec.specs.Marks.{marked_over, is_new_over, marked_all, is_new_all, ordered};

use codes::{letter_of, source_of, target_of};
use table_lent::{count, element};

// Marks x if it is in and y is accepting or marked; whether others may be marked for that.
fn mark(marks: &mut [u8], x: usize, y: usize) -> bool
    requires { (x < length marks.old) × (y < length marks.old) }
    ensures { (marks.new ≡ marked x y marks.old) × (result ≡ is_new x y marks.old) }
{
    if marks[y] < 2 {
        return false;
    }
    let v = marks[x];
    if v == 0 {
        return false;
    }
    if 2 < v {
        return false;
    }
    marks[x] = v + 2;
    v == 1
}

// Marks the source of a transition over the letter if it is in and the target is accepting or marked; whether others may be marked for
// that. The nodes of the source's place begin at `here`, those of the target's place at `there`.
fn mark_over(t: u64, letter: usize, marks: &mut [u8], here: usize, there: usize) -> bool
    requires { (here + source_of t < length marks.old) × (there + target_of t < length marks.old) }
    ensures { (marks.new ≡ marked_over letter here there t marks.old)
        × (result ≡ is_new_over letter here there t marks.old) }
{
    if letter_of(t) != letter {
        return false;
    }
    mark(marks, here + source_of(t), there + target_of(t))
}

// The transition at place i of m, or at place i from the end where `back`.
fn element_from(moves: &[u64], movebytes: &[u8], back: bool, m: usize, i: usize) -> u64
    requires { (m ≡ length (in_both moves.now movebytes.now).numbers) × (i < m) }
    ensures { result ≡ get_or (ordered back (in_both moves.now movebytes.now).numbers) i 0 }
{
    if back {
        return element(moves, movebytes, m - 1 - i);
    }
    element(moves, movebytes, i)
}

// Marks the sources of transitions over the letter that are in and whose target is accepting or marked; whether others may be marked for
// that. It tries the transitions one after the other, from the last to the first where `back`.
pub fn mark_all(
    moves: &[u64],
    movebytes: &[u8],
    back: bool,
    letter: usize,
    marks: &mut [u8],
    here: usize,
    there: usize,
) -> bool
    requires { (t : ℕ) → Memᴰ t (in_both moves.now movebytes.now).numbers → (here + source_of t < length marks.old)
        × (there + target_of t < length marks.old) }
    ensures { (marks.new
        ≡ marked_all letter here there (ordered back (in_both moves.now movebytes.now).numbers) marks.old)
        × (result ≡ is_new_all letter here there (ordered back (in_both moves.now movebytes.now).numbers)
        marks.old) }
{
    let m = count(moves, movebytes);
    let mut changed = false;
    for i in 0..m {
        let t = element_from(moves, movebytes, back, m, i);
        if mark_over(t, letter, marks, here, there) {
            changed = true;
        }
    }
    changed
}
