// One layer of the masks of a cycle, solved in rounds: components of one height do not lead to each other, so they are solved together.
ghost use Rattle.std.specs.Prelude.{◌≡◌, ℕ, ◌+◌, ◌^◌, ◌<◌, length};
ghost use Rattle.theory.specs.Rule.{entry};
ghost use Rattle.rule_entries.specs.Entries.{rule_of};
ghost use Rattle.judge_place.specs.Starts.{CycleReady};
ghost use Rattle.judge_place.specs.Rounds.{layer_of, Part, Round};

use judge_place::open_at;
use rule_entries::Head;

// One round over the places of a cycle, from the last to the first; whether it opened a state.
pub fn round(
    h: Head,
    counts: &[u8],
    starts: &[u16; 128],
    clauses: &[u8],
    cycle: &[u8],
    layer: u8,
    masks: &mut [u8],
) -> bool
    requires { CycleReady (rule_of h counts.now clauses.now) starts.now cycle.now
        × (layer < 2 ^ h.n)
        × (length masks.old ≡ length cycle.now) }
    ensures { Round (rule_of h counts.now clauses.now) cycle.now layer masks.old
        masks.new result }
{
    let mut changed = false;
    for p in (0..cycle.len()).rev() {
        if open_at(h, counts, starts, clauses, cycle, layer, masks, p) {
            changed = true;
        }
    }
    changed
}

// Rounds until none opens a state: the states of the layer are then right.
pub fn solve_layer(
    h: Head,
    counts: &[u8],
    starts: &[u16; 128],
    clauses: &[u8],
    cycle: &[u8],
    layer: u8,
    masks: &mut [u8],
)
    requires { CycleReady (rule_of h counts.now clauses.now) starts.now cycle.now
        × (layer < 2 ^ h.n)
        × (length masks.old ≡ length cycle.now) }
    ensures { (k : ℕ) → layer ≡ layer_of (rule_of h counts.now clauses.now) k
        → Part (rule_of h counts.now clauses.now) cycle.now k masks.old
        → Part (rule_of h counts.now clauses.now) cycle.now (k + 1) masks.new }
{
    // A while: how many rounds it takes is not known before.
    while round(h, counts, starts, clauses, cycle, layer, masks) {}
}
