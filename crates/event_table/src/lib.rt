// Rows 25 and 26: an event table with a line at fault, or with one that earlier lines cover. Masks of its lines for each kind and each
// drive tell the first line of an event without a pass over the table.

#![tactic(auto)]

ghost use Rattle.std.specs.Prelude.{◌≡◌, List, ℕ, ◌+◌, ◌*◌, ◌^◌, ◌<◌, ◌≤◌, eqb, length, get_or};
ghost use Rattle.std.specs.Int.Bits.{bit_and};
ghost use Rattle.std.specs.Int.Count.{count_trailing_zeros};
ghost use Rattle.sets.specs.Tests.{one, some_below};
ghost use Rattle.sets.specs.Masks.{mask};
ghost use Rattle.event_spec.specs.Events.{line_count, spans};
ghost use Rattle.event_spec.specs.Translation.{faulty, faulty_table, has_covered_lem};
ghost use Rattle.event_table.specs.Masks.{masks_of_lem, least_of_lem, firsts_beside_lem, firsts_of, Masks};

// Whether line j is at fault under s letters.
fn is_faulty(s: usize, events: &[u8], j: usize) -> bool
    requires { j < line_count events.now }
    ensures { result ≡ faulty s events.now j }
{
    let at = 5 * j;
    if events[at + 1] < events[at] {
        return true;
    }
    if events[at + 3] < events[at + 2] {
        return true;
    }
    s <= events[at + 4] as usize
}

// Whether row 25 refuses the table under s letters.
pub fn is_faulty_table(s: usize, events: &[u8]) -> bool
    ensures { result ≡ faulty_table s events.now }
{
    if events.len() % 5 != 0 {
        return true;
    }
    let n = events.len() / 5;
    if 64 < n {
        return true;
    }
    (0..n).any(|j| is_faulty(s, events, j))
}

// Whether bytes i and i + 1 of line j span x.
fn is_spanned(events: &[u8], i: usize, x: u8, j: usize) -> bool
    requires { (i < 4) × (j < line_count events.now) }
    ensures { result ≡ spans events.now i x j }
{
    let at = 5 * j + i;
    if x < events[at] {
        return false;
    }
    x <= events[at + 1]
}

// The mask of line j, or the empty mask.
fn marked(yes: bool, j: usize) -> u64
    requires { j < 64 }
    ensures { result ≡ one yes * 2 ^ j }
{
    if yes {
        return 1u64 << j;
    }
    0
}

// The mask of the lines whose bytes i and i + 1 span x.
fn spanning(events: &[u8], i: usize, x: u8) -> u64
    requires { (i < 4) × (line_count events.now ≤ 64) }
    ensures { result ≡ mask (line_count events.now) (spans events.now i x) }
{
    let n = events.len() / 5;
    let mut lines: u64 = 0;
    for j in 0..n {
        lines += marked(is_spanned(events, i, x, j), j);
    }
    lines
}

// For each value of a byte, the mask of the lines whose bytes i and i + 1 span it: i is 0 for kinds and 2 for drives.
pub fn masks_of(events: &[u8], i: usize) -> [u64; 256]
    requires { (i < 4) × (line_count events.now ≤ 64) }
    ensures { result ≡ masks_of_lem events.now i }
{
    let mut masks = [0u64; 256];
    for (x, lines) in masks.iter_mut().enumerate() {
        *lines = spanning(events, i, x as u8);
    }
    masks
}

// The mask of the least line of m, or the empty mask.
fn least(m: u64) -> u64
    ensures { result ≡ least_of_lem m }
{
    if m == 0 {
        return 0;
    }
    1u64 << u64::trailing_zeros(m)
}

// The mask of the lines that are the least in the meet of lines with the lines of some drive.
fn firsts_beside(lines: u64, drives: &[u64; 256]) -> u64
    ensures { result ≡ firsts_beside_lem lines drives.now }
{
    let mut found: u64 = 0;
    for drive in drives {
        found |= least(lines & *drive);
    }
    found
}

// The mask of the lines that are first for some event.
fn firsts(kinds: &[u64; 256], drives: &[u64; 256]) -> u64
    ensures { result ≡ firsts_of kinds.now drives.now }
{
    let mut found: u64 = 0;
    for kind in kinds {
        found |= firsts_beside(*kind, drives);
    }
    found
}

// Whether row 26 refuses the table: fewer lines are first for some event than there are lines.
pub fn has_covered(events: &[u8], kinds: &[u64; 256], drives: &[u64; 256]) -> bool
    requires { Masks events.now kinds.now drives.now }
    ensures { result ≡ has_covered_lem events.now }
{
    let n = events.len() / 5;
    (u64::count_ones(firsts(kinds, drives)) as usize) < n
}
