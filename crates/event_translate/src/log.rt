// The log under an event table: whether an event is in no line (row 27), and else the letters. The lines of an event are the meet of two
// masks, so it takes no pass over the table.
ghost use Rattle.std.specs.Prelude.{◌≡◌, false, List, ◌++◌, ℕ, ◌≤◌, length, drop, get_or};
ghost use Rattle.std.specs.Int.Bits.{bit_and};
ghost use Rattle.event_spec.specs.Events.{event_count, letters_of};
ghost use Rattle.event_spec.specs.Translation.{has_unknown_lem};
ghost use Rattle.event_table.specs.Masks.{Masks};

// The mask of the lines that hold a kind and a drive.
fn lines_of(kinds: &[u64; 256], drives: &[u64; 256], kind: u8, drive: u8) -> u64
    ensures { result ≡ bit_and (get_or kinds.now kind 0) (get_or drives.now drive 0) }
{
    kinds[kind as usize] & drives[drive as usize]
}

// Whether row 27 refuses the log: an event is in no line of the table that the masks are of.
pub fn has_unknown(kinds: &[u64; 256], drives: &[u64; 256], log: &[u8]) -> bool
    ensures { (t : List ℕ)
        → Masks t kinds.now drives.now
        → result ≡ has_unknown_lem t log.now }
{
    let n = log.len() / 2;
    for k in 0..n {
        if lines_of(kinds, drives, log[2 * k], log[2 * k + 1]) == 0 {
            return true;
        }
    }
    false
}

// Writes the letter of each event from the start of letters on.
pub fn write_letters(
    events: &[u8],
    kinds: &[u64; 256],
    drives: &[u64; 256],
    log: &[u8],
    letters: &mut [u8],
)
    requires { Masks events.now kinds.now drives.now
        × (has_unknown_lem events.now log.now ≡ false)
        × (event_count log.now ≤ length letters.old) }
    ensures { letters.new
        ≡ letters_of events.now log.now ++ drop (event_count log.now) letters.old }
{
    let n = log.len() / 2;
    for k in 0..n {
        let line = u64::trailing_zeros(lines_of(
            kinds,
            drives,
            log[2 * k],
            log[2 * k + 1],
        )) as usize;
        letters[k] = events[5 * line + 4];
    }
}
