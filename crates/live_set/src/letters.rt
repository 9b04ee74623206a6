// The bytes of state before those of the set: numbers in two bytes, the letters held, and those of the marks. Letters are kept since a
// withdrawal and a return work the set out afresh.
ghost use Rattle.std.specs.Prelude.{◌≡◌, ◌∷◌, [], ◌⊎◌, ◌+◌, ◌≤◌, ◌<◌, length, get_or, take, drop};
ghost use Rattle.live_spec.specs.State.{number_at_lem, is_marked_lem, two_bytes};
ghost use Rattle.live_spec.specs.Effects.{put};

// ---- reading: a byte that is not there is read as 0

fn byte_at(state: &[u8], i: usize) -> u8
    ensures { result ≡ get_or state.now i 0 }
{
    if i < state.len() {
        return state[i];
    }
    0
}

// A number of letters, low byte first; one above 512 is read as 512.
pub fn number_at(state: &[u8], at: usize) -> usize
    requires { at < 65536 }
    ensures { result ≡ number_at_lem state.now at }
{
    let n = byte_at(state, at) as usize + 256 * byte_at(state, at + 1) as usize;
    if 512 < n {
        return 512;
    }
    n
}

// Whether a mark is set.
pub fn is_marked(state: &[u8], m: usize) -> bool
    requires { m < 16 }
    ensures { result ≡ is_marked_lem state.now m }
{
    byte_at(state, 2 + m) != 0
}

// ---- writing

pub fn put_byte(state: &mut [u8], at: usize, v: u8)
    requires { at < length state.old }
    ensures { state.new ≡ put at (v ∷ []) state.old }
{
    state[at] = v;
}

// Writes a number low byte first.
pub fn put_number(state: &mut [u8], at: usize, n: usize)
    requires { (n < 65536) × (at + 2 ≤ length state.old) }
    ensures { state.new ≡ put at (two_bytes n) state.old }
{
    state[at] = (n % 256) as u8;
    state[at + 1] = (n / 256) as u8;
}

// Copies the 512 bytes for letters at one place to another.
pub fn copy_letters(state: &mut [u8], from: usize, to: usize)
    requires { (from + 512 ≤ length state.old) × (to + 512 ≤ length state.old) × ((from + 512 ≤ to) ⊎ (to + 512 ≤ from)) }
    ensures { state.new ≡ put to (take 512 (drop from state.old)) state.old }
{
    state.copy_within(from..from + 512, to);
}
