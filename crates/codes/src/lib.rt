// A macrostate as a 64-bit number, and packed transitions: so a table is two lists of numbers, which can be lent, sorted and stored.

#![tactic(auto)]

ghost use Rattle.std.specs.Prelude.{◌≡◌, ◌&&◌, ◌+◌, ◌≤◌, ◌<◌, eqb, length};
ghost use Rattle.sets.specs.Masks.{bit};
ghost use Rattle.theory.specs.Code.{component_in, classes_in};
ghost use Rattle.theory.specs.Macrostate.{begun, is_accepting_lem};
ghost use Rattle.theory.specs.Run.{source_of, letter_of_lem, target_of};
ghost use Rattle.codes.specs.Codes.{transition_of};
ghost use Rattle.codes.specs.Bytes.{word_at};

// ---- the fields of a code and of a transition

// A core: the set in bits 0 to 7, the ranks above it. K stands above the core, k above K.
pub const CORE_BITS: u64 = 40;

pub const CORE_MASK: u64 = 0xff_ffff_ffff;

pub const CLASSES_SHIFT: u64 = 44;
// A code. Marks, new numbers, links and the number of a core stand above it while a table is made or compared.
pub const CODE_BITS: u64 = 48;

pub const CODE_MASK: u64 = 0x0000_ffff_ffff_ffff;
// A transition: the target in bits 0 to 15, the letter above it, the source above the letter.
pub const LETTER_SHIFT: u64 = 16;

pub const SOURCE_SHIFT: u64 = 24;
// Above a transition, while two tables are compared: the first number with the target's core, then the components that it spares.
pub const MOVE_BITS: u64 = 40;

pub const MOVE_MASK: u64 = 0xff_ffff_ffff;
// 1 right above a core, a code, a transition, and the number of a core above a transition: by these a number is moved there.
pub const ABOVE_CORE: u64 = 0x100_0000_0000;

pub const ABOVE_CODE: u64 = 0x1_0000_0000_0000;

pub const ABOVE_MOVE: u64 = 0x100_0000_0000;

pub const ABOVE_MOVE_CORE: u64 = 0x100_0000_0000_0000;

// The component number K of a code.
pub fn component_of(code: u64) -> u8
    ensures { result ≡ component_in code }
{
    ((code >> CORE_BITS) & 15) as u8
}

// The number k of classes that a code has left.
pub fn classes_of(code: u64) -> u8
    ensures { result ≡ classes_in code }
{
    ((code >> CLASSES_SHIFT) & 15) as u8
}

// Whether a run may begin at a macrostate, but for its set: K is 0 and k is 0.
pub fn is_first(code: u64) -> bool
    ensures { result ≡ (eqb (component_in code) 0 && eqb (classes_in code) 0) }
{
    component_of(code) == 0 && classes_of(code) == 0
}

// Whether a macrostate is initial: its set holds the initial state, K is 0 and k is 0.
pub fn is_initial(code: u64, initial: u32) -> bool
    requires { initial < 8 }
    ensures { result ≡ begun (λ c. bit c initial) code }
{
    (code >> initial) & 1 == 1 && is_first(code)
}

// Whether a macrostate is accepting: k is 0.
pub fn is_accepting(code: u64) -> bool
    ensures { result ≡ is_accepting_lem code }
{
    classes_of(code) == 0
}

// A transition from one number to another over a letter.
pub fn pack_transition(source: usize, letter: usize, target: usize) -> u64
    requires { (source < 1099511627776) × (letter < 256) × (target < 65536) }
    ensures { result ≡ transition_of source letter target }
{
    ((source as u64) << SOURCE_SHIFT) | ((letter as u64) << LETTER_SHIFT) | target as u64
}

// The number that a transition comes from.
pub fn source_of(transition: u64) -> usize
    ensures { result ≡ source_of transition }
{
    (transition >> SOURCE_SHIFT) as usize
}

// The letter of a transition.
pub fn letter_of(transition: u64) -> usize
    ensures { result ≡ letter_of_lem transition }
{
    ((transition >> LETTER_SHIFT) & 0xff) as usize
}

// The number that a transition goes to.
pub fn target_of(transition: u64) -> usize
    ensures { result ≡ target_of transition }
{
    (transition & 0xffff) as usize
}

// The number whose 8 bytes, low byte first, stand from place i on.
pub fn word_at(bytes: &[u8], i: usize) -> u64
    requires { i + 8 ≤ length bytes.now }
    ensures { result ≡ word_at bytes.now i }
{
    u64::from_le_bytes([
        bytes[i],
        bytes[i + 1],
        bytes[i + 2],
        bytes[i + 3],
        bytes[i + 4],
        bytes[i + 5],
        bytes[i + 6],
        bytes[i + 7],
    ])
}
