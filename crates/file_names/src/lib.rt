// Names for letters, which a file may carry in its preface: where they stand, and the rows 21 to 23 that try them, so that names can be
// printed and tell letters apart.

#![tactic(auto)]

ghost use Rattle.std.specs.Prelude.{◌≡◌, false, ◌&&◌, ◌||◌, not, ◌+◌, ◌-◌, ◌*◌, ◌≤◌, length, ltb, eqb};
ghost use Rattle.sets.specs.Tests.{some_below};
ghost use Rattle.sets.specs.Lists.{any_of};
ghost use Rattle.refusals.specs.Rows.{first_refusal};
ghost use Rattle.file_spec.specs.Names.{has_names_lem, names_before, same_name_lem, repeats_name_lem};
ghost use Rattle.file_spec.specs.Rows.{name_rows, given_rows, preface_rows};
ghost use Rattle.file_spec.specs.RuleRows.{outside};

use refusals::Refusal;

// The last two bytes of a preface with names.
pub const NAMES_TAG: [u8; 2] = [0x4E, 0x4D];

// Whether a preface ends with 4E 4D.
fn has_names(p: &[u8]) -> bool
    ensures { result ≡ has_names_lem p.now }
{
    let m = p.len();
    if m < 2 {
        return false;
    }
    if p[m - 2] != NAMES_TAG[0] {
        return false;
    }
    p[m - 1] == NAMES_TAG[1]
}

// Whether a preface before a rule of s letters has no names, or has room for them.
fn names_fit(p: &[u8], s: usize) -> bool
    requires { s ≤ 16 }
    ensures { result ≡ not (has_names_lem p.now && ltb (length p.now - 2) (8 * s)) }
{
    if !has_names(p) {
        return true;
    }
    8 * s <= p.len() - 2
}

// The bytes of the s names in a preface that has room for them, or none.
pub fn names_in(p: &[u8], s: usize) -> &[u8]
    requires { (s ≤ 16) × ((has_names_lem p.now && ltb (length p.now - 2) (8 * s)) ≡ false) }
    ensures { result.now ≡ names_before s p.now }
{
    if !has_names(p) {
        return &p[..0];
    }
    let end = p.len() - 2;
    &p[end - 8 * s..end]
}

// Whether some byte is outside 20 to 7E.
fn any_outside(names: &[u8]) -> bool
    ensures { result ≡ any_of names.now (outside 0x20 0x7E) }
{
    names.iter().any(|x| *x < 0x20 || 0x7E < *x)
}

// Whether the names of the letters a and b are equal.
fn same_name(names: &[u8], a: usize, b: usize) -> bool
    requires { (8 * a + 8 ≤ length names.now) × (8 * b + 8 ≤ length names.now) }
    ensures { result ≡ same_name_lem names.now a b }
{
    names[8 * a..8 * a + 8] == names[8 * b..8 * b + 8]
}

// Whether the name of the letter b is equal to an earlier one.
fn repeats_earlier(names: &[u8], b: usize) -> bool
    requires { 8 * b + 8 ≤ length names.now }
    ensures { result ≡ some_below b (λ a. same_name_lem names.now a b) }
{
    (0..b).any(|a| same_name(names, a, b))
}

// Whether two names are equal.
fn repeats_name(names: &[u8]) -> bool
    ensures { result ≡ repeats_name_lem names.now }
{
    for b in 0..names.len() / 8 {
        if repeats_earlier(names, b) {
            return true;
        }
    }
    false
}

// What of rows 22 and 23 refuses the bytes of names, if one does.
#[tactic(auto, unfolding(refusals::specs::Rows::first_refusal, file_spec::specs::Rows::name_rows))]
pub fn names_row(names: &[u8]) -> Result<(), Refusal>
    ensures { result ≡ first_refusal (name_rows names.now) }
{
    if any_outside(names) {
        return Err(Refusal::NameByte);
    }
    if repeats_name(names) {
        return Err(Refusal::EqualNames);
    }
    Ok(())
}

// Whether name bytes for s letters are none, or 8 for each letter.
fn is_whole(names: &[u8], s: usize) -> bool
    requires { s ≤ 16 }
    ensures { result ≡ (eqb (length names.now) 0 || eqb (length names.now) (8 * s)) }
{
    if names.len() == 0 {
        return true;
    }
    names.len() == 8 * s
}

// What of rows 21 to 23 refuses name bytes given for s letters, if one does.
#[tactic(auto, unfolding(refusals::specs::Rows::first_refusal, file_spec::specs::Rows::given_rows))]
pub fn given_row(names: &[u8], s: usize) -> Result<(), Refusal>
    requires { s ≤ 16 }
    ensures { result ≡ first_refusal (given_rows s names.now) }
{
    if !is_whole(names, s) {
        return Err(Refusal::Names);
    }
    names_row(names)
}

// What of rows 21 to 23 refuses a preface before a rule of s letters, if one does.
#[tactic(auto, unfolding(refusals::specs::Rows::first_refusal, file_spec::specs::Rows::preface_rows))]
pub fn preface_row(p: &[u8], s: usize) -> Result<(), Refusal>
    requires { s ≤ 16 }
    ensures { result ≡ first_refusal (preface_rows s p.now) }
{
    if !names_fit(p, s) {
        return Err(Refusal::Names);
    }
    names_row(names_in(p, s))
}
