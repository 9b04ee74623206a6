// Sets of states as masks: state q has weight 2 to the power q. A rule has at most 8 states, so that a set is one byte.

#![tactic(auto)]

ghost use Rattle.std.specs.Prelude.{◌≡◌, ◌<◌, ◌≤◌};
ghost use Rattle.sets.specs.Masks.{bit, members};
ghost use Rattle.set_masks.specs.Sets.{difference_of, full_of, union_over_lem};

// Whether state q is in the set m.
pub fn contains(m: u8, q: u32) -> bool
    requires { q < 8 }
    ensures { result ≡ bit m q }
{
    (m >> q) & 1 == 1
}

// The states in a and not in b.
pub fn difference(a: u8, b: u8) -> u8
    ensures { result ≡ difference_of a b }
{
    a & !b
}

// The states below n.
pub fn full(n: u32) -> u8
    requires { n ≤ 8 }
    ensures { result ≡ full_of n }
{
    ((1u32 << n) - 1) as u8
}

// The union of the masks es[q] of all states q of m.
pub fn union_over(m: u8, es: &[u8; 8]) -> u8
    ensures { result ≡ union_over_lem es.now (members m) }
{
    let mut r: u8 = 0;
    let mut left = m;
    // A while: it visits the set bits alone.
    while left != 0 {
        let q = u8::trailing_zeros(left) as usize;
        r |= es[q];
        left &= left - 1;
    }
    r
}
