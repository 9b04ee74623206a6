// The components of a rule: the classes of states that lead to each other. Row 11 asks that none is mixed, and the build ranks the states
// of each apart.

#![tactic(auto)]

ghost use Rattle.std.specs.Prelude.{◌≡◌, ◌&&◌, not, ◌≤◌, ◌<◌, get_or};
ghost use Rattle.sets.specs.Tests.{some_below};
ghost use Rattle.sets.specs.Masks.{bit, mask};
ghost use Rattle.theory.specs.Passing.{WellFormed};
ghost use Rattle.theory.specs.Components.{mixed};
ghost use Rattle.rule_entries.specs.Entries.{rule_of};
ghost use Rattle.rule_components.specs.Numbered.{components_of};

use rule_entries::Head;
use rule_reach::closures;

// The components of a rule: for each component number the mask of its states, and how many components there are.
#[derive(Clone, Copy)]
pub struct Components {
    pub masks: [u8; 8],
    pub count: usize,
}

// The states below n that q reaches and that reach q, from the table of what each state reaches.
pub fn class_of(reach: &[u8; 8], n: usize, q: usize) -> u8
    requires { (n ≤ 8) × (q < 8) }
    ensures { result ≡ mask n (λ p. bit (get_or reach.now q 0) p && bit (get_or reach.now p 0) q) }
{
    let mut class: u8 = 0;
    for p in 0..n {
        class |= ((reach[q] >> p) & (reach[p] >> q) & 1) << p;
    }
    class
}

// Whether the class holds an accepting state and a rejecting one.
pub fn both_kinds(class: u8, accepting: u8) -> bool
    ensures { result ≡ (some_below 8 (λ q. bit class q && bit accepting q) && some_below 8 (λ p. bit class p && not (bit accepting p))) }
{
    let accepted = class & accepting;
    if accepted == 0 {
        return false;
    }
    accepted != class
}

// Whether some component holds an accepting state and a rejecting one.
pub fn is_mixed(h: Head, counts: &[u8], clauses: &[u8]) -> bool
    requires { WellFormed (rule_of h counts.now clauses.now) }
    ensures { result ≡ mixed (rule_of h counts.now clauses.now) }
{
    let reach = closures(h, counts, clauses);
    let n = h.n;
    let accepting = h.accepting as u8;
    for q in 0..n {
        if both_kinds(class_of(&reach, n, q), accepting) {
            return true;
        }
    }
    false
}

// The components, numbered in rising order of their smallest states.
pub fn split(h: Head, counts: &[u8], clauses: &[u8]) -> Components
    requires { WellFormed (rule_of h counts.now clauses.now) }
    ensures { result ≡ components_of (rule_of h counts.now clauses.now) }
{
    let reach = closures(h, counts, clauses);
    let mut masks = [0u8; 8];
    let mut count = 0;
    for q in 0..h.n {
        let class = class_of(&reach, h.n, q);
        if u8::trailing_zeros(class) as usize == q {
            masks[count] = class;
            count += 1;
        }
    }
    Components {
        masks: masks,
        count: count,
    }
}
