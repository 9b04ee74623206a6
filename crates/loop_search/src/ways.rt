// The masks of the search for a mixed loop: from which states walks of some length lead to a state. They tell at each step which states
// leave a way to the end.
ghost use Rattle.std.specs.Prelude.{◌≡◌, ◌&&◌, suc, ◌^◌, ◌≤◌, ◌<◌};
ghost use Rattle.sets.specs.Tests.{some_below, one, first};
ghost use Rattle.sets.specs.Masks.{bit};
ghost use Rattle.loop_spec.specs.Search.{others_of_lem, sources, step_back_lem, ways};

use loop_spec::Ways;
use set_masks::{contains, difference, full};

// 1 where the two sets have a state in common, else 0.
fn meets(a: u8, b: u8) -> u8
    ensures { result ≡ one (some_below 8 (λ p. bit a p && bit b p)) }
{
    if a & b == 0 {
        return 0;
    }
    1
}

// The states below n that lead to a state of the set.
fn sources_of(es: &[u8; 8], n: usize, set: u8) -> u8
    requires { (n ≤ 8) × (set < 2 ^ n) }
    ensures { result ≡ sources n es.now set }
{
    let mut found: u8 = 0;
    for q in 0..n {
        found |= meets(es[q], set) << q;
    }
    found
}

// The states below n of the other kind than t.
pub fn others_of(n: usize, accepting: u8, t: usize) -> u8
    requires { (n ≤ 8) × (t < n) × (accepting < 2 ^ n) }
    ensures { result ≡ others_of_lem n accepting t }
{
    if contains(accepting, t as u32) {
        return difference(full(n as u32), accepting);
    }
    accepting
}

// The walks of one step more.
fn step_back(es: &[u8; 8], n: usize, others: u8, w: Ways) -> Ways
    requires { (n ≤ 8) × (w.any < 2 ^ n) × (w.mixed < 2 ^ n) }
    ensures { result ≡ step_back_lem n es.now (bit others) w }
{
    let any = sources_of(es, n, w.any);
    let mixed = sources_of(es, n, w.mixed) | (any & others);
    Ways {
        any: any,
        mixed: mixed,
    }
}

// The walks of k steps to t.
pub fn ways_to(es: &[u8; 8], n: usize, others: u8, t: usize, k: usize) -> Ways
    requires { (n ≤ 8) × (t < n) }
    ensures { result ≡ ways n es.now (bit others) t k }
{
    let mut w = Ways {
        any: 1 << t,
        mixed: 0,
    };
    for _ in 0..k {
        w = step_back(es, n, others, w);
    }
    w
}

// How many states the shortest mixed loops from t have after t; n where none of at most n states begins there.
pub fn further_from(es: &[u8; 8], n: usize, others: u8, t: usize) -> usize
    requires { (n ≤ 8) × (t < n) }
    ensures { result ≡ first n (λ k. bit (ways n es.now (bit others) t (suc k)).mixed t) 0 }
{
    let mut w = Ways {
        any: 1 << t,
        mixed: 0,
    };
    for k in 0..n {
        w = step_back(es, n, others, w);
        if contains(w.mixed, t as u32) {
            return k;
        }
    }
    n
}
