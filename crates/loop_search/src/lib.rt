// The search for the shortest mixed loop of a rule: from which states walks of some length lead to a state, the start, and the loop.

#![tactic(auto)]

pub mod ways;

ghost use Rattle.std.specs.Prelude.{◌≡◌, true, false, ◌&&◌, ◌||◌, ◌++◌, suc, ◌+◌, ◌^◌, ◌≤◌, ◌<◌, length, drop};
ghost use Rattle.sets.specs.Tests.{some_below, first};
ghost use Rattle.sets.specs.Masks.{bit};
ghost use Rattle.loop_spec.specs.Search.{leads_by, ways, way_by, route};
ghost use Rattle.loop_search.specs.Begins.{Begins};

use crate::ways::{further_from, others_of, ways_to};
use set_masks::contains;

// Where a shortest mixed loop begins, and how many states it has after the first.
#[derive(Clone, Copy)]
pub struct Start {
    pub at: usize,
    pub further: usize,
}

// Where the least of the shortest mixed loops begins.
pub fn start_of(es: &[u8; 8], n: usize, accepting: u8) -> Start
    requires { (n ≤ 8) × (accepting < 2 ^ n) }
    ensures { Begins n es.now accepting result }
{
    let mut at = 0;
    let mut further = n;
    for t in 0..n {
        let k = further_from(es, n, others_of(n, accepting, t), t);
        if k < further {
            at = t;
            further = k;
        }
    }
    Start {
        at: at,
        further: further,
    }
}

// Whether a state of the other kind was passed before q or is q.
fn passes(passed: bool, others: u8, q: usize) -> bool
    requires { q < 8 }
    ensures { result ≡ passed || bit others q }
{
    if passed {
        return true;
    }
    contains(others, q as u32)
}

// The smallest state that may follow q where k steps are left from it to t.
fn next_state(
    es: &[u8; 8],
    n: usize,
    others: u8,
    t: usize,
    k: usize,
    passed: bool,
    q: usize,
) -> usize
    requires n_bound { (n ≤ 8) × (t < n) × (q < 8) }
    requires p_value { some_below n (λ p. leads_by es.now q p && bit (way_by n es.now (bit others) t k passed) p) ≡ true }
    ensures { result ≡ first n (λ p. leads_by es.now q p && bit (way_by n es.now (bit others) t k passed) p) 0 }
{
    let w = ways_to(es, n, others, t, k);
    if passed {
        return u8::trailing_zeros(es[q] & w.any) as usize;
    }
    u8::trailing_zeros(es[q] & w.mixed) as usize
}

// Writes the least of the shortest mixed loops from t, which has k states after t.
pub fn write_loop(es: &[u8; 8], n: usize, others: u8, t: usize, k: usize, out: &mut [u8])
    requires n_bound { (n ≤ 8) × (t < n) × (k < length out.old) }
    requires t_value { bit (ways n es.now (bit others) t (suc k)).mixed t ≡ true }
    ensures { out.new ≡ route n es.now (bit others) t k false t ++ drop (k + 1) out.old }
{
    let mut q = t;
    let mut passed = false;
    for i in 0..k {
        out[i] = q as u8;
        passed = passes(passed, others, q);
        q = next_state(es, n, others, t, k - i, passed, q);
    }
    out[k] = q as u8;
}
