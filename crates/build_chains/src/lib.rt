// Chains through a list of keys in a lent slice: the keys of a core stand in one chain. So whether a key is listed, and which keys a core
// has, is found without a pass over the list.

#![tactic(auto)]

ghost use Rattle.std.specs.Prelude.{◌≡◌, true, false, ◌+◌, ◌*◌, ◌/◌, ◌%◌, ◌^◌, ◌<◌, length, get_or, set};
ghost use Rattle.build_spec.specs.Chains.{bucket_of, Found, Before, Chained};
ghost use Rattle.build_spec.specs.Growth.{Grown};

use build_spec::Grow;
use codes::{CODE_BITS, CODE_MASK};

// The bucket of a core. Any number below 16,384 would do that is one for each core.
pub fn bucket(core: u64) -> usize
    requires { core < 2 ^ 40 }
    ensures { result ≡ bucket_of core }
{
    ((((core >> 8) * 2654435761) >> 18) & 16383) as usize
}

// The place where the chain of the bucket of a core begins.
pub fn chain_top(heads: &[u16; 16384], core: u64) -> u16
    requires { core < 2 ^ 40 }
    ensures { result ≡ get_or heads.now (bucket_of core) 0 }
{
    heads[bucket(core)]
}

// Puts a key at place n. Its link is the head of its bucket, and the head is then n.
pub fn put(keys: &mut [u64], heads: &mut [u16; 16384], last: &mut [u32; 256], n: usize, key: u64)
    requires { Chained keys.old heads.old last.old n × (n < length keys.old) × (key < 2 ^ 48) }
    ensures { (keys.new
        ≡ set keys.old n (get_or heads.old (bucket_of (key / 256)) 0 * 2 ^ 48 + key))
        × (heads.new ≡ set heads.old (bucket_of (key / 256)) n)
        × (last.new ≡ set last.old (key / 256 % 256) (n + 1)) }
{
    let core = key >> 8;
    let b = bucket(core);
    keys[n] = ((heads[b] as u64) << CODE_BITS) | key;
    heads[b] = n as u16;
    last[(core & 0xff) as usize] = n as u32 + 1;
}

// The place of a key among the first n, by a walk along the chain of its bucket; n if it is not there.
pub fn find(keys: &[u64], heads: &[u16; 16384], last: &[u32; 256], n: usize, key: u64) -> usize
    requires { Chained keys.now heads.now last.now n × (key < 2 ^ 48) }
    ensures { Found keys.now n key result }
{
    if n == 0 {
        return n;
    }
    let mut i = chain_top(heads, key >> 8) as usize;
    loop {
        let x = keys[i];
        if x & CODE_MASK == key {
            return i;
        }
        if i == 0 {
            return n;
        }
        i = (x >> CODE_BITS) as usize;
    }
}

// Whether the core of the key at place j stands at a lower place too, by a walk along the chain below it.
pub fn core_before(
    keys: &[u64],
    heads: &[u16; 16384],
    last: &[u32; 256],
    n: usize,
    j: usize,
) -> bool
    requires { Chained keys.now heads.now last.now n × (j < n) }
    ensures { (result ≡ true → Before keys.now j) × (result ≡ false → Before keys.now j → ⊥) }
{
    if j == 0 {
        return false;
    }
    let own = keys[j];
    let mut q = (own >> CODE_BITS) as usize;
    loop {
        let x = keys[q];
        if (x & CODE_MASK) >> 8 == (own & CODE_MASK) >> 8 {
            return true;
        }
        if q == 0 {
            return false;
        }
        q = (x >> CODE_BITS) as usize;
    }
}

// Adds a key to the first n, unless it is one of them. It is full if they fill the slice.
pub fn admit(
    keys: &mut [u64],
    heads: &mut [u16; 16384],
    last: &mut [u32; 256],
    n: usize,
    key: u64,
) -> Grow
    requires { Chained keys.old heads.old last.old n × (key < 2 ^ 48) }
    ensures { Grown (λ z. z ≡ key) (λ z. z ≡ key) keys.old n keys.new heads.new
        last.new result.m result.full }
{
    if find(keys, heads, last, n, key) < n {
        return Grow { m: n, full: false };
    }
    if n == keys.len() {
        return Grow { m: n, full: true };
    }
    put(keys, heads, last, n, key);
    Grow {
        m: n + 1,
        full: false,
    }
}
