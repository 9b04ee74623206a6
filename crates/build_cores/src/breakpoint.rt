// How component K and classes left k of a macrostate go on over one step. By them acceptance is told: a run accepts if k is 0 again and
// again, and then each component has its turn again and again.
ghost use Rattle.std.specs.Prelude.{◌≡◌, ◌%◌, ◌<◌, ◌≤◌};
ghost use Rattle.build_cores.specs.Onward.{next_in, onward_in};

// The component after c; after the last, component 0.
pub fn next_component(c: usize, components: usize) -> usize
    requires { c < components }
    ensures { result ≡ next_in components c }
{
    if c + 1 == components {
        return 0;
    }
    c + 1
}

// Component K and classes left k, as the pair K + 16 k, after a step to the core of these ranks.
pub fn onward(pair: u64, ranks: u64, parts: &[u8; 8], components: usize, levels: &[u64; 8]) -> u64
    requires { (pair < 256) × (pair % 16 < components) × (components ≤ 8) }
    ensures { result ≡ onward_in ranks parts.now components levels.now pair }
{
    let c = (pair & 15) as usize;
    let k = (pair >> 4) as u32;
    if k == 0 {
        let d = next_component(c, components);
        return d as u64 | ((crate::class_count(ranks, parts[d]) as u64) << 4);
    }
    c as u64 | (((levels[c] >> (4 * k)) & 15) << 4)
}
