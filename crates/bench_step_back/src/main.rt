// Steps back over every letter from every core of the rule on standard input, again and again, so that a driver can time it.

#![tactic(auto)]

ghost use Rattle.std.specs.Prelude.{◌≡◌};
ghost use Rattle.theory.specs.Rule.{Rule};
ghost use Rattle.file_spec.specs.Reading.{read_of};
ghost use Rattle.build_cores.specs.Vectors.{Within};
ghost use Rattle.build_cores.specs.Used.{caps_of};
ghost use Rattle.build_spec.specs.Keys.{Cored};
ghost use Rattle.build_spec.specs.Tables.{RuleTables, Lowest};

use build_spec::Shape;
use file_spec::Layout;
use std::io;
use std::io::Stdout;
use std::num::wrapping_add_u64;

// Rounds stop after this many steps, or after 1000 rounds.
const ENOUGH: u64 = 1000000;

// How many cores the last round met, how many steps all did, and the sum of what they gave, modulo 2 to the power 64.
#[derive(Clone, Copy)]
struct Tally {
    cores: u64,
    steps: u64,
    sum: u64,
}

// The tally with the steps back from one core.
fn step_letters(
    tally: Tally,
    ranks: u64,
    low: &[u8; 16],
    shape: Shape,
    opens: &[u8; 4096],
    parts: &[u8; 8],
) -> Tally
    requires { ((r : Rule) × RuleTables r opens.now parts.now shape) × Cored parts.now shape.components ranks × Lowest ranks low.now }
{
    let opened = low[15];
    let mut sum = tally.sum;
    let mut steps = tally.steps;
    for a in 0..shape.s {
        let before = build_step_back::step_back(
            opens,
            a,
            opened,
            parts,
            shape.components,
            shape.accepting,
            low,
        );
        let levels = before.levels;
        let level = levels[(ranks % 8) as usize];
        sum = wrapping_add_u64(sum, wrapping_add_u64(before.ranks, level));
        steps = wrapping_add_u64(steps, 1);
    }
    Tally {
        cores: wrapping_add_u64(tally.cores, 1),
        steps,
        sum,
    }
}

// The tally with the core of these ranks, if they are a core's.
fn visit(tally: Tally, ranks: u64, shape: Shape, opens: &[u8; 4096], parts: &[u8; 8]) -> Tally
    requires { ((r : Rule) × RuleTables r opens.now parts.now shape) × Within 8 ranks (caps_of parts.now shape.components) }
{
    if !build_cores::is_core(ranks, parts, shape.components) {
        return tally;
    }
    let low = build_cores::lowest(ranks);
    step_letters(tally, ranks, &low, shape, opens, parts)
}

// The tally after a round over all cores.
fn sweep(tally: Tally, shape: Shape, opens: &[u8; 4096], parts: &[u8; 8], caps: u64) -> Tally
    requires { ((r : Rule) × RuleTables r opens.now parts.now shape) × (caps ≡ caps_of parts.now shape.components) }
{
    let mut done = Tally {
        cores: 0,
        steps: tally.steps,
        sum: tally.sum,
    };
    let mut t = 0;
    loop {
        done = visit(done, t, shape, opens, parts);
        if t == caps {
            return done;
        }
        t = build_cores::next_ranks(t, caps);
    }
}

// Rounds over all cores, and the tally of all of them.
fn rounds(shape: Shape, opens: &[u8; 4096], parts: &[u8; 8]) -> Tally
    requires { (r : Rule) × RuleTables r opens.now parts.now shape }
{
    let caps = build_cores::largest_ranks(parts, shape.components);
    let mut tally = Tally {
        cores: 0,
        steps: 0,
        sum: 0,
    };
    for _ in 0..1000u32 {
        tally = sweep(tally, shape, opens, parts, caps);
        if ENOUGH <= tally.steps {
            return tally;
        }
    }
    tally
}

// The tally of an accepted file's rule, from the tables that the build makes of it.
fn rule_rounds(file: &[u8], l: Layout) -> Tally
    requires { read_of file.now ≡ Ok l }
{
    let p = build_lists::prepare::prepare(file, l, true);
    let parts = p.parts;
    let opens = build_lists::prepare::file_opens(file, l);
    rounds(p.shape, &opens, &parts)
}

// Prints a name and a number.
fn say(to: Stdout, name: &str, x: u64) -> io::Result<()> {
    println!(to; "{name}{x}")
}

// Prints the tally of a file's rule, or the row that refuses the file.
fn run(to: Stdout, file: &[u8]) -> io::Result<()> {
    match file_read::read_rule(file) {
        Err(refusal) => say(to, "refused ", refusal.row() as u64),
        Ok(l) => {
            let h = l.head;
            let tally = rule_rounds(file, l);
            say(to, "cores ", tally.cores)?;
            say(to, "letters ", h.s as u64)?;
            say(to, "steps ", tally.steps)?;
            say(to, "sum ", tally.sum)
        }
    }
}

fn main(rt: HostRuntime) -> io::Result<()> {
    let mut buffer = [0u8; 4096];
    let n = slice_read::read_full(&mut rt.stdin(), &mut buffer)?;
    run(rt.stdout(), &buffer[..n])
}
