// The cycles of a sheet that are known, each a part of the sheet. Words share cycles, so the masks of each are filled once.
ghost use Rattle.std.specs.Prelude.{◌≡◌, ◌+◌, ◌≤◌, ◌<◌, length, take, drop};
ghost use Rattle.rule_entries.specs.Entries.{rule_of};
ghost use Rattle.rule_reach.specs.Tables.{closures_of};
ghost use Rattle.judge_place.specs.Starts.{CycleReady};
ghost use Rattle.sheet_cycles.specs.Known.{Parts, Found};
ghost use Rattle.sheet_cycles.specs.Filled.{Filled, Learnt};

use check::same;
use judge_masks::word::fill_cycle;
use rule_entries::Head;

// The number of the first of n known cycles that is the given one, or n. Cycle k is the sheet's part of size[k] bytes from byte from[k] on.
pub fn find_cycle(sheet: &[u8], from: &[usize], size: &[usize], n: usize, cycle: &[u8]) -> usize
    requires { Parts sheet.now from.now size.now n }
    ensures { Found sheet.now from.now size.now n cycle.now result }
{
    for k in 0..n {
        let start = from[k];
        let end = start + size[k];
        if same(&sheet[start..end], cycle) {
            return k;
        }
    }
    n
}

// The numbers of a rule and, for each of its states, the mask of the states that it reaches.
#[derive(Clone, Copy)]
pub struct Reachability {
    pub head: Head,
    pub reach: [u8; 8],
}

// A cycle to be learned: the sheet's part of size bytes from byte begin on; and how many cycles are known.
#[derive(Clone, Copy)]
pub struct Sought {
    pub begin: usize,
    pub size: usize,
    pub cycles: usize,
}

// The number of a known cycle, and how many are known.
#[derive(Clone, Copy)]
pub struct Learned {
    pub number: usize,
    pub cycles: usize,
}

// The number of the cycle that is sought. A new one is added, and its masks are filled.
pub fn learn_cycle(
    rule: Reachability,
    counts: &[u8],
    starts: &[u16; 128],
    clauses: &[u8],
    sheet: &[u8],
    sought: Sought,
    from: &mut [usize],
    size: &mut [usize],
    filled: &mut [u8],
) -> Learned
    requires { CycleReady (rule_of rule.head counts.now clauses.now) starts.now
        (take sought.size (drop sought.begin sheet.now))
        × (rule.reach ≡ closures_of (rule_of rule.head counts.now clauses.now))
        × Filled (rule_of rule.head counts.now clauses.now) sheet.now from.old size.old filled.old sought.cycles
        × (sought.cycles < 64)
        × (sought.size ≤ 32)
        × (sought.begin + sought.size ≤ length sheet.now) }
    ensures { Learnt (rule_of rule.head counts.now clauses.now) sheet.now from.old
        size.old sought.cycles (take sought.size (drop sought.begin sheet.now))
        from.new size.new filled.new result }
{
    let h = rule.head;
    let reach = rule.reach;
    let begin = sought.begin;
    let p = sought.size;
    let n = sought.cycles;
    let end = begin + p;
    let number = find_cycle(sheet, from, size, n, &sheet[begin..end]);
    if number < n {
        return Learned { number, cycles: n };
    }
    let first = 32 * n;
    let last = first + p;
    fill_cycle(
        h,
        counts,
        starts,
        clauses,
        &reach,
        &sheet[begin..end],
        &mut filled[first..last],
    );
    from[n] = begin;
    size[n] = p;
    let cycles = n + 1;
    Learned { number: n, cycles }
}
