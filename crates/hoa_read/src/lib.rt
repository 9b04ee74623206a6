// The reader of a table's text. It goes over the text twice, so that a refusal leaves the slices as lent: once to see that it is a table's
// and what room it takes, and once to store flags and transitions.

#![tactic(auto)]

ghost use Rattle.std.specs.Prelude.{◌-◌, ◌<◌, ◌≡◌, length, get_or, MatchOption};
ghost use Rattle.hoa_spec.specs.Reading.{ReadBack};
ghost use Rattle.hoa_laws.specs.Took.{Ended};
ghost use Rattle.hoa_read.specs.Survey.{NoShape, HeadOf, Surveyed};

use hoa_read_parts::lines::{take, take_ap, take_numbered};
use hoa_read_parts::{take_blocks, take_starts};
use hoa_spec::TableSizes;
use refusals::Refusal;

// The lines before those of the macrostates: how many macrostates and propositions there are, one more than the highest number with a
// start line, where the start lines begin, and where the lines of the macrostates do.
#[derive(Clone, Copy)]
struct Head {
    macrostates: usize,
    propositions: usize,
    last: usize,
    starts: usize,
    blocks: usize,
}

// The whole text: how many macrostates, propositions, accepting macrostates and transitions there are, where the start lines begin and
// where the lines of the macrostates do, and where the text ends, or 0.
#[derive(Clone, Copy)]
struct Survey {
    macrostates: usize,
    propositions: usize,
    accepting: usize,
    transitions: usize,
    starts: usize,
    blocks: usize,
    end: usize,
}

fn no_survey() -> Survey
    ensures { result.end ≡ 0 }
{
    Survey {
        macrostates: 0,
        propositions: 0,
        accepting: 0,
        transitions: 0,
        starts: 0,
        blocks: 0,
        end: 0,
    }
}

// The last byte, 0 if there is none.
fn last_byte(text: &[u8]) -> u8
    ensures { result ≡ get_or text.now (length text.now - 1) 0 }
{
    let n = text.len();
    if n == 0 {
        return 0;
    }
    text[n - 1]
}

// The lines before those of the macrostates.
fn take_head(text: &[u8]) -> Option<Head>
    requires { Ended text.now }
    ensures { MatchOption result (NoShape text.now)
        (λ h. (0 < h.blocks) × HeadOf text.now h.macrostates h.propositions h.last h.starts h.blocks) }
{
    let a = take(text, 0, b"HOA: v1\n")?;
    let s = take_numbered(text, a, b"States:")?;
    let mut none = [0u8; 1];
    let t = take_starts(text, s.end, s.value, 0, &mut none);
    let q = take_ap(text, t.end)?;
    let d = take(
        text,
        q.end,
        b"acc-name: Buchi\nAcceptance: 1 Inf(0)\nproperties: trans-labels explicit-labels state-acc\n--BODY--\n",
    )?;
    Some(Head {
        macrostates: s.value,
        propositions: q.value,
        last: t.last,
        starts: s.end,
        blocks: d,
    })
}

// The whole text.
fn take_text(text: &[u8]) -> Survey
    ensures { Surveyed text.now result.macrostates result.propositions result.accepting result.transitions result.starts result.blocks
        result.end }
{
    if last_byte(text) != b'\n' {
        return no_survey();
    }
    let Some(h) = take_head(text) else {
        return no_survey();
    };
    let mut none = [0u64; 1];
    let Some(e) = take_blocks(text, h.blocks, h.propositions, h.macrostates, &mut none) else {
        return no_survey();
    };
    if e.accepting < h.last {
        return no_survey();
    }
    let Some(r) = take(text, e.end, b"--END--\n") else {
        return no_survey();
    };
    if r != text.len() {
        return no_survey();
    }
    Survey {
        macrostates: h.macrostates,
        propositions: h.propositions,
        accepting: e.accepting,
        transitions: e.count,
        starts: h.starts,
        blocks: h.blocks,
        end: r,
    }
}

// Reads a table's text: flags, a byte a macrostate, and packed transitions to the start of both slices. 19 if no table has the text,
// then 16 if a slice is too short; both slices are as lent then.
pub fn read_hoa(
    text: &[u8],
    flags: &mut [u8],
    transitions: &mut [u64],
) -> Result<TableSizes, Refusal>
    ensures { ReadBack text.now flags.old transitions.old result
        flags.new transitions.new }
{
    let s = take_text(text);
    if s.end == 0 {
        return Err(Refusal::NoTable);
    }
    let n = s.macrostates;
    if flags.len() < n {
        return Err(Refusal::Slice);
    }
    let m = s.transitions;
    if transitions.len() < m {
        return Err(Refusal::Slice);
    }
    take_starts(text, s.starts, n, s.accepting, flags);
    take_blocks(text, s.blocks, s.propositions, n, transitions);
    Ok(TableSizes {
        macrostates: n,
        transitions: m,
    })
}
