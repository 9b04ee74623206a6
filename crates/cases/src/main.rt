// Runs the library's entries on the calls of standard input. Prints for each its name, what the lent slices hold afterwards or the preface,
// and the answer as three numbers: the row that refuses, or 0, and two values. The second program wrote the calls and what must be printed.

#![tactic(auto)]

mod text;

use crate::text::{byte, lent_bytes, lent_numbers, part, say, say_answer, say_bytes, say_numbers};
use refusals::Refusal;
use std::io;
use std::io::{Stdin, Stdout};

fn run_read(to: Stdout, file: &[u8]) -> io::Result<()> {
    say(to, file_read::preface(file))?;
    match file_read::read_rule(file) {
        Ok(layout) => say_answer(to, 0, layout.at, layout.clauses),
        Err(refusal) => say_answer(to, refusal.row(), 0, 0),
    }
}

// 1 for yes, 0 for no.
fn say_truth(to: Stdout, answer: Result<bool, Refusal>) -> io::Result<()> {
    match answer {
        Ok(yes) => say_answer(to, 0, yes as usize, 0),
        Err(refusal) => say_answer(to, refusal.row(), 0, 0),
    }
}

fn run_same_rules(to: Stdout, first: &[u8], second: &[u8]) -> io::Result<()> {
    say_truth(to, rule_same::files::same_rules(first, second))
}

fn run_same_words(
    to: Stdout,
    lead1: &[u8],
    cycle1: &[u8],
    lead2: &[u8],
    cycle2: &[u8],
) -> io::Result<()> {
    say_truth(to, word_same::same_words(lead1, cycle1, lead2, cycle2))
}

fn say_written(to: Stdout, answer: Result<usize, Refusal>) -> io::Result<()> {
    match answer {
        Ok(length) => say_answer(to, 0, length, 0),
        Err(refusal) => say_answer(to, refusal.row(), 0, 0),
    }
}

fn write_into(to: Stdout, call: &[u8], out: &mut [u8]) -> io::Result<()> {
    let answer = file_write::writer::write_rule(
        byte(call, 2) as u32,
        byte(call, 3) as u32,
        byte(call, 4) as u32,
        byte(call, 5) as u32,
        part(call, 1),
        part(call, 2),
        out,
    );
    say_bytes(to, out)?;
    say_written(to, answer)
}

fn run_write(to: Stdout, call: &[u8]) -> io::Result<()> {
    let mut out = lent_bytes();
    let room = byte(call, 1);
    write_into(to, call, &mut out[0..room])
}

fn write_named_into(to: Stdout, call: &[u8], out: &mut [u8]) -> io::Result<()> {
    let answer = file_write::writer::write_named(
        byte(call, 2) as u32,
        byte(call, 3) as u32,
        byte(call, 4) as u32,
        byte(call, 5) as u32,
        part(call, 1),
        part(call, 2),
        part(call, 3),
        out,
    );
    say_bytes(to, out)?;
    say_written(to, answer)
}

fn run_write_named(to: Stdout, call: &[u8]) -> io::Result<()> {
    let mut out = lent_bytes();
    let room = byte(call, 1);
    write_named_into(to, call, &mut out[0..room])
}

fn judge_into(
    to: Stdout,
    file: &[u8],
    lead: &[u8],
    cycle: &[u8],
    masks: &mut [u8],
) -> io::Result<()> {
    let answer = judge::judge(file, lead, cycle, masks);
    say_bytes(to, masks)?;
    say_truth(to, answer)
}

fn run_judge(to: Stdout, call: &[u8]) -> io::Result<()> {
    let mut masks = lent_bytes();
    let room = byte(call, 1);
    judge_into(
        to,
        part(call, 1),
        part(call, 2),
        part(call, 3),
        &mut masks[0..room],
    )
}

fn build_into(
    to: Stdout,
    file: &[u8],
    codes: &mut [u64],
    transitions: &mut [u64],
) -> io::Result<()> {
    let answer = build::build(file, codes, transitions);
    say_numbers(to, codes)?;
    say_numbers(to, transitions)?;
    match answer {
        Ok(counts) => say_answer(to, 0, counts.macrostates, counts.transitions),
        Err(refusal) => say_answer(to, refusal.row(), 0, 0),
    }
}

fn run_build(to: Stdout, call: &[u8]) -> io::Result<()> {
    let mut codes = lent_numbers();
    let mut transitions = lent_numbers();
    let n = byte(call, 1);
    let m = byte(call, 2);
    build_into(to, part(call, 1), &mut codes[0..n], &mut transitions[0..m])
}

fn say_start(to: Stdout, answer: Result<Option<usize>, Refusal>) -> io::Result<()> {
    match answer {
        Ok(Some(number)) => say_answer(to, 0, 1, number),
        Ok(None) => say_answer(to, 0, 0, 0),
        Err(refusal) => say_answer(to, refusal.row(), 0, 0),
    }
}

fn judge_table_into(
    to: Stdout,
    file: &[u8],
    lead: &[u8],
    cycle: &[u8],
    codes: &[u8],
    transitions: &[u8],
    scratch: &mut [u8],
) -> io::Result<()> {
    let answer = table_judge::judge_table_bytes(file, lead, cycle, codes, transitions, scratch);
    say_bytes(to, scratch)?;
    say_start(to, answer)
}

fn run_judge_table(to: Stdout, call: &[u8]) -> io::Result<()> {
    let mut scratch = lent_bytes();
    let room = byte(call, 1);
    judge_table_into(
        to,
        part(call, 1),
        part(call, 2),
        part(call, 3),
        part(call, 4),
        part(call, 5),
        &mut scratch[0..room],
    )
}

// The judge on the numbers that a build leaves in its two slices.
fn judge_built_into(
    to: Stdout,
    file: &[u8],
    lead: &[u8],
    cycle: &[u8],
    codes: &mut [u64],
    transitions: &mut [u64],
    scratch: &mut [u8],
) -> io::Result<()> {
    let _ = build::build(file, codes, transitions);
    let answer = table_judge::judge_table(file, lead, cycle, codes, transitions, scratch);
    say_bytes(to, scratch)?;
    say_start(to, answer)
}

fn run_judge_built(to: Stdout, call: &[u8]) -> io::Result<()> {
    let mut codes = lent_numbers();
    let mut transitions = lent_numbers();
    let mut scratch = lent_bytes();
    let n = byte(call, 1);
    let m = byte(call, 2);
    let room = byte(call, 3);
    judge_built_into(
        to,
        part(call, 1),
        part(call, 2),
        part(call, 3),
        &mut codes[0..n],
        &mut transitions[0..m],
        &mut scratch[0..room],
    )
}

fn run(to: Stdout, call: &[u8]) -> io::Result<()> {
    say(to, part(call, 0))?;
    match byte(call, 0) {
        0 => run_read(to, part(call, 1)),
        1 => run_write(to, call),
        2 => run_same_rules(to, part(call, 1), part(call, 2)),
        3 => run_same_words(
            to,
            part(call, 1),
            part(call, 2),
            part(call, 3),
            part(call, 4),
        ),
        4 => run_judge(to, call),
        5 => run_build(to, call),
        6 => run_judge_table(to, call),
        7 => run_judge_built(to, call),
        _ => run_write_named(to, call),
    }
}

fn run_next(from: &mut Stdin, to: Stdout) -> io::Result<bool> {
    let mut call = [0u8; 256];
    let n = slice_read::read_full(from, &mut call)?;
    if n < 256 {
        return Ok(false);
    }
    run(to, &call)?;
    Ok(true)
}

// A proved loop has to end, and nothing says that the input does: it has at most so many turns.
fn main(rt: HostRuntime) -> io::Result<()> {
    let mut from = rt.stdin();
    for _ in 0..1000u32 {
        if !run_next(&mut from, rt.stdout())? {
            return Ok(());
        }
    }
    Ok(())
}
