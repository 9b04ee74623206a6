// The lines of a listing, by which a table can be read and compared as text: one with both counts, then one a name, macrostate, transition.
ghost use Rattle.std.specs.Prelude.{◌≡◌, ◌+◌, ◌≤◌, ◌<◌, length};
ghost use Rattle.listing_lines_spec.specs.Lines.{initial_at, sign, built_line, m_line};
ghost use Rattle.listing_lines_spec.specs.Lines.{t_line, n_line, refused_line, name_lines, macrostate_lines, transition_lines, table_text};
ghost use Rattle.slice_text.specs.Put.{Put};

// The letter, or a `-` where not.
fn sign_of(holds: bool, letter: u8) -> u8
    ensures { result ≡ sign holds letter }
{
    if holds {
        return letter;
    }
    b'-'
}

// ---- lines, at a place of a slice; each function answers the place after it

// Line one.
fn put_built(out: &mut [u8], macrostates: usize, transitions: usize) -> usize
    requires { length (built_line macrostates transitions) ≤ length out.old }
    ensures { Put out.old 0 (built_line macrostates transitions) out.new result }
{
    let a = slice_text::put(out, 0, b"built");
    let b = slice_text::put_word(out, a, macrostates as u64);
    let c = slice_text::put_word(out, b, transitions as u64);
    slice_text::put_byte(out, c, b'\n')
}

// An m line.
fn put_macrostate(
    out: &mut [u8],
    at: usize,
    number: usize,
    code: u64,
    initial: bool,
    accepting: bool,
) -> usize
    requires { at + length (m_line number code initial accepting) ≤ length out.old }
    ensures { Put out.old at (m_line number code initial accepting) out.new result }
{
    let a = slice_text::put_byte(out, at, b'm');
    let b = slice_text::put_word(out, a, number as u64);
    let c = slice_text::put_word(out, b, code);
    let marks = [
        b' ',
        sign_of(initial, b'i'),
        b' ',
        sign_of(accepting, b'a'),
        b'\n',
    ];
    slice_text::put(out, c, &marks)
}

// A t line.
fn put_transition(out: &mut [u8], at: usize, source: usize, letter: usize, target: usize) -> usize
    requires { at + length (t_line source letter target) ≤ length out.old }
    ensures { Put out.old at (t_line source letter target) out.new result }
{
    let a = slice_text::put_byte(out, at, b't');
    let b = slice_text::put_word(out, a, source as u64);
    let c = slice_text::put_word(out, b, letter as u64);
    let d = slice_text::put_word(out, c, target as u64);
    slice_text::put_byte(out, d, b'\n')
}

// An n line.
fn put_name(out: &mut [u8], at: usize, letter: usize, name: &[u8]) -> usize
    requires { at + length (n_line letter name.now) ≤ length out.old }
    ensures { Put out.old at (n_line letter name.now) out.new result }
{
    let a = slice_text::put_byte(out, at, b'n');
    let b = slice_text::put_word(out, a, letter as u64);
    let c = slice_text::put_byte(out, b, b' ');
    let d = slice_text::put(out, c, name);
    slice_text::put_byte(out, d, b'\n')
}

// A refusal.
pub fn put_refused(out: &mut [u8], row: u8) -> usize
    requires { length (refused_line row) ≤ length out.old }
    ensures { Put out.old 0 (refused_line row) out.new result }
{
    let a = slice_text::put(out, 0, b"refused");
    let b = slice_text::put_word(out, a, row as u64);
    slice_text::put_byte(out, b, b'\n')
}

// ---- tables

// The n lines of names, 8 bytes a letter.
fn put_names(out: &mut [u8], at: usize, names: &[u8]) -> usize
    requires { at + length (name_lines names.now) ≤ length out.old }
    ensures { Put out.old at (name_lines names.now) out.new result }
{
    let mut end = at;
    for i in 0..names.len() / 8 {
        let start = 8 * i;
        end = put_name(out, end, i, &names[start..start + 8]);
    }
    end
}

// The m lines of codes, of a rule with this initial state.
fn put_macrostates(out: &mut [u8], at: usize, list: &[u64], initial: u32) -> usize
    requires { (initial < 8) × (at + length (macrostate_lines (initial_at initial) list.now) ≤ length out.old) }
    ensures { Put out.old at (macrostate_lines (initial_at initial) list.now) out.new result }
{
    let mut end = at;
    for (i, code) in list.iter().enumerate() {
        let begins = codes::is_initial(*code, initial);
        let accepts = codes::is_accepting(*code);
        end = put_macrostate(out, end, i, *code, begins, accepts);
    }
    end
}

// The t lines of transitions.
fn put_transitions(out: &mut [u8], at: usize, list: &[u64]) -> usize
    requires { at + length (transition_lines list.now) ≤ length out.old }
    ensures { Put out.old at (transition_lines list.now) out.new result }
{
    let mut end = at;
    for t in list {
        let source = codes::source_of(*t);
        let letter = codes::letter_of(*t);
        let target = codes::target_of(*t);
        end = put_transition(out, end, source, letter, target);
    }
    end
}

// All lines of a table.
pub fn put_table(
    out: &mut [u8],
    initial: u32,
    names: &[u8],
    list: &[u64],
    transitions: &[u64],
) -> usize
    requires { (initial < 8)
        × (length (table_text (initial_at initial) names.now list.now transitions.now) ≤ length out.old) }
    ensures { Put out.old 0 (table_text (initial_at initial) names.now list.now transitions.now)
        out.new result }
{
    let a = put_built(out, list.len(), transitions.len());
    let b = put_names(out, a, names);
    let c = put_macrostates(out, b, list, initial);
    put_transitions(out, c, transitions)
}
