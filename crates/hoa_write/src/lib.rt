// The writer of a table's text in the Hanoi Omega-Automata format, version 1, by which a built automaton goes to other tools.

#![tactic(auto)]

ghost use Rattle.std.specs.Prelude.{◌≡◌, ◌<◌, ◌≤◌, leb, length};
ghost use Rattle.listing_lines_spec.specs.Lines.{initial_at};
ghost use Rattle.table_lent.specs.Lent.{words_in, in_bytes_lem};
ghost use Rattle.table_rows.specs.Passed.{Passed};
ghost use Rattle.hoa_spec.specs.Text.{flags_of, automaton_text};
ghost use Rattle.hoa_write.specs.Written.{hoa_written, hoa_after, Called};

use file_read::read_rule;
use hoa_text::lengths::text_length;
use hoa_text::lines::propositions_of;
use hoa_text::writer::put_text;
use refusals::Refusal;
use table_rows::rows::table_row;

// Whether the text has room in a slice of so many bytes. Only a slice shorter than the bound needs the text's length.
fn fits(room: usize, s: usize, b: usize, initial: u32, codes: &[u8], moves: &[u8]) -> bool
    requires { (b ≤ 4) × (initial < 8) × Passed s (words_in codes.now) (words_in moves.now) }
    ensures { result
        ≡ leb (length (automaton_text b (flags_of (initial_at initial) (words_in codes.now))
        (words_in moves.now))) room }
{
    if 30 * (codes.len() / 8) + 20 * (moves.len() / 8) + 153 <= room {
        return true;
    }
    text_length(b, initial, codes, moves) <= room
}

// Writes the text of a table to the start of text, for a rule of s letters with this initial state; its length. Refused by rows 15 and 16,
// in this order, and text is then unchanged.
fn write_read(
    s: usize,
    initial: u32,
    codes: &[u8],
    moves: &[u8],
    text: &mut [u8],
) -> Result<usize, Refusal>
    requires { (s ≤ 16) × (initial < 8) }
    ensures { Called s initial (in_bytes_lem codes.now) (in_bytes_lem moves.now)
        text.old text.new result }
{
    let words = [0u64; 1];
    let none = &words[..0];
    table_row(s, none, codes, none, moves)?;
    let b = propositions_of(s);
    if !fits(text.len(), s, b, initial, codes, moves) {
        return Err(Refusal::Slice);
    }
    Ok(put_text(text, b, initial, codes, moves))
}

// Writes the text of a table, each code and transition as 8 bytes, low byte first, to the start of text; its length.
// Refused by the rows of the rule file and by rows 15 and 16, in this order, and text is then unchanged.
pub fn write_hoa(
    file: &[u8],
    codes: &[u8],
    transitions: &[u8],
    text: &mut [u8],
) -> Result<usize, Refusal>
    ensures value { result
        ≡ hoa_written file.now (in_bytes_lem codes.now) (in_bytes_lem transitions.now)
        (length text.old) }
    ensures text_after { text.new
        ≡ hoa_after file.now (in_bytes_lem codes.now) (in_bytes_lem transitions.now) text.old }
{
    let l = read_rule(file)?;
    write_read(l.head.s, l.head.initial as u32, codes, transitions, text)
}
