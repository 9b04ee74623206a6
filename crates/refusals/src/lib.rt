// Tables of refusals: rows tried in order, the first that applies. Entries state by such tables what they refuse.

#![tactic(auto)]

ghost use Rattle.std.specs.Prelude.{◌≡◌};
ghost use Rattle.refusals.specs.Rows.{number_of};

// What refuses a call, by the names that include/mulgreddi.h gives the rows, in their order.
#[derive(Clone, Copy)]
pub enum Refusal {
    // Row 1: file under 8 bytes.
    ShortFile = 1,
    // Row 2: last two bytes not the tag 41 57.
    NoTag,
    // Row 3: n outside 1..8.
    States,
    // Row 4: s outside 1..16.
    Letters,
    // Row 5: initial state not below n.
    Initial,
    // Row 6: accepting mask names a state not below n.
    Accepting,
    // Row 7: fewer than c + n * s bytes before the trailer; when writing: not exactly n * s counts.
    Cut,
    // Row 8: a count over 8.
    Count,
    // Row 9: counts do not sum to the number of clauses.
    Sum,
    // Row 10: a clause names a state not below n.
    Clause,
    // Row 11: a component with accepting and rejecting states.
    Mixed,
    // Row 12: empty cycle.
    NoCycle,
    // Row 13: lead-in or cycle over 32 letters.
    LongWord,
    // Row 14: a letter not below s.
    Letter,
    // Row 15: not a table: see mulgreddi_judge_table.
    Table,
    // Row 16: result or scratch slice too short.
    Slice,
    // Row 17: more reachable macrostates than room.
    MacrostateRoom,
    // Row 18: more transitions than room.
    TransitionRoom,
    // Row 19: no table that passes 15, under any rule, has this text.
    NoTable,
    // Row 20: an entry with a clause that contains another of its clauses; a repeat counts.
    ClauseInside,
    // Row 21: 4e 4d before the clauses and under 8 * s bytes before it; when writing: neither none nor 8 * s.
    Names,
    // Row 22: a name byte outside 20..7e.
    NameByte,
    // Row 23: two equal names.
    EqualNames,
    // Row 24: a sheet of more than 64 words.
    Words,
    // Row 25: an event line with lowest above highest, a letter not below s, cut off, or the 65th.
    EventLine,
    // Row 26: an event line all of whose pairs fall in earlier lines.
    CoveredLine,
    // Row 27: an event in no line.
    NoLine,
    // Row 28: two rules with different numbers of letters.
    OtherLetters,
    // Row 29: word or scratch of mulgreddi_stricter too short.
    PairRoom,
    // Row 30: arrival at 512 letters.
    LogFull,
    // Row 31: withdrawal from none.
    LogEmpty,
    // Row 32: mark number above 15.
    Mark,
    // Row 33: return to a mark not set since the start.
    MarkNotSet,
}

impl Refusal {
    // The number of the row.
    pub fn row(self) -> u8
        ensures { result ≡ number_of self }
    {
        self as u8
    }
}
