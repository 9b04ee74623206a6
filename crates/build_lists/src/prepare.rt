// What the build and the comparison work by: the numbers of a rule, the masks of its components and the table of its open states.
ghost use Rattle.std.specs.Prelude.{◌≡◌};
ghost use Rattle.theory.specs.Automaton.{automaton};
ghost use Rattle.file_spec.specs.File.{rule_in};
ghost use Rattle.file_spec.specs.Reading.{read_of};
ghost use Rattle.build_cores.specs.Opens.{Opens};
ghost use Rattle.build_spec.specs.Tables.{Shaped};

use build_spec::Shape;
use file_spec::Layout;

// The numbers of a rule and the masks of its components.
#[derive(Clone, Copy)]
pub struct Prepared {
    pub shape: Shape,
    pub parts: [u8; 8],
}

// The numbers of an accepted file's rule and the masks of its components. A run begins where the set holds the initial state, or, if
// `holds` is false, where it lacks it.
pub fn prepare(file: &[u8], l: Layout, holds: bool) -> Prepared
    requires { read_of file.now ≡ Ok l }
    ensures { Shaped (rule_in file.now) result.parts result.shape × (result.shape.holds ≡ holds) }
{
    let h = l.head;
    let split = rule_components::split(
        h,
        file_read::counts_of(file, l),
        file_read::clauses_of(file, l),
    );
    let parts = split.masks;
    let shape = Shape {
        s: h.s,
        components: split.count,
        accepting: h.accepting as u8,
        initial: h.initial,
        holds,
    };
    Prepared { shape, parts }
}

// The table of the open states of an accepted file's rule. It is not in the struct, since a copy of it would stay on the stack.
pub fn file_opens(file: &[u8], l: Layout) -> [u8; 4096]
    requires { read_of file.now ≡ Ok l }
    ensures { Opens (automaton (rule_in file.now)) (rule_in file.now).s result }
{
    let h = l.head;
    build_cores::opens::open_table(
        h,
        file_read::counts_of(file, l),
        file_read::clauses_of(file, l),
    )
}
