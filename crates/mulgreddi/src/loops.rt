// The C entry of the report of a mixed loop, for a caller whose rule is refused by row 11.
ghost use Rattle.std.specs.Prelude.{◌≡◌, length, take};
ghost use Rattle.file_spec.specs.File.{rule_in};
ghost use Rattle.loop_spec.specs.Loops.{Reported};
ghost use Rattle.loop_spec.specs.Reported.{report_row, report_of, slice_after};
ghost use Rattle.mulgreddi_answers.specs.Answers.{loop_answer};

use mulgreddi_answers::Answer;

// The shortest mixed loop of a rule file: writes its states to the start of out; their number, 0 for none.
#[unsafe(no_mangle)]
pub extern "C" fn mulgreddi_mixed_loop(file: &[u8], out: &mut [u8]) -> Answer
    ensures value { result ≡ loop_answer (report_of file.now (length out.old)) }
    ensures out_after { out.new ≡ slice_after file.now out.old }
    ensures reported { report_row file.now (length out.old) ≡ 0
        → Reported (rule_in file.now) (take result.first out.new) }
{
    mulgreddi_answers_rules::reported(loop_report::mixed_loop(file, out))
}
