//! Theorems: a call that began a run made one run by the rules, its journal is judged valid, and its picks can be made again.

ghost use Rattle.std.specs.Prelude.{◌≡◌, ℕ, List, [], Some, IfSome};
ghost use Rattle.ame_check.specs.Judge.{Judges};
ghost use Rattle.ame_check.specs.declared.judging.Judged.{Judged};
ghost use Rattle.ame_code.specs.Code.{program_of};
ghost use Rattle.ame_io.specs.Reads.{IsReadWhole};
ghost use Rattle.ame_cli.specs.declared.command.Command.{Command};
ghost use Rattle.ame_cli.specs.declared.command.Options.{Options};
ghost use Rattle.ame_cli.specs.Grammar.{SpellsCommand};
ghost use Rattle.ame_shell.specs.Ends.{Ends};
ghost use Rattle.ame_app.specs.Calls.{Call};
ghost use Rattle.ame_app.specs.Reported.{Reported};
ghost use Rattle.ame_app.specs.Answered.{IsPromised};
ghost use Rattle.ame_app.specs.Headline.{journal_of};
ghost use Rattle.ame_app.specs.RunResult.{end_in};
ghost use Rattle.ame_app.specs.Verbs.Sim.{seats_picked};
ghost use Rattle.ame_sim.specs.Schedule.{IsScheduled};
ghost use Rattle.ame_certified.specs.RoundTrip.{IsRoundTrip};
ghost use Rattle.ame_one_run.specs.OneRun.{AskForRun, IsOneRun};
ghost use Rattle.ame_one_run.specs.Commands.{BeginsAnew, IsRunOf};
ghost use Rattle.ame_one_run.specs.Repeats.{AskForPicks, AreOfOneText, ArePickedAlike, AreUndisturbed, IsRepeated};

use ame_cli::spells_one_command;
use ame_parse::spelled_is_read;

/// Says that a call with the words of `run`, if it began a run, read its whole text, and made one run of it by the rules.
pub fn one_run()
    ensures { (call : Call) (report : Reported) (before after : Ends) → IsPromised call report before after
        → AskForRun call.words → IfSome report.run (λ _. IsReadWhole call.source.left call.source_after.left report.text
        × IsOneRun report.text call.devices [] before after) }
{
    spelled_is_read();
}

/// Says that a call with the words of `run`, `bench`, `sim` or `replay`, if it began a run, made one run of its text by the rules.
pub fn each_run()
    ensures { (call : Call) (report : Reported) (before after : Ends) (command : Command)
        → IsPromised call report before after → SpellsCommand call.words command → BeginsAnew command
        → IfSome report.run (λ run. IsRunOf command call report run before after) }
{
    spelled_is_read();
    spells_one_command();
}

/// Says that certificates round-trip. `judge` finds the journal of a call that began a run valid, with the output that the run printed, or it
/// finds it too long, for any command.
pub fn certificates_round_trip()
    ensures { (call : Call) (report : Reported) (before after : Ends) → IsPromised call report before after
        → IfSome report.run (λ run. (judged : Judged) → Judges (program_of run.code) (journal_of (end_in run.left)) judged
        → IsRoundTrip (end_in run.left).output judged) }
{}

/// Says that the picks of a run can be made again. Take two calls with the words of `sim` or `replay` that ran one text, and whose devices
/// answered alike. If they picked the same seats with the same limits, or were given the same seed and options, each pick did the same in both,
/// and they have the same entries, output, turns and stop. So it is if the second one has the words of `replay`, and reads the schedule of the
/// first one.
pub fn picked_runs_repeat()
    ensures seats { (call other : Call) (report again : Reported) (before after earlier later : Ends)
        → IsPromised call report before after → IsPromised other again earlier later
        → AskForPicks call.words → AskForPicks other.words → AreOfOneText call other report again
        → IfSome report.run (λ run. IfSome again.run (λ next. ArePickedAlike run next → AreUndisturbed run next → IsRepeated run next)) }
    ensures seed { (call other : Call) (report again : Reported) (before after earlier later : Ends) (seed : ℕ) (options : Options)
        → IsPromised call report before after → IsPromised other again earlier later
        → SpellsCommand call.words (Command.Sim seed options) → SpellsCommand other.words (Command.Sim seed options) → AreOfOneText call other report again
        → IfSome report.run (λ run. IfSome again.run (λ next. AreUndisturbed run next → IsRepeated run next)) }
    ensures schedule { (call other : Call) (report again : Reported) (before after earlier later : Ends) (options : Options) (bytes : List ℕ)
        → IsPromised call report before after → IsPromised other again earlier later → AskForPicks call.words → SpellsCommand other.words (Command.Replay options)
        → other.source.left ≡ Some bytes → other.devices ≡ call.devices
        → IfSome report.run (λ run. IfSome again.run (λ next. IsScheduled bytes (seats_picked run.left) report.text
        → (end_in next.left).limits ≡ (end_in run.left).limits → AreUndisturbed run next → IsRepeated run next)) }
{
    spells_one_command();
}
