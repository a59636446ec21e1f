//! Laws of the grammar: facts for proofs, which do nothing.
ghost use Rattle.std.specs.Prelude.{◌≡◌, List, ℕ};
ghost use Rattle.ame_cli.specs.Grammar.{SpellsCommand};
ghost use Rattle.ame_cli.specs.Ranges.{IsInRange};
ghost use Rattle.ame_cli.specs.declared.command.Command.{Command};

/// Says that a list of words spells at most one command.
pub fn spells_one_command()
    ensures { (words : List (List ℕ)) (command other : Command) → SpellsCommand words command → SpellsCommand words other → command ≡ other }
{}

/// Says that words spell every command whose numbers are in their ranges, and no other command.
pub fn commands_in_range_are_spelled()
    ensures spelled { (command : Command) → IsInRange command → (words : List (List ℕ)) × SpellsCommand words command }
    ensures ranges { (words : List (List ℕ)) (command : Command) → SpellsCommand words command → IsInRange command }
{}
