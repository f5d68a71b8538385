ghost use Rattle.std.specs.Prelude.{MatchOption};
ghost use Rattle.teep_tool.specs.Words.{IsShow, IsCommand};

// The file that the words ask to show, and None where they are no command.
pub fn shown_file(words: &[String]) -> Option<&str>
    ensures { MatchOption result (IsCommand words.now → ⊥) (λ name. IsShow words.now name.now) }
{
    match words {
        [command, name] if command.as_str() == "show" => Some(name.as_str()),
        _ => None,
    }
}
