ghost use Rattle.std.specs.Prelude.{◌↔◌, IsTrue};
ghost use Rattle.agent_run.specs.Words.{IsRun};

// Whether the words are `run` alone.
pub fn is_run(words: &[String]) -> bool
    ensures { IsTrue result ↔ IsRun words.now }
{
    match words {
        [word] => word.as_str() == "run",
        _ => false,
    }
}
