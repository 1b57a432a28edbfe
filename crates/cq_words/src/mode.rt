//! The first word.
ghost use Rattle.std.specs.Prelude.{◌≡◌};
ghost use Rattle.cq_words.specs.Jobs.{mode_of};

// The mode that the first word names.
#[derive(Clone, Copy)]
pub(crate) enum Mode {
    Run,
    Eval,
    Check,
    Explain,
    SelfRun,
    Many,
}

// Returns the mode that a word names.
pub(crate) fn mode_of(word: &str) -> Option<Mode>
    ensures { result ≡ mode_of word.now }
{
    if word == "run" {
        Some(Mode::Run)
    } else if word == "eval" {
        Some(Mode::Eval)
    } else if word == "check" {
        Some(Mode::Check)
    } else if word == "explain" {
        Some(Mode::Explain)
    } else if word == "selfrun" {
        Some(Mode::SelfRun)
    } else if word == "many" {
        Some(Mode::Many)
    } else {
        None
    }
}
