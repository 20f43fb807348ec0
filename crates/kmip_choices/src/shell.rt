//! A shell that completes command lines.
ghost use Rattle.std.specs.Prelude.{◌≡◌};
ghost use Rattle.kmip_choices.specs.Shells.{shell_named};

/// The words of the shells.
pub const SHELLS: [&str; 3] = ["bash", "zsh", "fish"];

/// A shell that completes command lines.
#[derive(Clone, Copy, Debug, PartialEq, Eq)]
pub enum Shell {
    Bash,
    Zsh,
    Fish,
}

impl Shell {
    /// The shell that this word names, if one has it.
    pub fn named(word: &str) -> Option<Shell>
        ensures { result ≡ shell_named word.now }
    {
        match word {
            "bash" => Some(Shell::Bash),
            "zsh" => Some(Shell::Zsh),
            "fish" => Some(Shell::Fish),
            _ => None,
        }
    }
}
