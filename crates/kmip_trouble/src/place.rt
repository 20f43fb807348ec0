//! A file that a command could not use.
ghost use Rattle.std.specs.Prelude.{◌≡◌, string_bytes};

/// A file that a command could not use: the path that the command was given, and the path of the file, if it is
/// another one next to it.
#[derive(Drop)]
pub struct Place {
    given: String,
    file: Option<String>,
}

impl Place {
    /// The file at the path that was given. Takes no memory.
    pub fn of(given: String) -> Self {
        Place { given, file: None }
    }

    /// Another file, next to the one at the path that was given. Takes no memory.
    pub fn beside(given: String, file: String) -> Self {
        Place {
            given,
            file: Some(file),
        }
    }

    /// The path that was given, which standard output and JSON name.
    pub(crate) fn given(&self) -> &str
        ensures { result.now ≡ string_bytes self.now.given }
    {
        self.given.as_str()
    }

    /// The path of the file, which standard error names.
    pub(crate) fn file(&self) -> &str {
        match &self.file {
            Some(file) => file.as_str(),
            None => self.given(),
        }
    }
}
