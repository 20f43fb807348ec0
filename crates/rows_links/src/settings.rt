//! What a run is given, as the words of a line say it.
ghost use Rattle.std.specs.Prelude.{IfOk, IsTrue};
ghost use Rattle.kmip_messages.specs.Members.{may_have};

use kmip_run_command::Report;
use std::test::Fail;

/// What a run is given beside its link and what it begins with.
#[derive(Clone, Copy)]
pub(crate) struct Settings<'w> {
    /// The file of its plan, where that is another one than the block's.
    pub(crate) plan: Option<&'w str>,
    /// In which form its end is printed.
    pub(crate) report: Report,
    /// How many exchanges it may make.
    pub(crate) limit: usize,
    /// How many keys a message asks about at most.
    pub(crate) batch: usize,
    /// How many texts have room with its keeper.
    pub(crate) room: usize,
    /// How many bytes have room with its writer, if it is not standard output.
    pub(crate) writer: Option<usize>,
    /// Whether no more is printed than how much it wrote and kept, and the ends of that.
    pub(crate) is_short: bool,
}

impl<'w> Settings<'w> {
    /// The settings of these words; one that they leave out is as in the first run of all.
    pub(crate) fn of(words: &'w str) -> Result<Self, Fail> {
        let mut settings = Settings {
            plan: None,
            report: Report::Plain,
            limit: 10_000,
            batch: 1,
            room: 10,
            writer: None,
            is_short: false,
        };
        for setting in words.split(", ") {
            let (word, given) = setting.split_once(' ').unwrap_or((setting, ""));
            settings.set(word, given)?;
        }
        Ok(settings)
    }

    fn set(&mut self, word: &str, given: &'w str) -> Result<(), Fail> {
        match word {
            "" => {}
            "of" => self.plan = Some(given),
            "with" if given == "identifiers" => self.report = Report::Identifiers,
            "limit" => self.limit = given.parse()?,
            "about" => self.batch = given.parse()?,
            "room" => self.room = given.parse()?,
            "writer" => self.writer = Some(given.parse()?),
            "in" => self.is_short = given == "short",
            _ => return Err(Fail::new("no setting of a run")),
        }
        Ok(())
    }
}

/// About how many keys a message asks at most, where it may ask about so many.
pub(crate) fn batch_of(most: usize) -> Result<usize, Fail>
    ensures { IfOk result (λ most. IsTrue (may_have most)) }
{
    if !(1..=8).contains(&most) {
        return Err(Fail::new("a message asks about one to eight keys"));
    }
    Ok(most)
}
