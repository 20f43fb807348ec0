//! How a command of a block is carried out, by the words behind it.

use std::test::Fail;

/// The length of a piece, where all of the input is to be one.
const ALL: &str = "1000000000";

/// How the reader and the writer of a command behave, and what is told beside what is written.
#[derive(Drop)]
pub(crate) struct Way<'a> {
    /// The lengths of the pieces that the reader gives, joined by ` and `: the command is carried out with
    /// each of them.
    pub(crate) pieces: &'a str,
    /// Whether the reader is interrupted before each piece.
    pub(crate) is_interrupted: bool,
    /// Whether the reader fails behind its bytes.
    pub(crate) does_fail: bool,
    /// Whether the last line of the input lacks its line feed.
    pub(crate) lacks_line_feed: bool,
    /// How many bytes the writer has room for, where it has not for all.
    pub(crate) room: Option<usize>,
    /// Whether the command is carried out in memory alone.
    pub(crate) is_in_memory: bool,
    /// Whether the one line of the input is cut into two, behind each of its bytes in turn.
    pub(crate) is_cut: bool,
    /// Whether it is told what became of a stream.
    pub(crate) tells_outcome: bool,
    /// Whether it is told when what was written was sent on.
    pub(crate) tells_sent: bool,
}

impl<'a> Way<'a> {
    /// The way of these words, joined by `, `.
    pub(crate) fn of(words: &'a str) -> Result<Way<'a>, Fail> {
        let mut way = Way {
            pieces: ALL,
            is_interrupted: false,
            does_fail: false,
            lacks_line_feed: false,
            room: None,
            is_in_memory: false,
            is_cut: false,
            tells_outcome: false,
            tells_sent: false,
        };
        for word in words.split(", ") {
            way.take(word)?;
        }
        Ok(way)
    }

    /// Takes one more of the words.
    fn take(&mut self, word: &'a str) -> Result<(), Fail> {
        match word {
            "" => {}
            "interrupted" => self.is_interrupted = true,
            "then failing" => self.does_fail = true,
            "without the last line feed" => self.lacks_line_feed = true,
            "in memory alone" => self.is_in_memory = true,
            "cut at each byte" => self.is_cut = true,
            "telling its outcome" => self.tells_outcome = true,
            "telling when it is sent on" => self.tells_sent = true,
            _ => match word.strip_prefix("in pieces of ") {
                Some(pieces) => self.pieces = pieces,
                None => self.room = Some(word.strip_prefix("room for ").ok_or("a word")?.parse()?),
            },
        }
        Ok(())
    }

    /// The input, of this text.
    pub(crate) fn input_of<'t>(&self, text: &'t str) -> &'t str {
        match text.strip_suffix("\n") {
            Some(input) if self.lacks_line_feed => input,
            _ => text,
        }
    }

    /// Whether all of the input is read, and what is told is what is written: so it is in memory too.
    pub(crate) fn is_whole(&self) -> bool {
        !self.does_fail && self.room.is_none() && !self.tells_sent
    }
}
