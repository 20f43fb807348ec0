//! When a server last replied, and when all keys were last finished.
ghost use Rattle.std.specs.Prelude.{◌≡◌};
ghost use Rattle.kmip_run_record.specs.Times.{times_after};

/// When a server last replied to a command, and when the command last found all keys finished, in seconds since the
/// start of 1970, each if it is known.
#[derive(Clone, Copy)]
pub struct LastTimes {
    pub answer: Option<u64>,
    pub finish: Option<u64>,
}

impl LastTimes {
    /// The times after a command that ends `now`, to which the server last replied `answered` seconds ago, if it
    /// replied. If it did not, the times of before stay.
    pub fn renewed(self, now: u64, answered: Option<u64>, is_finished: bool) -> LastTimes
        // Without a reply both times stay. With one, the time of the reply is new. If all keys are finished
        // too, so is the time of that.
        ensures { result ≡ times_after self now answered is_finished }
    {
        let Some(answered) = answered else {
            return self;
        };
        LastTimes {
            answer: Some(now.saturating_sub(answered)),
            finish: if is_finished { Some(now) } else { self.finish },
        }
    }
}
