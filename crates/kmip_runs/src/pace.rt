//! Waits between the exchanges of a run.
ghost use Rattle.std.specs.Prelude.{◌≡◌, ◌≤◌, ◌+◌, ℕ, None, not, false, IsTrue};
ghost use Rattle.kmip_disk.specs.Calls.{HasRisenBy};
ghost use Rattle.kmip_runs.specs.Waits.{longest_wait, wait_after};

use crate::exchange_news::ExchangeNews;
use crate::patience::Patience;
use kmip_client::Client;
use std::thread;
use std::time::{Clock, Duration, Instant};

/// The longest wait in milliseconds, where the first is no longer (own).
const LONGEST_WAIT: u64 = 10_000;

/// How long to wait before the next exchange, in milliseconds, after a wait of `wait` before the last
/// one. The longest wait is ten seconds, or `first` where that is longer. Takes no memory.
pub fn next_wait(wait: u64, first: u64, got_on: bool) -> u64
    // There is no wait where the run got on by the last exchange.
    ensures none { IsTrue got_on → result ≡ 0 }
    // Where the run did not get on, and `wait` is the wait after some exchanges in turn by which it did
    // not, the result is the wait after one more. That is `first`, and then twice as long each time, up
    // to the longest.
    ensures grows { got_on ≡ false → (count : ℕ) → wait ≡ wait_after first count
        → result ≡ wait_after first (count + 1) }
    // It is never longer than the longest wait, whatever `wait` is.
    ensures longest { result ≤ longest_wait first }
{
    if got_on {
        0
    } else if wait == 0 {
        first
    } else {
        wait.saturating_mul(2).min(first.max(LONGEST_WAIT))
    }
}

/// Waits so many milliseconds, but no longer than until `most` seconds have passed since a moment; false
/// where they have passed, and then it does not wait. It waits the whole time where `most` is 0, where the
/// moment is not known, and where the clock does not tell the time. Takes no memory.
///
/// That it waits for so long no clause says, as no clause says what a clock tells.
pub fn wait_within<C: Clock>(clock: &C, wait: u64, since: Option<Instant>, most: u64) -> bool
    // With 0 seconds it is always true.
    ensures endless { most ≡ 0 → IsTrue result }
    // So it is where the moment is not known.
    ensures unknown { since ≡ None → IsTrue result }
{
    let wait = Duration::from_millis(wait);
    let wait = match left_until(clock, since, most) {
        Some(left) if left.is_zero() => return false,
        Some(left) => wait.min(left),
        None => wait,
    };
    if !wait.is_zero() {
        thread::sleep(clock, wait);
    }
    true
}

/// How long it is until `most` seconds have passed since a moment; none where `most` is 0, the moment is not
/// known, or the clock does not tell the time.
fn left_until<C: Clock>(clock: &C, since: Option<Instant>, most: u64) -> Option<Duration>
    ensures endless { most ≡ 0 → result ≡ None }
    ensures unknown { since ≡ None → result ≡ None }
{
    if most == 0 {
        return None;
    }
    let since = since?;
    let now = Instant::now(clock).ok()?;
    let passed = now.saturating_duration_since(since);
    Some(Duration::from_secs(most).saturating_sub(passed))
}

/// Waits before an exchange if the last one brought nothing, longer each time until something known
/// grows. It does not wait if each key that the last exchange asked about was answered, and has
/// another question. It gives up if nothing known has grown for some time. No clause says for how long
/// it sleeps or when it gives up, as no clause says what a clock reports. The stored runs try both
/// with a clock in memory.
#[derive(Drop)]
pub struct Pace<C> {
    clock: C,
    first: u64,
    /// The wait after the last exchange that brought nothing, in milliseconds; 0 if something known has
    /// grown since.
    level: u64,
    /// How long it waits before the next exchange, in milliseconds: `level`, or 0.
    wait: u64,
    /// After how many seconds it gives up; 0 for never.
    most: u64,
    /// When something known grew last, or the run began, if the clock reported it.
    since: Option<Instant>,
    has_given_up: bool,
    /// How often it was asked whether to go on, up to 2^64 - 1.
    asked: u64,
}

impl<C: Clock> Pace<C> {
    /// A pace that begins now, with its first wait in milliseconds, 0 for none ever, and with the
    /// seconds after which it gives up, 0 for never. Takes no memory.
    pub fn new(clock: C, first: u64, most: u64) -> Self
        // Its first wait is this one.
        ensures first { result.first ≡ first }
        // It does not wait before the first exchange.
        ensures wait { result.wait ≡ 0 }
        // No exchange has brought nothing yet.
        ensures level { result.level ≡ wait_after first 0 }
        // It has these seconds after which it may give up.
        ensures most { result.most ≡ most }
        // It has not given up.
        ensures fresh { result.has_given_up ≡ false }
    {
        let since = Instant::now(&clock).ok();
        Pace {
            clock,
            first,
            level: 0,
            wait: 0,
            most,
            since,
            has_given_up: false,
            asked: 0,
        }
    }

    /// How long it waits before the next exchange, in milliseconds. Takes no memory.
    pub fn wait(&self) -> u64
        ensures { result ≡ self.now.wait }
    {
        self.wait
    }

    /// Whether it has given up. Takes no memory.
    pub fn has_given_up(&self) -> bool
        ensures { result ≡ self.now.has_given_up }
    {
        self.has_given_up
    }
}

impl<C: Clock> Patience for Pace<C> {
    ghost has_given_up = { λ pace. pace.has_given_up };

    ghost asked = { λ pace. pace.asked };

    fn exchanged(&mut self, _client: &Client<'_>, news: ExchangeNews)
        // Nobody gives up by being told of an exchange.
        ensures stays { self.new.has_given_up ≡ self.old.has_given_up }
        // To be told is not to be asked.
        ensures unasked { self.new.asked ≡ self.old.asked }
        // Its first wait and its seconds stay.
        ensures settings { (self.new.first ≡ self.old.first) × (self.new.most ≡ self.old.most) }
        // If something known has grown, the waits begin anew, and there is none before the next exchange.
        ensures grew { news ≡ ExchangeNews.Grew
            → (self.new.level ≡ wait_after self.old.first 0) × (self.new.wait ≡ 0) }
        // If each key was answered, there is no wait before the next exchange, and the next wait is no shorter.
        ensures answered { news ≡ ExchangeNews.Answered
            → (self.new.level ≡ self.old.level) × (self.new.wait ≡ 0) }
        // After an exchange that brought nothing, the wait after some of them becomes that after one more.
        ensures stuck { news ≡ ExchangeNews.Nothing → (count : ℕ)
            → self.old.level ≡ wait_after self.old.first count
            → (self.new.level ≡ wait_after self.old.first (count + 1))
            × (self.new.wait ≡ self.new.level) }
    {
        match news {
            ExchangeNews::Grew => {
                self.level = 0;
                self.wait = 0;
                self.since = Instant::now(&self.clock).ok();
            }
            ExchangeNews::Answered => self.wait = 0,
            ExchangeNews::Nothing => {
                self.level = next_wait(self.level, self.first, false);
                self.wait = self.level;
            }
        }
    }

    fn go_on(&mut self) -> bool
        // True exactly where it has not given up.
        ensures says { result ≡ not self.new.has_given_up }
        // Who has given up never goes on.
        ensures for_good { IsTrue self.old.has_given_up → IsTrue self.new.has_given_up }
        // It was asked once more.
        ensures asked { HasRisenBy 1 self.old.asked self.new.asked }
        // With 0 seconds it never gives up.
        ensures endless { self.old.most ≡ 0 → self.new.has_given_up ≡ self.old.has_given_up }
        // Its first wait and its seconds stay.
        ensures settings { (self.new.first ≡ self.old.first) × (self.new.most ≡ self.old.most) }
        // Its waits stay as they were.
        ensures waits { (self.new.wait ≡ self.old.wait) × (self.new.level ≡ self.old.level) }
    {
        self.asked = self.asked.saturating_add(1);
        if self.has_given_up {
            return false;
        }
        self.has_given_up = !wait_within(&self.clock, self.wait, self.since, self.most);
        !self.has_given_up
    }
}
