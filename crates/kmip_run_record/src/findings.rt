//! What a run finds out of the keys of its plan.
ghost use Rattle.std.specs.Prelude.{◌≡◌, ◌-◌, ◌||◌, IfOk, None, map, option_map, slice_get};
ghost use Rattle.std.specs.List.{fold};
ghost use Rattle.kmip_tally.specs.Counting.{standing_by};
ghost use Rattle.kmip_run_record.specs.Exchanges.{has_stranger};
ghost use Rattle.kmip_run_record.specs.RunFindings.{
  all_known,
  asked_known,
  begun_findings,
  begun_stories,
  known_at,
  learnt,
};
ghost use Rattle.kmip_run_record.specs.Scores.{courses_after, steps_of, unreadable_after};

use crate::exchange::Exchange;
use crate::score::Score;
use crate::stage::Stage;
use crate::story::Story;
use kmip_batch_items::Operation;
use kmip_client::{Client, Part};
use kmip_plan::Key;
use kmip_tally::{RunTally, Spent, Standing};
use kmip_ttlv::NoMemory;
use std::alloc::Global;
use std::marker::Model;

/// What a run finds out of the keys of its plan. A contract sees the story, the course and the verdict of each key, the
/// number of replies that could not be read, and whether anything may be new of any key.
#[derive(Drop)]
pub struct Findings {
    /// What was heard of each key, in the order of the plan.
    stories: Vec<Story>,
    score: Score,
    /// Whether what the client knows of any key may be new: at first, and after a reply to what was not asked.
    is_any_new: bool,
}

impl Model for Findings {
    ghost use Rattle.kmip_run_record.specs.RunFindings.{FindingsState};

    ghost Value = { FindingsState };

    ghost view = { λ f. record {
      stories = f.stories.items;
      courses = f.score.courses.items;
      verdicts = f.score.verdicts;
      unreadable = f.score.unreadable;
      is_any_new = f.is_any_new;
    } };
}

impl Findings {
    /// Of a run that begins with what this client knows: nothing was heard of any key yet.
    ///
    /// # Errors
    /// If memory runs out.
    pub fn new(alloc: Global, client: &Client<'_>) -> Result<Self, NoMemory>
        // Each key has a story and a course that begin with what the client knows, and the client's
        // verdict. Anything may be new of any key.
        ensures { IfOk result (λ findings. findings ≡ begun_findings client.now) }
    {
        Ok(Findings {
            stories: begun_stories(alloc, client)?,
            score: Score::new(alloc, client)?,
            is_any_new: true,
        })
    }

    /// The number of keys with each verdict, by what is known.
    pub fn standing(&self) -> Standing
        // The verdicts are counted that are known now.
        ensures { result ≡ standing_by self.now.verdicts }
    {
        self.score.standing()
    }

    /// How many steps of the key at a place were known after the exchange before; none if the plan has no key there.
    pub fn done(&self, place: usize) -> Option<usize>
        // It is the count in the story of that key.
        ensures { result
            ≡ option_map (λ story. story.stage.done) (slice_get self.now.stories place) }
    {
        let story = self.stories.get(place)?;
        Some(story.done())
    }

    /// What was heard of each key, in the order of the plan.
    pub fn stories(&self) -> &[Story]
        // They are those that are noted.
        ensures { result.now ≡ self.now.stories }
    {
        self.stories.as_slice()
    }

    /// Takes in an exchange. What was heard is left out if there is no memory to note it.
    pub fn hear(&mut self, alloc: Global, exchange: &Exchange<'_>)
        // Each question is noted in the course of its key.
        ensures courses { self.new.courses
            ≡ fold courses_after self.old.courses exchange.now.asked.now }
        // The verdicts stay until the client is asked.
        ensures verdicts { self.new.verdicts ≡ self.old.verdicts }
        // One more reply could not be read if that is why there is none.
        ensures unreadable { self.new.unreadable
            ≡ unreadable_after exchange.now.silence self.old.unreadable }
        // After a reply to what was not asked anything may be new of any key.
        ensures new { self.new.is_any_new ≡ (has_stranger exchange.now.keys.now
            exchange.now.asked.now exchange.now.replies.now || self.old.is_any_new) }
        // How far each key is known to be stays.
        ensures stages { map (λ story. story.stage) self.new.stories
            ≡ map (λ story. story.stage) self.old.stories }
    {
        self.score.count(exchange);
        self.is_any_new |= exchange.has_stranger();
        hear_parts(alloc, exchange, &mut self.stories);
    }

    /// Takes in what the client knows after an exchange that asked these questions.
    pub fn learn(&mut self, client: &Client<'_>, asked: &[Part])
        // If anything may be new of any key, each is taken in, and then nothing is new. Otherwise only
        // the keys change that were asked about.
        ensures { self.new ≡ learnt client.now asked.now self.old.is_any_new self.old }
    {
        if self.is_any_new {
            self.know_all(client);
            self.is_any_new = false;
            return;
        }
        self.know_asked(client, asked);
    }

    /// Takes in what the client knows of each key.
    pub fn know_all(&mut self, client: &Client<'_>)
        // The stage, the course and the verdict of each key are then the client's.
        ensures { self.new ≡ all_known client.now self.old }
    {
        let count = client.plan().count();
        for place in 0..count {
            self.know_key(client, place);
        }
    }

    /// The tally of a run of these keys that has spent so much.
    ///
    /// # Errors
    /// If memory runs out.
    pub fn tally(
        &self,
        alloc: Global,
        keys: &[Key],
        spent: Spent,
        milliseconds: u64,
    ) -> Result<RunTally, NoMemory>
        // Its exchanges are those that were spent.
        ensures exchanges { IfOk result (λ tally. tally.exchanges ≡ spent.exchanges) }
        // Lost are those without a reply, less those with a reply that cannot be read.
        ensures lost { IfOk result (λ tally. tally.lost ≡ spent.lost - self.now.unreadable) }
        // Those are counted apart.
        ensures unreadable { IfOk result (λ tally. tally.unreadable ≡ self.now.unreadable) }
        // The refusals are those that were spent.
        ensures refused { IfOk result (λ tally. tally.refused ≡ spent.refused) }
        // The time is the one that is given.
        ensures milliseconds { IfOk result (λ tally. tally.milliseconds ≡ milliseconds) }
        // The steps are those that the course of each key took, one number for each key.
        ensures steps { IfOk result (λ tally.
            tally.steps.items ≡ steps_of keys.now self.now.courses) }
        // No look is noted.
        ensures unanswered { IfOk result (λ tally. tally.unanswered ≡ None) }
    {
        self.score.tally(alloc, keys, spent, milliseconds)
    }

    /// Takes in what the client knows of the keys that were asked about.
    fn know_asked(&mut self, client: &Client<'_>, asked: &[Part])
        ensures { self.new ≡ asked_known client.now self.old asked.now }
    {
        for part in asked {
            self.know_key(client, part.key);
        }
    }

    /// Takes in what the client knows of the key at a place.
    fn know_key(&mut self, client: &Client<'_>, place: usize)
        ensures { self.new ≡ known_at client.now self.old place }
    {
        let Some(stage) = Stage::of(client, place) else {
            return;
        };
        if place < self.stories.len() {
            self.stories[place].reach(stage);
        }
        self.score.know(place, stage);
    }
}

/// Notes what was heard of each key that was asked about. What there is no memory for is left out.
fn hear_parts(alloc: Global, exchange: &Exchange<'_>, stories: &mut Vec<Story>)
    ensures { map (λ story. story.stage) stories.new.items
        ≡ map (λ story. story.stage) stories.old.items }
{
    for part in exchange.asked {
        let _ = hear_part(alloc, exchange, part, stories);
    }
}

/// Notes what was heard of the key that a question of an exchange is about.
///
/// # Errors
/// If memory runs out.
fn hear_part(
    alloc: Global,
    exchange: &Exchange<'_>,
    part: &Part,
    stories: &mut Vec<Story>,
) -> Result<(), NoMemory>
    ensures { map (λ story. story.stage) stories.new.items
        ≡ map (λ story. story.stage) stories.old.items }
{
    let (Some(key), Some(operation)) = (exchange.key(part), Operation::with_number(part.operation))
    else {
        return Ok(());
    };
    let place = part.key;
    if place < stories.len() {
        let name = key.attrs.name.as_str().as_bytes();
        stories[place].hear(alloc, operation, name, exchange.answer(part))?;
    }
    Ok(())
}

/// The stories of the keys of a client, each begun with what the client knows.
fn begun_stories(alloc: Global, client: &Client<'_>) -> Result<Vec<Story>, NoMemory>
    ensures { IfOk result (λ stories.
        stories.items ≡ begun_stories client.now) }
{
    let count = client.plan().count();
    let mut stories = Vec::with_capacity(alloc, count)?;
    for place in 0..count {
        stories.push(Story::new(alloc, Stage::at(client, place)))?;
    }
    Ok(stories)
}
