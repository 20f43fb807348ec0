//! A talk with a client, line by line.
ghost use Rattle.std.specs.Prelude.{IfOk, IsTrue};
ghost use Rattle.kmip_messages.specs.Members.{may_have};

use crate::rows::halves;
use crate::telling::{push_asked, push_heard, push_known};
use crate::trying::{begin, push_fronts, push_kept, push_learnt, push_told_by_new};
use kmip_client::Client;
use kmip_plan::{Plan, read_plan};
use kmip_progress::{Progress, suits};
use std::alloc::{AllocError, Global};
use std::test::Fail;
use test_support::Call;

/// A client that is talked with.
#[derive(Drop)]
pub struct Talk<'p> {
    pub plan: &'p Plan,
    /// What each new client hears first: a message a line, in hexadecimal.
    pub first: String,
    pub client: Client<'p>,
}

impl<'p> Talk<'p> {
    /// A talk with a client that knows nothing yet.
    fn new(alloc: Global, plan: &'p Plan) -> Result<Talk<'p>, Fail> {
        let client = Client::fresh(alloc, plan)?;
        Ok(Talk {
            plan,
            first: String::new(alloc),
            client,
        })
    }
}

/// Talks with a client of the keys that the first line names, as the calls behind it say. What each tells is
/// appended, and nothing for the first line.
pub fn hold_talk(
    alloc: Global,
    line: &str,
    calls: &[Call<'_>],
    told: &mut Vec<String>,
) -> Result<(), Fail> {
    told.push(String::new(alloc))?;
    let plan = plan_of(alloc, line)?;
    let mut talk = Talk::new(alloc, &plan)?;
    for call in calls {
        let mut text = String::new(alloc);
        take_turn(alloc, &mut text, &mut talk, call.head)?;
        told.push(text)?;
    }
    Ok(())
}

/// The plan of the keys that such a line names, which have one target.
fn plan_of(alloc: Global, line: &str) -> Result<Plan, Fail> {
    let (head, names) = halves(line, ": ");
    let (_, target) = halves(head, " ");
    let text = plan_text(alloc, names, target)?;
    Ok(read_plan(alloc, text.as_str())?)
}

/// The text of a plan of keys with these names and one target.
fn plan_text(alloc: Global, names: &str, target: &str) -> Result<String, AllocError> {
    let mut text = String::new(alloc);
    for name in names.split(' ') {
        write!(text, "[[key]]\nname = \"{name}\"\ntarget = \"{target}\"\n")?;
        text.push_str("algorithm = \"AES\"\nlength = 256\nusage = [\"encrypt\", \"decrypt\"]\n")?;
    }
    Ok(text)
}

/// Does what a line says, and writes the lines that are told of it, if any.
fn take_turn(
    alloc: Global,
    text: &mut String,
    talk: &mut Talk<'_>,
    line: &str,
) -> Result<(), Fail> {
    let (head, given) = halves(line, ": ");
    turn(alloc, text, talk, head, given)?;
    if !text.is_empty() && !text.ends_with("\n") {
        text.push('\n')?;
    }
    Ok(())
}

/// Does what a line says, and writes what is told of it, if anything.
fn turn(
    alloc: Global,
    text: &mut String,
    talk: &mut Talk<'_>,
    head: &str,
    given: &str,
) -> Result<(), Fail> {
    let (word, words) = halves(head, " ");
    match word {
        "ask" => ask(alloc, text, &mut talk.client, words, given),
        "hear" if words.starts_with("each ") => {
            hear_each(alloc, text, talk.plan, &mut talk.client, given)
        }
        "lost" => lose(&mut talk.client, words),
        "known" => push_known_of(alloc, text, &talk.client, words),
        "saved" => push_saved(alloc, text, &talk.client),
        "resume" => resume(alloc, talk, given),
        _ => turn_with_bytes(alloc, text, talk, word, given),
    }
}

/// The same of a line that has bytes.
fn turn_with_bytes(
    alloc: Global,
    text: &mut String,
    talk: &mut Talk<'_>,
    word: &str,
    digits: &str,
) -> Result<(), Fail> {
    let mut bytes = hex::decode(alloc, digits)?;
    match word {
        "first" => begin(alloc, talk, digits),
        "hear" => Ok(push_heard(alloc, text, &mut talk.client, bytes.as_slice())?),
        "new" => push_told_by_new(alloc, text, talk, bytes.as_slice()),
        "fronts" => push_fronts(alloc, text, talk, bytes.as_slice()),
        "kept" => push_kept(alloc, text, talk, bytes.as_mut_slice()),
        "learnt" => push_learnt(alloc, text, talk, bytes.as_mut_slice()),
        _ => Err(Fail::new("no line of a talk")),
    }
}

/// The client asks, in a message of at most so many questions, or about each key in turn.
fn ask(
    alloc: Global,
    text: &mut String,
    client: &mut Client<'_>,
    words: &str,
    digits: &str,
) -> Result<(), Fail> {
    if words == "each" {
        return ask_each(alloc, text, client);
    }
    let (most, _) = halves(words, " ");
    client.set_batch(batch_of(most)?);
    let wanted = hex::decode(alloc, digits)?;
    push_asked(alloc, text, client, wanted.as_slice())
}

/// How many questions may be asked in a message.
fn batch_of(word: &str) -> Result<usize, Fail>
    ensures { IfOk result (λ most. IsTrue (may_have most)) }
{
    let most: usize = word.parse()?;
    if !(1..=8).contains(&most) {
        return Err(Fail::new("one to eight questions may be asked"));
    }
    Ok(most)
}

/// The question about the key at a place has no answer.
fn lose(client: &mut Client<'_>, words: &str) -> Result<(), Fail> {
    let key: usize = words.parse()?;
    if client.plan().count() <= key {
        return Err(Fail::new("no key is at this place"));
    }
    client.lost(key);
    Ok(())
}

/// Writes what is asked about each key in turn, where it is the same of all.
fn ask_each(alloc: Global, text: &mut String, client: &mut Client<'_>) -> Result<(), Fail> {
    let mut last = String::new(alloc);
    for key in 0..client.plan().count() {
        let mut asked = String::new(alloc);
        push_asked(alloc, &mut asked, client, &[])?;
        push_other_of(text, &mut last, key, asked.as_str())?;
    }
    Ok(())
}

/// Writes what the client says to a message about each key in turn, the last one first, where it is the same
/// of all.
fn hear_each(
    alloc: Global,
    text: &mut String,
    plan: &Plan,
    client: &mut Client<'_>,
    digits: &str,
) -> Result<(), Fail> {
    let mut last = String::new(alloc);
    for (place, key) in plan.keys().iter().enumerate().rev() {
        let said = said_to_named(alloc, client, key.attrs.name.as_str(), digits)?;
        push_other_of(text, &mut last, place, said.as_str())?;
    }
    Ok(())
}

/// What the client says to a message with this name in the place of `NAME`.
fn said_to_named(
    alloc: Global,
    client: &mut Client<'_>,
    name: &str,
    digits: &str,
) -> Result<String, Fail> {
    let bytes = bytes_named(alloc, name, digits)?;
    let mut said = String::new(alloc);
    push_heard(alloc, &mut said, client, bytes.as_slice())?;
    Ok(said)
}

/// The bytes of digits with those of this name in the place of `NAME`.
fn bytes_named(alloc: Global, name: &str, digits: &str) -> Result<Vec<u8>, Fail> {
    let name = hex::encode(alloc, name.as_bytes())?;
    let digits = digits.replace(alloc, "NAME", name.as_str())?;
    Ok(hex::decode(alloc, digits.as_str())?)
}

/// Writes what is known of the key at a place, or of each.
fn push_known_of(
    alloc: Global,
    text: &mut String,
    client: &Client<'_>,
    words: &str,
) -> Result<(), Fail> {
    if words == "each" {
        return push_known_each(alloc, text, client);
    }
    push_known(alloc, text, client, words.parse()?)
}

/// Writes what is known of each key, where it is the same of all but for an identifier that is the key's
/// name.
fn push_known_each(alloc: Global, text: &mut String, client: &Client<'_>) -> Result<(), Fail> {
    let mut last = String::new(alloc);
    for (place, key) in client.plan().keys().iter().enumerate() {
        let known = known_unnamed(alloc, client, place, key.attrs.name.as_str())?;
        push_other(text, &mut last, known.as_str())?;
    }
    Ok(())
}

/// What is known of the key at a place, with `NAME` in the place of its name.
fn known_unnamed(
    alloc: Global,
    client: &Client<'_>,
    place: usize,
    name: &str,
) -> Result<String, Fail> {
    let mut known = String::new(alloc);
    push_known(alloc, &mut known, client, place)?;
    let name = hex::encode(alloc, name.as_bytes())?;
    Ok(known.as_str().replace(alloc, name.as_str(), "NAME")?)
}

/// Writes what is told of the key at a place, which begins with this place. That is left out, and so is
/// what was told last.
fn push_other_of(text: &mut String, last: &mut String, key: usize, told: &str) -> Result<(), Fail> {
    let (place, told) = halves(told, " ");
    if place.parse() != Ok(key) {
        return Err(Fail::new("another key comes first"));
    }
    push_other(text, last, told)?;
    Ok(())
}

/// Writes what is told, behind what was told before, where it is something else than the last of that.
fn push_other(text: &mut String, last: &mut String, told: &str) -> Result<(), AllocError> {
    if last.as_str() == told {
        return Ok(());
    }
    last.clear();
    last.push_str(told)?;
    if !text.is_empty() {
        text.push_str("; ")?;
    }
    text.push_str(told)
}

/// Writes the text of what the client keeps, with `/` in the place of each line feed.
fn push_saved(alloc: Global, text: &mut String, client: &Client<'_>) -> Result<(), Fail> {
    let progress = client.progress(alloc)?;
    if !suits(client.plan(), &progress) {
        return Err(Fail::new("the progress does not suit the plan"));
    }
    let saved = progress.write_text(alloc, client.plan())?;
    push_in_line(alloc, text, saved.as_str())?;
    Ok(())
}

/// Writes lines, with `/` in the place of each line feed.
fn push_in_line(alloc: Global, text: &mut String, lines: &str) -> Result<(), AllocError> {
    let line = lines.replace(alloc, "\n", "/")?;
    text.push_str(line.as_str())
}

/// The client goes on from such a text.
fn resume(alloc: Global, talk: &mut Talk<'_>, text: &str) -> Result<(), Fail> {
    let text = text.replace(alloc, "/", "\n")?;
    let progress = Progress::read_text(alloc, talk.plan, text.as_str())?;
    talk.client = Client::resume(alloc, talk.plan, &progress)?;
    Ok(())
}
