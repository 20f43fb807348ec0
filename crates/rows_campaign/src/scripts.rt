//! Scripts, links that follow them, and the servers behind these.
ghost use Rattle.std.specs.Prelude.{◌≡◌};
ghost use Rattle.kmip_scripted.specs.Words.{prolongings};

use crate::cases::both_halves;
use crate::faulty::Faulty;
use kmip_batch_items::{Ask, Request};
use kmip_messages::{request_fits, write_request};
use kmip_objects::KeyAttrs;
use kmip_plan::Plan;
use kmip_runs::{Run, Start};
use kmip_scripted::{Script, Scripted, read_script};
use kmip_server::{ListStore, Server};
use kmip_ttlv::Text;
use std::alloc::{AllocError, Global};
use std::slice::from_ref;
use std::test::Fail;

/// The script of a text in which `/` stands for a line feed.
pub fn script_of(alloc: Global, text: &str) -> Result<Script, Fail> {
    let text = text.replace(alloc, "/", "\n")?;
    Ok(read_script(alloc, text.as_str())?)
}

/// A link to an empty server that follows such a script.
pub fn link_of(alloc: Global, text: &str) -> Result<Faulty<ListStore>, Fail> {
    let script = script_of(alloc, text)?;
    Ok(Faulty::new(Scripted::new(alloc, server_of(alloc), script)))
}

/// A server with room for 10,000 objects, and without any.
fn server_of(alloc: Global) -> Server<ListStore> {
    Server::new(ListStore::new(alloc, [0; 32], 10_000))
}

/// A link that loses nothing to a server with an object of this name and length, AES to encrypt and decrypt.
pub fn link_with(alloc: Global, words: &str) -> Result<Faulty<ListStore>, Fail> {
    let message = create_of(alloc, words)?;
    let mut server = server_of(alloc);
    server.handle(alloc, message.as_slice(), 0)?;
    let script = Script::new(Vec::new(alloc));
    Ok(Faulty::new(Scripted::new(alloc, server, script)))
}

/// The message that asks for such an object.
fn create_of(alloc: Global, words: &str) -> Result<Vec<u8>, Fail> {
    let request = request_of(alloc, words)?;
    written(alloc, from_ref(&request))
}

fn written(alloc: Global, requests: &[Request]) -> Result<Vec<u8>, Fail> {
    if !request_fits(requests) {
        return Err(Fail::new("the object does not fit"));
    }
    Ok(write_request(alloc, requests)?)
}

/// The question of this message.
///
/// Source: KMIP 2.1, Cryptographic Algorithm (AES is 3), Cryptographic Usage Mask (encrypt is 4, decrypt 8).
fn request_of(alloc: Global, words: &str) -> Result<Request, Fail> {
    let (name, length) = both_halves(words, " ", "a name and a length")?;
    let length = length.parse()?;
    Ok(Request {
        id: None,
        ask: Ask::Create(KeyAttrs {
            name: Text::copied(alloc, name)?,
            algorithm: 3,
            length,
            usage: 12,
        }),
    })
}

/// Writes the words of a script, and how often a plan is prolonged in it.
pub fn push_words(alloc: Global, text: &mut String, words: &str) -> Result<(), Fail> {
    let script = script_of(alloc, words)?;
    let prolongings = script.prolongings();
    write!(text, "{:?}, {prolongings} prolongings", script.words())?;
    Ok(())
}

/// Writes the runs that a script makes, list by list.
pub fn push_lists(alloc: Global, text: &mut String, plan: &Plan, words: &str) -> Result<(), Fail> {
    let script = script_of(alloc, words)?;
    if script.prolongings() == 0 {
        let runs = script.runs(alloc, plan)?;
        return Ok(push_list(text, runs.as_slice())?);
    }
    if script.prolongings() != 1 {
        return Err(Fail::new("a script of two plans has one `prolong`"));
    }
    push_both_lists(alloc, text, plan, &script)
}

/// The same of a script of two plans.
fn push_both_lists(
    alloc: Global,
    text: &mut String,
    plan: &Plan,
    script: &Script,
) -> Result<(), Fail>
    requires { prolongings script.now ≡ 1 }
{
    let lists = script.lists(alloc, plan)?;
    let mut between = "";
    for list in lists.as_slice() {
        text.push_str(between)?;
        push_list(text, list.as_slice())?;
        between = " | ";
    }
    Ok(())
}

/// Writes runs: what each begins with, its limit, and whether it is saved.
fn push_list(text: &mut String, runs: &[Run]) -> Result<(), AllocError> {
    let mut between = "";
    for run in runs {
        text.push_str(between)?;
        push_run(text, run)?;
        between = ", ";
    }
    Ok(())
}

fn push_run(text: &mut String, run: &Run) -> Result<(), AllocError> {
    match run.start {
        Start::Fresh => text.push_str("fresh")?,
        Start::Same => text.push_str("same")?,
        Start::Saved(number) => write!(text, "saved-{number}")?,
    }
    let save = if run.save { " saved" } else { "" };
    write!(text, " {}{save}", run.limit)
}
