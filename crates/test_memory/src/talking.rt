//! A talk with a client that is to make `k1` active, call by call.

use crate::plans::ACTIVE;
use crate::setback::Setback;
use kmip_client::{Client, HearFault, Heard, News, NoListener, Question};
use kmip_plan::read_plan;
use kmip_ttlv::NoMemory;
use std::alloc::Global;
use std::io;
use test_support::{ASK_ACTIVATE, CREATE_K1, CREATE_K1_REPLY, LOCATE_K1, LOCATE_K1_NONE};

/// A call of a client, in hexadecimal.
#[derive(Clone, Copy)]
enum Call {
    /// It is asked for its question, which has to be this one.
    Ask(&'static str),
    /// It hears this reply.
    Hear(&'static str),
}

impl Call {
    /// The message that it is about.
    fn text(self) -> &'static str {
        match self {
            Call::Ask(text) | Call::Hear(text) => text,
        }
    }
}

/// The calls of the talk, in turn.
const TALK: [Call; 5] = [
    Call::Ask(LOCATE_K1),
    Call::Hear(LOCATE_K1_NONE),
    Call::Ask(CREATE_K1),
    Call::Hear(CREATE_K1_REPLY),
    Call::Ask(ASK_ACTIVATE),
];

/// What a call gave: the number of the operation that was asked or answered, and a word for it.
#[derive(Clone, Copy)]
struct Said {
    operation: u32,
    word: &'static str,
}

/// Tries the call of the talk at a place from 0, `Client::ask` or `Client::hear`: what it gives, and
/// what is then known of the key. The calls before it are made beforehand.
pub(crate) fn try_call(rt: &HostRuntime, case: &str, place: usize) -> Result<(), Setback> {
    let Some(call) = TALK.get(place).copied() else {
        return Err(Setback::Other);
    };
    let plan = read_plan(rt.alloc(), ACTIVE)?;
    let mut client = Client::fresh(rt.alloc(), &plan)?;
    make_all(rt.alloc(), &mut client, &TALK[..place])?;
    let message = hex::decode(rt.alloc(), call.text())?;
    try_last(rt, case, &mut client, call, message.as_slice())
}

/// Makes calls of the client, one after the other.
fn make_all(alloc: Global, client: &mut Client<'_>, calls: &[Call]) -> Result<(), Setback> {
    for call in calls {
        let message = hex::decode(alloc, call.text())?;
        make(alloc, client, *call, message.as_slice())?;
    }
    Ok(())
}

/// Tries the call: once, and once more where it lacked memory.
fn try_last(
    rt: &HostRuntime,
    case: &str,
    client: &mut Client<'_>,
    call: Call,
    message: &[u8],
) -> Result<(), Setback> {
    let mut said = make(rt.alloc(), client, call, message);
    print!(rt; "{case}: ")?;
    if said.is_err() {
        print!(rt; "no memory, ")?;
        print_known(rt, client, 0)?;
        print!(rt; "; again: ")?;
        said = make(rt.alloc(), client, call, message);
    }
    let Said { operation, word } = said?;
    print!(rt; "operation {operation}, {word}, ")?;
    print_known(rt, client, 0)?;
    println!(rt; "")?;
    Ok(())
}

/// Makes a call of the client.
fn make(
    alloc: Global,
    client: &mut Client<'_>,
    call: Call,
    message: &[u8],
) -> Result<Said, NoMemory> {
    match call {
        Call::Ask(_) => ask(alloc, client, message),
        Call::Hear(_) => hear(alloc, client, message),
    }
}

/// Asks the client for its question: whether it is the wanted one, and about one key.
fn ask(alloc: Global, client: &mut Client<'_>, wanted: &[u8]) -> Result<Said, NoMemory> {
    let Some(question) = client.ask(alloc)? else {
        return Ok(Said {
            operation: 0,
            word: "no question",
        });
    };
    Ok(said_of_question(&question, wanted))
}

fn said_of_question(question: &Question, wanted: &[u8]) -> Said {
    let &[part] = question.parts.as_slice() else {
        return Said {
            operation: 0,
            word: "several questions",
        };
    };
    let is_wanted = question.bytes.as_slice() == wanted;
    Said {
        operation: part.operation,
        word: if is_wanted {
            "the question"
        } else {
            "another question"
        },
    }
}

/// Lets the client hear a message of one reply: what came of it.
fn hear(alloc: Global, client: &mut Client<'_>, reply: &[u8]) -> Result<Said, NoMemory> {
    match client.hear(alloc, reply, &mut NoListener) {
        Ok(all) => Ok(said_of_replies(all.as_slice())),
        Err(HearFault::NoMemory) => Err(NoMemory),
        Err(fault) => Ok(said_of_fault(fault)),
    }
}

fn said_of_replies(all: &[Result<Heard, HearFault>]) -> Said {
    match all {
        [Ok(heard)] => Said {
            operation: heard.operation,
            word: news_word(heard.news),
        },
        [Err(fault)] => said_of_fault(*fault),
        _ => Said {
            operation: 0,
            word: "several replies",
        },
    }
}

fn said_of_fault(fault: HearFault) -> Said {
    Said {
        operation: 0,
        word: fault.name(),
    }
}

fn news_word(news: News) -> &'static str {
    match news {
        News::Grew => "Grew",
        News::Same => "Same",
        News::Refused => "Refused",
        News::Clash => "Clash",
    }
}

/// Prints what is known of the key at this place.
pub(crate) fn print_known(rt: &HostRuntime, client: &Client<'_>, key: usize) -> io::Result<()> {
    if key >= client.plan().count() {
        return Ok(());
    }
    let uid = match client.identifier(key) {
        Some(uid) => uid.as_str(),
        None => "-",
    };
    print!(rt;
        "{} done of {uid} {:?}",
        client.done(key),
        client.verdict(key)
    )
}
