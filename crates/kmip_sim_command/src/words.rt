//! The words in the lines of a simulation that take memory.
ghost use Rattle.std.specs.Prelude.{◌≡◌, IfOk, map, string_bytes};
ghost use Rattle.std.specs.Str.Lines.{lines};
ghost use Rattle.kmip_trace.specs.Questions.{requests_text};
ghost use Rattle.kmip_sim_command.specs.SimReport.{request_word};

use kmip_batch_items::Request;
use kmip_trace::push_requests;
use kmip_ttlv::NoMemory;
use std::alloc::{AllocError, Global};
use std::slice;

/// The lines of a text, without their line feeds.
pub(crate) fn lines_of(alloc: Global, text: &str) -> Result<Vec<&str>, AllocError>
    ensures { IfOk result (λ found. map (λ line. line.now) found.items ≡ lines text.now) }
{
    text.lines().collect(alloc)
}

/// What some requests ask, joined by `, `. The names of keys are as they were sent, and may not be UTF-8.
pub(crate) fn requests_text(alloc: Global, requests: &[Request]) -> Result<Vec<u8>, NoMemory>
    ensures { IfOk result (λ text. text.items ≡ requests_text requests.now) }
{
    let mut text = Vec::new(alloc);
    push_requests(requests, &mut text)?;
    Ok(text)
}

/// What each request asks, and of which key.
pub(crate) fn request_words(alloc: Global, requests: &[Request]) -> Result<Vec<String>, NoMemory>
    ensures { IfOk result (λ words. map string_bytes words.items
        ≡ map request_word requests.now) }
{
    let mut words = Vec::new(alloc);
    for request in requests {
        words.push(request_word(alloc, request)?)?;
    }
    Ok(words)
}

/// What a request asks, and of which key.
fn request_word(alloc: Global, request: &Request) -> Result<String, NoMemory>
    ensures { IfOk result (λ word. string_bytes word ≡ request_word request.now) }
{
    let bytes = requests_text(alloc, slice::from_ref(request))?;
    Ok(String::from_utf8_lossy(alloc, bytes.as_slice())?)
}

/// The texts, as they stand in a piece.
pub(crate) fn texts_of(alloc: Global, texts: &[String]) -> Result<Vec<&str>, AllocError>
    ensures { IfOk result (λ found. map (λ text. text.now) found.items
        ≡ map string_bytes texts.now) }
{
    texts.iter().map(|text| text.as_str()).collect(alloc)
}
