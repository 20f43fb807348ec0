//! The questions of a message, as the line of its exchange names them.

use kmip_batch_items::{Ask, Reply, Request};
use kmip_trace::operation_word;
use kmip_ttlv::{Bytes, NoMemory, Text, plain_text};
use std::alloc::Global;

/// The questions of a message in words, and what their replies are known by.
#[derive(Drop)]
pub struct Questions {
    /// The operation of each, and the name or the identifier of its object, joined by `, `.
    words: String,
    /// Their ids, without the mark.
    ids: Vec<Option<Bytes>>,
    /// What each id has after its operation, before the name. It is not reported.
    mark: Bytes,
}

impl Questions {
    /// Those of these requests, whose ids have this mark.
    ///
    /// # Errors
    /// If memory runs out.
    pub fn of(alloc: Global, requests: &[Request], mark: &[u8]) -> Result<Self, NoMemory> {
        let mut words = String::new(alloc);
        let mut ids = Vec::new(alloc);
        for request in requests {
            if !words.is_empty() {
                words.push_str(", ")?;
            }
            push_request(alloc, request, &mut words)?;
            ids.push(without_mark(alloc, &request.id, mark)?)?;
        }
        if words.is_empty() {
            words.push_str("no question")?;
        }
        Ok(Questions {
            words,
            ids,
            mark: Bytes::copied(alloc, mark)?,
        })
    }

    /// The questions in words.
    pub(crate) fn words(&self) -> &str {
        self.words.as_str()
    }

    /// The id of a reply, without the mark.
    ///
    /// # Errors
    /// If memory runs out.
    pub(crate) fn id_of(&self, alloc: Global, reply: &Reply) -> Result<Option<Bytes>, NoMemory> {
        without_mark(alloc, &reply.id, self.mark.as_slice())
    }

    /// Whether it goes without saying which question a reply with this id answers: there is one, with this
    /// id, or there is none and the reply has no id.
    pub(crate) fn has_only(&self, id: &Option<Bytes>) -> bool {
        match self.ids.as_slice() {
            [] => id.is_none(),
            [own] => is_same_id(own, id),
            [_, _, ..] => false,
        }
    }
}

/// Appends the operation of a request, and the name or the identifier of its object.
fn push_request(alloc: Global, request: &Request, words: &mut String) -> Result<(), NoMemory> {
    words.push_str(operation_word(request.ask.operation()))?;
    words.push_str(" ")?;
    if let Some(subject) = subject_of(&request.ask) {
        words.push_str(plain_text(alloc, subject.as_str())?.as_str())?;
    }
    Ok(())
}

/// The name or the identifier of the object that is asked about.
fn subject_of(ask: &Ask) -> Option<&Text> {
    match ask {
        Ask::Create(attrs) => Some(&attrs.name),
        Ask::Locate { mask: _, filter } => filter.name.as_ref(),
        Ask::GetAttributes(uid) | Ask::Activate(uid) | Ask::Revoke(uid, _) | Ask::Destroy(uid) => {
            Some(uid)
        }
    }
}

/// The id without the mark, if that is after its operation.
fn without_mark(alloc: Global, id: &Option<Bytes>, mark: &[u8]) -> Result<Option<Bytes>, NoMemory> {
    let Some(id) = id else {
        return Ok(None);
    };
    let Some((operation, rest)) = id.as_slice().split_first() else {
        return Ok(Some(Bytes::copied(alloc, &[])?));
    };
    let mut unmarked = vec![in alloc; *operation]?;
    unmarked.extend_from_slice(rest.strip_prefix(mark).unwrap_or(rest))?;
    Ok(Some(Bytes::from_vec(unmarked)))
}

/// Whether the two ids are one, or there is neither.
fn is_same_id(id: &Option<Bytes>, other: &Option<Bytes>) -> bool {
    match (id, other) {
        (None, None) => true,
        (Some(id), Some(other)) => id.as_slice() == other.as_slice(),
        (None, Some(_)) | (Some(_), None) => false,
    }
}
