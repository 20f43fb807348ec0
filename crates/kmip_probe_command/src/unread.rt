//! Why a reply can't be read, in words.
ghost use Rattle.std.specs.Prelude.{◌≡◌, ◌++◌, IfOk, OnOk, string_bytes};
ghost use Rattle.kmip_probe_command.specs.LookText.{fault_text, items_text, reason_text, tag_text, unread_text, version_text};

use kmip_batch_items::MessageFault;
use kmip_probe::{ProtocolVersion, Unread};
use kmip_ttlv::{NoMemory, Tag, TtlvFault};
use std::alloc::Global;

/// Why a reply can't be read: another version, where its number is known, or the fault and what it is
/// about.
///
/// # Errors
/// Where there is no memory.
pub(crate) fn unread_text(alloc: Global, unread: Unread) -> Result<String, NoMemory>
    ensures { IfOk result (λ text. string_bytes text ≡ unread_text unread) }
{
    let why = reason_text(alloc, &unread.fault, unread.version)?;
    let mut text = format!(in alloc; "the server's reply can't be read (")?;
    text.push_str(why.as_str())?;
    text.push_str(")")?;
    Ok(text)
}

/// Another version, where its number is known, or the fault and what it is about.
///
/// # Errors
/// Where there is no memory.
fn reason_text(
    alloc: Global,
    fault: &MessageFault,
    version: Option<ProtocolVersion>,
) -> Result<String, NoMemory>
    ensures { IfOk result (λ text. string_bytes text ≡ reason_text fault.now version) }
{
    match (fault, version) {
        (MessageFault::Version, Some(version)) => version_text(alloc, version),
        _ => fault_text(alloc, fault),
    }
}

/// The version that a server answers in.
///
/// # Errors
/// Where there is no memory.
fn version_text(alloc: Global, version: ProtocolVersion) -> Result<String, NoMemory>
    ensures { IfOk result (λ text. string_bytes text ≡ version_text version) }
{
    let (major, minor) = (version.major, version.minor);
    let mut text = format!(in alloc; "Version: it answers in KMIP {major}")?;
    let behind = format!(in alloc; ".{minor}")?;
    text.push_str(behind.as_str())?;
    Ok(text)
}

/// The name of a fault, and the tag that it is about or what is wrong with the items.
///
/// # Errors
/// Where there is no memory.
fn fault_text(alloc: Global, fault: &MessageFault) -> Result<String, NoMemory>
    ensures { IfOk result (λ text. string_bytes text ≡ fault_text fault.now) }
{
    let mut text = String::new(alloc);
    text.push_str(fault.name())?;
    push_tag(alloc, fault.tag(), &mut text)?;
    push_items(alloc, fault.items(), &mut text)?;
    Ok(text)
}

/// Appends a tag as six hexadecimal digits, where there is one.
///
/// # Errors
/// Where there is no memory.
fn push_tag(alloc: Global, tag: Option<Tag>, text: &mut String) -> Result<(), NoMemory>
    ensures { OnOk result (string_bytes text.new ≡ string_bytes text.old ++ tag_text tag) }
{
    if let Some(tag) = tag {
        let digits = hex::encode(alloc, &tag.number().to_be_bytes()[1..])?;
        text.push_str(" ")?;
        text.push_str(digits.as_str())?;
    }
    Ok(())
}

/// Appends what is wrong with the items, where something is.
///
/// # Errors
/// Where there is no memory.
fn push_items(alloc: Global, fault: Option<TtlvFault>, text: &mut String) -> Result<(), NoMemory>
    ensures { OnOk result (string_bytes text.new ≡ string_bytes text.old ++ items_text fault) }
{
    let Some(fault) = fault else {
        return Ok(());
    };
    text.push_str(": ")?;
    text.push_str(fault.name())?;
    if let Some(at) = fault.offset() {
        let place = format!(in alloc; " at {at}")?;
        text.push_str(place.as_str())?;
    }
    Ok(())
}
