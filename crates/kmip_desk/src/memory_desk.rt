//! A desk in memory.
ghost use Rattle.std.specs.Prelude.{◌≡◌, IfOk, false, option_map, string_bytes};
ghost use Rattle.kmip_desk.specs.Memory.{SaysTheSame, memory_view};

use crate::desk::Desk;
use crate::desk_call::DeskCall;
use std::alloc::Global;
use std::io::{self, Error, ErrorKind};
use std::str::from_utf8;

/// A desk in memory. It is proved to keep the rules. One of its calls may fail each time.
#[derive(Drop)]
pub struct MemoryDesk {
    alloc: Global,
    /// The text of the progress file that is found.
    progress: Option<String>,
    /// Whether that file was put aside.
    is_aside: bool,
    /// The text that is found, and says where the progress was saved.
    origin: Option<Vec<u8>>,
    /// The text that was written in its place.
    written: Option<Vec<u8>>,
    /// Whether this run holds the lock.
    is_held: bool,
    /// How often the lock is still tried in vain, as another run holds it.
    busy: usize,
    /// The call that fails.
    failing: Option<DeskCall>,
}

impl MemoryDesk {
    /// A desk with these texts, whose lock is free.
    pub fn new(alloc: Global, progress: Option<String>, origin: Option<Vec<u8>>) -> Self
        // The progress file says this.
        ensures progress { (memory_view result).progress ≡ option_map string_bytes progress }
        // The text that says where it was saved says this.
        ensures origin { (memory_view result).origin ≡ option_map (λ text. text.items) origin }
        // This run does not hold the lock.
        ensures free { (memory_view result).is_held ≡ false }
    {
        MemoryDesk {
            alloc,
            progress,
            is_aside: false,
            origin,
            written: None,
            is_held: false,
            busy: 0,
            failing: None,
        }
    }

    /// The same desk, whose lock is tried in vain so many times.
    pub fn busy_for(self, times: usize) -> Self
        // Nothing else changes.
        ensures { SaysTheSame self result }
    {
        MemoryDesk {
            busy: times,
            ..self
        }
    }

    /// The same desk, of which this call fails.
    pub fn failing_at(self, call: DeskCall) -> Self
        // Nothing else changes.
        ensures { SaysTheSame self result }
    {
        MemoryDesk {
            failing: Some(call),
            ..self
        }
    }

    /// Whether this run holds the lock.
    pub fn is_held(&self) -> bool
        ensures { result ≡ (memory_view self.now).is_held }
    {
        self.is_held
    }

    /// The text that was written to say where the progress was saved, if one was.
    pub fn written_origin(&self) -> Option<&[u8]> {
        match &self.written {
            Some(text) => Some(text.as_slice()),
            None => None,
        }
    }

    /// # Errors
    /// If this call fails.
    fn come_to(&self, call: DeskCall) -> io::Result<()> {
        if self.failing == Some(call) {
            return Err(Error::from(ErrorKind::PermissionDenied));
        }
        Ok(())
    }
}

/// A copy of a text, if there is one.
fn copy_of(alloc: Global, text: &Option<String>) -> io::Result<Option<String>>
    ensures { IfOk result (λ copy.
        option_map string_bytes copy ≡ option_map string_bytes text.now) }
{
    match text {
        Some(text) => Ok(Some(String::from_str(alloc, text.as_str())?)),
        None => Ok(None),
    }
}

/// The text that these bytes are, if there are any.
///
/// # Errors
/// `InvalidData` if they are no UTF-8.
fn text_of(alloc: Global, bytes: &Option<Vec<u8>>) -> io::Result<Option<String>>
    ensures { IfOk result (λ text. option_map string_bytes text
        ≡ option_map (λ v. v.items) bytes.now) }
{
    let Some(bytes) = bytes else {
        return Ok(None);
    };
    match from_utf8(bytes.as_slice()) {
        Ok(text) => Ok(Some(String::from_str(alloc, text)?)),
        Err(_) => Err(Error::from(ErrorKind::InvalidData)),
    }
}

impl Desk for MemoryDesk {
    ghost use Rattle.kmip_desk.specs.Memory.{memory_view};

    ghost view = { memory_view };

    fn take_lock(&mut self) -> io::Result<bool> {
        self.come_to(DeskCall::TakeLock)?;
        if self.busy > 0 {
            self.busy -= 1;
            return Ok(false);
        }
        if self.is_aside {
            self.progress = None;
            self.is_aside = false;
        }
        if self.written.is_some() {
            self.origin = self.written.take();
        }
        self.is_held = true;
        Ok(true)
    }

    fn wait(&mut self) {}

    fn read_progress(&self) -> io::Result<Option<String>> {
        self.come_to(DeskCall::ReadProgress)?;
        if self.is_aside {
            return Ok(None);
        }
        copy_of(self.alloc, &self.progress)
    }

    fn read_origin(&self) -> io::Result<Option<String>> {
        self.come_to(DeskCall::ReadOrigin)?;
        match &self.written {
            Some(_) => text_of(self.alloc, &self.written),
            None => text_of(self.alloc, &self.origin),
        }
    }

    fn write_origin(&mut self, text: &[u8]) -> io::Result<()> {
        self.come_to(DeskCall::WriteOrigin)?;
        let mut written = Vec::new(self.alloc);
        written.extend_from_slice(text)?;
        self.written = Some(written);
        Ok(())
    }

    fn put_aside(&mut self) -> io::Result<()> {
        self.come_to(DeskCall::PutAside)?;
        self.is_aside = true;
        Ok(())
    }
}
