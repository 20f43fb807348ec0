//! A progress file that was saved against another server.
ghost use Rattle.std.specs.Prelude.{◌≡◌, ◌++◌, OnOk};
ghost use Rattle.kmip_report.specs.Pieces.{line_in};
ghost use Rattle.kmip_trouble.specs.ObstacleLines.{another_server_line};

use crate::reporting::push_at;
use kmip_report::Form;
use kmip_ttlv::NoMemory;
use std::alloc::Global;

/// A progress file that was saved against another server.
#[derive(Drop)]
pub struct AnotherServer {
    pub path: String,
    /// The server that it was saved against, and the one of this run.
    pub before: String,
    pub now: String,
    /// Whether a run with `--loopback` saved it.
    pub is_rehearsal: bool,
    /// The name of a key that it knows to be destroyed, if there is one.
    pub destroyed: Option<String>,
}

impl AnotherServer {
    /// Reports on standard error which two servers, and what to do.
    pub(crate) fn explain(&self, rt: &HostRuntime) {
        let (path, before, now) = (&self.path, &self.before, &self.now);
        let _ = rt.eprintln(format_args!(
            "{path} was saved against {before}; this run is to use {now}"
        ));
        if self.is_rehearsal {
            let _ = rt.eprintln(format_args!(
                "it is of a rehearsal, whose server is gone: give another --progress"
            ));
        } else {
            let _ = rt.eprintln(format_args!(
                "--believe: use {path}, if {now} agrees with what it says about each key"
            ));
        }
        let _ = rt.eprintln(format_args!(
            "--afresh: start over, create each key that this server does not have, and keep {path} as {path}.before"
        ));
        if let Some(name) = &self.destroyed {
            let _ = rt.eprintln(format_args!(
                "{name} is known to be destroyed: with --afresh a server that forgets destroyed objects would create it again"
            ));
        }
    }

    /// Appends its line, which says in JSON which two servers.
    ///
    /// # Errors
    /// If memory runs out. A part may have been appended then.
    pub(crate) fn push_line(
        &self,
        alloc: Global,
        form: Form,
        text: &mut Vec<u8>,
    ) -> Result<(), NoMemory>
        // What is appended is exactly that line.
        ensures { OnOk result (text.new.items
            ≡ text.old.items ++ line_in form (another_server_line self.entry.now)) }
    {
        let mut why = String::new(alloc);
        why.push_str("it was saved against ")?;
        why.push_str(self.before.as_str())?;
        why.push_str("; this run is to use ")?;
        why.push_str(self.now.as_str())?;
        let (fault, why) = ("progress of another server", Some(why.as_str()));
        push_at(alloc, form, fault, ": ", self.path.as_str(), why, text)
    }
}
