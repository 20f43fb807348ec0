//! Why a run did not begin, in words.
ghost use Rattle.std.specs.Prelude.{◌≢◌};

use crate::disagreeing::contradiction;
use crate::looking::RANDOM_BYTES;
use kmip_choices::RunOptions;
use kmip_client::Client;
use kmip_desk::{Origin, PlanFile, RunFault, RunJob};
use kmip_explaining::RefusedProgress;
use kmip_files::{MOST_PROGRESS_BYTES, ProgressFile};
use kmip_progress::ProgressFault;
use kmip_refresh::KeyLook;
use kmip_report::ExitStatus;
use kmip_run_files::server_text;
use kmip_trouble::{AnotherServer, Cannot, Contradiction, Obstacle, Place, Trouble, plan_name};
use kmip_ttlv::NoMemory;
use std::io::{self, Error};

/// Says why a run did not begin.
#[derive(Clone, Copy)]
pub(crate) struct Refusing<'a> {
    pub(crate) rt: &'a HostRuntime,
    pub(crate) job: RunJob<'a>,
    pub(crate) file: &'a ProgressFile<'a, HostRuntime>,
}

impl<'a> Refusing<'a> {
    pub(crate) fn options(&self) -> &'a RunOptions {
        self.job.options
    }

    pub(crate) fn plan(&self) -> &'a PlanFile {
        self.job.plan
    }

    /// Prints why the run did not begin, and reports on standard error what there is to say of it. Returns how the
    /// program ends. If the server contradicts the progress, `contradiction` says how.
    pub(crate) fn tell(&self, fault: RunFault, contradiction: Option<Contradiction>) -> ExitStatus
        // It does not end with `Done`.
        ensures { result ≢ ExitStatus.Done }
    {
        let trouble = match self.trouble(fault, contradiction) {
            Ok(trouble) => trouble,
            Err(trouble) => trouble,
        };
        trouble.tell(self.rt, self.job.options.format)
    }

    /// The trouble of this fault.
    ///
    /// # Errors
    /// The trouble that memory ran out.
    fn trouble(
        &self,
        fault: RunFault,
        contradiction: Option<Contradiction>,
    ) -> Result<Trouble, Trouble> {
        let rt = self.rt;
        let given = self.file.given_path();
        match fault {
            RunFault::NoMemory => Err(Trouble::from(NoMemory)),
            RunFault::Unread(error) => Ok(Trouble::unread(rt, given, MOST_PROGRESS_BYTES, error)),
            RunFault::NoProgress(text, fault) => self.no_progress(text.as_str(), fault),
            RunFault::InUse => Ok(Trouble::from(Obstacle::InUse(self.path()?))),
            RunFault::Unlocked(error) => Ok(self.beside(self.file.lock_path()?, error)),
            RunFault::UnreadOrigin(error) => {
                let origin = self.file.origin_path()?;
                Ok(Trouble::unread_origin(rt, given, origin, MOST_PROGRESS_BYTES, error))
            }
            RunFault::NoOrigin => {
                let place = Place::beside(self.path()?, self.file.origin_path()?);
                Ok(Trouble::from(Obstacle::NoOrigin(place)))
            }
            RunFault::AnotherServer(origin, destroyed) => self.another_server(&origin, destroyed),
            RunFault::OtherAttributes(words) => {
                Ok(Trouble::from(Obstacle::OtherAttributes(self.path()?, words)))
            }
            RunFault::NotPutAside(error) => Ok(self.beside(self.file.before_path()?, error)),
            RunFault::UnwrittenOrigin(error) => Ok(self.beside(self.file.origin_path()?, error)),
            RunFault::NoClock(error) => Ok(Trouble::from(error)),
            RunFault::NoMark(error) => Ok(Trouble::at(rt, Cannot::Read, RANDOM_BYTES, error)),
            RunFault::Contradicted => match contradiction {
                Some(found) => Ok(Trouble::from(Obstacle::Contradicted(found))),
                None => Err(Trouble::from(NoMemory)), // there was none to say how
            },
        }
    }

    /// The path of the progress file, as the command line has it.
    fn path(&self) -> io::Result<String> {
        let path = String::from_str(self.rt.alloc(), self.file.given_path())?;
        Ok(path)
    }

    /// A file next to the progress file could not be made or written.
    fn beside(&self, file: String, error: Error) -> Trouble {
        Trouble::beside(self.rt, Cannot::Begin, self.file.given_path(), file, error)
    }

    /// The text of the progress file is refused, and why is reported.
    fn no_progress(&self, text: &str, fault: ProgressFault) -> Result<Trouble, Trouble> {
        let refused = RefusedProgress {
            plan_path: plan_name(self.job.options.plan.as_str()),
            plan: self.job.plan.text(),
            path: self.file.given_path(),
            text,
        };
        refused.explain(self.rt);
        Ok(Trouble::from(Obstacle::NoProgress(self.path()?, fault)))
    }

    /// The progress was saved against another server.
    fn another_server(
        &self,
        origin: &Origin,
        destroyed: Option<String>,
    ) -> Result<Trouble, Trouble> {
        let alloc = self.rt.alloc();
        Ok(Trouble::from(Obstacle::AnotherServer(AnotherServer {
            path: self.path()?,
            before: server_text(alloc, origin.server())?,
            is_rehearsal: origin.is_rehearsal(),
            now: server_text(alloc, self.job.server)?,
            destroyed,
        })))
    }

    /// How the server contradicts the progress, of which the client knows what it says.
    ///
    /// # Errors
    /// If memory runs out.
    pub(crate) fn contradiction(
        &self,
        client: &Client<'_>,
        looks: &[KeyLook],
    ) -> Result<Contradiction, NoMemory> {
        let alloc = self.rt.alloc();
        let server = server_text(alloc, self.job.server)?;
        contradiction(alloc, self.file.given_path(), server, client, looks)
    }
}
