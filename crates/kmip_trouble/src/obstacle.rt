//! What keeps a command from its work.
ghost use Rattle.std.specs.Prelude.{◌≡◌, ◌≢◌, IfOk, Some, true};
ghost use Rattle.kmip_report.specs.Endings.{FailsToPrint, IfFailed, IfWhole};
ghost use Rattle.kmip_report.specs.FaultLines.{no_memory};
ghost use Rattle.kmip_report.specs.Pieces.{line_in};
ghost use Rattle.kmip_trouble.specs.ObstacleLines.{TellsObstacle};

use crate::another_server::AnotherServer;
use crate::cannot::Cannot;
use crate::causes::{tell_cause, tell_why};
use crate::contradiction::Contradiction;
use crate::place::Place;
use kmip_explaining::tell_refusal;
use kmip_plan::PlanFault;
use kmip_progress::ProgressFault;
use kmip_report::{ExitStatus, Form, Printer, print_report};
use kmip_ttlv::NoMemory;
use std::alloc::Global;
use std::io::Error;
use std::net::{Ipv4Addr, Net, SocketAddr, SocketAddrV4};

/// Why a file has no text.
pub(crate) const NO_TEXT: &str = "it is not UTF-8 text";

/// Why a file does not say where a progress was kept.
pub(crate) const NO_ORIGIN: &str = "it does not say where a progress was saved";

/// What to do about it.
const WITHOUT_ORIGIN: &str = "remove it, and the run checks the progress against the server";

/// Why a progress file cannot be used now, and what to do about it.
const IN_USE: &str = "another run is using it: wait for its end, or give --lock-wait";

/// What to do about a file that is not what it is to be.
const LOOK_THERE: &str = "check that it is the right file";

/// What keeps a command from its work.
#[derive(Drop)]
pub enum Obstacle {
    /// An I/O error.
    Cannot(Cannot, Place, Error),
    /// The file has more bytes than these.
    TooLong(Place, u64),
    /// The file is not UTF-8 text.
    NoText(Place),
    /// The file should say where a progress was saved, and does not.
    NoOrigin(Place),
    /// The file at the path has this text, which is no plan.
    NoPlan(String, String, PlanFault),
    /// Another run has the progress file at the path.
    InUse(String),
    /// No port is free for a server in this process.
    NoPort,
    AnotherServer(AnotherServer),
    Contradicted(Contradiction),
    /// The progress file at the path is refused for this fault, and why was reported.
    NoProgress(String, ProgressFault),
    /// The progress file at the path was kept for a key with other attributes, as the text says.
    OtherAttributes(String, String),
}

impl Obstacle {
    /// Prints its line in this form, and reports on standard error what there is to say of it. Returns how the
    /// program ends.
    pub(crate) fn tell<P: Printer>(
        &self,
        rt: &HostRuntime,
        form: Form,
        printer: &mut P,
    ) -> ExitStatus
        // It does not end with `Done`.
        ensures troubled { result ≢ ExitStatus.Done }
        // If it ends with `Refused`, exactly its line is printed.
        ensures text { IfWhole result (λ _. TellsObstacle form self.now
            (P.contents printer.old) (P.contents printer.new)) }
        // If it ends with `Failed`, memory ran out, and exactly the line of that is printed; or the printer failed.
        ensures broken { IfFailed result (λ fault. FailsToPrint (line_in form no_memory) fault
            P.own_fault P.IsWhole (P.contents printer.old) (P.contents printer.new)) }
    {
        if self.is_explained_first() {
            self.explain(rt);
            return self.print(rt.alloc(), form, printer);
        }
        let status = self.print(rt.alloc(), form, printer);
        if self.is_always_explained() || status == ExitStatus::Refused {
            self.explain(rt);
        }
        status
    }

    /// Whether standard error has why before its line is printed.
    fn is_explained_first(&self) -> bool {
        match self {
            Obstacle::Cannot(..)
            | Obstacle::TooLong(..)
            | Obstacle::NoText(_)
            | Obstacle::NoOrigin(_)
            | Obstacle::InUse(_)
            | Obstacle::NoPort => true,
            Obstacle::NoPlan(..)
            | Obstacle::AnotherServer(_)
            | Obstacle::Contradicted(_)
            | Obstacle::NoProgress(..)
            | Obstacle::OtherAttributes(..) => false,
        }
    }

    /// Whether standard error has why also if its line could not be printed.
    fn is_always_explained(&self) -> bool {
        matches!(self, Obstacle::NoPlan(..))
    }

    /// Prints its line in this form, or that memory ran out.
    fn print<P: Printer>(&self, alloc: Global, form: Form, printer: &mut P) -> ExitStatus
        ensures troubled { result ≢ ExitStatus.Done }
        ensures text { IfWhole result (λ _. TellsObstacle form self.now
            (P.contents printer.old) (P.contents printer.new)) }
        ensures broken { IfFailed result (λ fault. FailsToPrint (line_in form no_memory) fault
            P.own_fault P.IsWhole (P.contents printer.old) (P.contents printer.new)) }
    {
        let mut text = Vec::new(alloc);
        let made = self.line(alloc, form, &mut text);
        print_report(form, made, text.as_slice(), printer)
    }

    /// Appends its line in this form. Returns true, as something is refused.
    ///
    /// # Errors
    /// If memory runs out. A part may have been appended then.
    fn line(&self, alloc: Global, form: Form, text: &mut Vec<u8>) -> Result<bool, NoMemory>
        ensures { IfOk result (λ refused. (refused ≡ true) × TellsObstacle form self.now
            (Some text.old.items) (Some text.new.items)) }
    {
        self.push_line(alloc, form, text)?;
        Ok(true)
    }

    /// Tells on standard error what there is to say of it.
    fn explain(&self, rt: &HostRuntime) {
        match self {
            Obstacle::Cannot(cannot, place, error) => tell_cause(rt, place.file(), *cannot, error),
            Obstacle::TooLong(place, most_bytes) => tell_why(
                rt,
                place.file(),
                format_args!("it has more than {most_bytes} bytes; {LOOK_THERE}"),
            ),
            Obstacle::NoText(place) => tell_why(rt, place.file(), NO_TEXT),
            Obstacle::NoOrigin(place) => {
                tell_why(
                    rt,
                    place.file(),
                    format_args!("{NO_ORIGIN}; {WITHOUT_ORIGIN}"),
                );
            }
            Obstacle::NoPlan(path, plan, _) => tell_refusal(rt, path.as_str(), plan.as_str()),
            Obstacle::InUse(path) => tell_why(rt, path, IN_USE),
            Obstacle::NoPort => tell_why_no_port(rt),
            Obstacle::AnotherServer(server) => server.explain(rt),
            Obstacle::Contradicted(contradiction) => contradiction.explain(rt),
            Obstacle::NoProgress(..) => {}
            Obstacle::OtherAttributes(path, difference) => {
                let _ = rt.eprintln(format_args!(
                    "{path} was saved for other attributes: key {difference}; the attributes of an object do not change: restore them in the plan, or give the key another name"
                ));
            }
        }
    }
}

/// Tells on standard error why no port is free. The system is asked once more, as a link keeps no word
/// of it.
fn tell_why_no_port(rt: &HostRuntime) {
    let any_port = SocketAddr::V4(SocketAddrV4::new(Ipv4Addr::LOCALHOST, 0));
    if let Err(error) = rt.bind(any_port) {
        tell_why(rt, any_port, error);
    }
}
