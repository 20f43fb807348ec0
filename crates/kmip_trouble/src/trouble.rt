//! What ends a command before its work is done, and the one place that prints it.
ghost use Rattle.std.specs.Prelude.{◌≢◌};
ghost use Rattle.kmip_report.specs.Endings.{IfFailed, IfWhole};
ghost use Rattle.kmip_trouble.specs.ObstacleLines.{FailsToTell, TellsTrouble};

use crate::cannot::Cannot;
use crate::held::Held;
use crate::obstacle::Obstacle;
use crate::place::Place;
use crate::told::tell_output;
use kmip_choices::Format;
use kmip_report::{CommandFault, ExitStatus, Form, Printer, print_report};
use kmip_ttlv::NoMemory;
use std::alloc::AllocError;
use std::io::{Error, ErrorKind};

/// What ends a command before its work is done.
#[derive(Drop)]
pub enum Trouble {
    /// Something keeps it from its work.
    Refused(Obstacle),
    /// Memory ran out, or else standard output takes nothing.
    Io(Error),
}

impl From<Obstacle> for Trouble {
    fn from(obstacle: Obstacle) -> Trouble {
        Trouble::Refused(obstacle)
    }
}

impl From<Error> for Trouble {
    fn from(error: Error) -> Trouble {
        Trouble::Io(error)
    }
}

impl From<NoMemory> for Trouble {
    fn from(_want: NoMemory) -> Trouble {
        Trouble::Io(Error::from(ErrorKind::OutOfMemory))
    }
}

impl From<AllocError> for Trouble {
    fn from(_want: AllocError) -> Trouble {
        Trouble::Io(Error::from(ErrorKind::OutOfMemory))
    }
}

impl Trouble {
    /// An I/O error at `path`. Running out of memory is reported separately.
    pub fn at(rt: &HostRuntime, cannot: Cannot, path: &str, error: Error) -> Trouble {
        match place_of(rt, path, None) {
            Ok(place) => Trouble::at_place(cannot, place, error),
            Err(want) => Trouble::from(want),
        }
    }

    /// An I/O error at `file`, which is next to the file at the path that the command was given.
    pub fn beside(
        rt: &HostRuntime,
        cannot: Cannot,
        given: &str,
        file: String,
        error: Error,
    ) -> Trouble {
        match place_of(rt, given, Some(file)) {
            Ok(place) => Trouble::at_place(cannot, place, error),
            Err(want) => Trouble::from(want),
        }
    }

    /// The file at `path` could not be read. It may have at most this number of bytes.
    pub fn unread(rt: &HostRuntime, path: &str, most_bytes: u64, error: Error) -> Trouble {
        match place_of(rt, path, None) {
            Ok(place) => Trouble::unread_place(Cannot::Read, place, most_bytes, error),
            Err(want) => Trouble::from(want),
        }
    }

    /// The file that says where a progress was saved could not be read. It may have at most this number of
    /// bytes.
    pub fn unread_origin(
        rt: &HostRuntime,
        given: &str,
        file: String,
        most_bytes: u64,
        error: Error,
    ) -> Trouble {
        match place_of(rt, given, Some(file)) {
            Ok(place) => Trouble::unread_place(Cannot::ReadOrigin, place, most_bytes, error),
            Err(want) => Trouble::from(want),
        }
    }

    fn at_place(cannot: Cannot, place: Place, error: Error) -> Trouble {
        if is_out_of_memory(&error) {
            return Trouble::Io(error);
        }
        Trouble::from(Obstacle::Cannot(cannot, place, error))
    }

    fn unread_place(cannot: Cannot, place: Place, most_bytes: u64, error: Error) -> Trouble {
        match error.kind() {
            ErrorKind::FileTooLarge => Trouble::from(Obstacle::TooLong(place, most_bytes)),
            ErrorKind::InvalidData => Trouble::from(Obstacle::NoText(place)),
            _ => Trouble::at_place(cannot, place, error),
        }
    }

    /// Prints on standard output, in this form, why the command ends, and reports on standard error what there
    /// is to say of it. Returns how the program ends.
    pub fn tell(&self, rt: &HostRuntime, format: Format) -> ExitStatus
        // It does not end with `Done`.
        ensures troubled { result ≢ ExitStatus.Done }
    {
        let mut output = Held::of(rt);
        let status = self.print(rt, format.form(), &mut output);
        output.tell();
        status
    }

    /// Prints in this form why the command ends, and reports on standard error what there is to say of it.
    /// Returns how the program ends.
    pub fn print<P: Printer>(&self, rt: &HostRuntime, form: Form, printer: &mut P) -> ExitStatus
        // It does not end with `Done`.
        ensures troubled { result ≢ ExitStatus.Done }
        // If it ends with `Refused`, exactly the line of what keeps the command from its work is printed.
        ensures text { IfWhole result (λ _. TellsTrouble form self.now
            (P.contents printer.old) (P.contents printer.new)) }
        // If it ends with `Failed`, memory ran out, and exactly the line of that is printed; or the printer
        // failed. If the output had failed before, nothing is printed.
        ensures broken { IfFailed result (λ fault. FailsToTell form self.now fault
            P.own_fault P.IsWhole (P.contents printer.old) (P.contents printer.new)) }
    {
        match self {
            Trouble::Refused(obstacle) => obstacle.tell(rt, form, printer),
            Trouble::Io(error) if is_out_of_memory(error) => {
                print_report(form, Err(NoMemory), &[], printer)
            }
            Trouble::Io(error) => {
                tell_output(rt, error);
                ExitStatus::Failed(CommandFault::Output)
            }
        }
    }
}

/// The place of the file at the path that the command was given, or of another file next to it.
///
/// # Errors
/// If memory runs out.
fn place_of(rt: &HostRuntime, given: &str, file: Option<String>) -> Result<Place, AllocError> {
    let given = String::from_str(rt.alloc(), given)?;
    match file {
        Some(file) => Ok(Place::beside(given, file)),
        None => Ok(Place::of(given)),
    }
}

/// Whether memory ran out.
fn is_out_of_memory(error: &Error) -> bool {
    error.kind() == ErrorKind::OutOfMemory
}
