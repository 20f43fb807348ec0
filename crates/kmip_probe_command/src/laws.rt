//! What holds of every report, as the contract of a function that does nothing.
ghost use Rattle.kmip_probe_command.specs.ProbeText.{TellsAllKept};

use kmip_report::Form;

/// If answers say that each premise is kept, for the two reasons of the profile, then all that is
/// printed of the premises is one text in each form.
pub fn tells_all_kept()
    ensures { (form : Form) → TellsAllKept form }
{}
