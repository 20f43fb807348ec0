//! How `show` prints an item.
ghost use Rattle.std.specs.Prelude.{◌≡◌, if◌then◌else◌};
ghost use Rattle.kmip_message_commands.specs.declared.form.Form.{Form};
ghost use Rattle.kmip_message_commands.specs.declared.form.Form.TheVariants.{Text, Canonical};

use kmip_ttlv::show;

/// How `show` prints an item.
#[derive(Clone, Copy, Debug, PartialEq, Eq)]
pub enum Form {
    /// A line of text for each item, those inside a Structure below it.
    Text,
    /// The one written form of its bytes in hexadecimal, the padding zero.
    Canonical,
}

impl Form {
    /// `Canonical` if the canonical form is asked for, else `Text`.
    pub fn of(is_canonical: bool) -> Form
        ensures { result ≡ (if is_canonical then Canonical else Text) }
    {
        if is_canonical {
            Form::Canonical
        } else {
            Form::Text
        }
    }
}
