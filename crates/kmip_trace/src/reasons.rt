//! The standard's names of Result Reasons.
ghost use Rattle.std.specs.Prelude.{◌≡◌, option_map, option_and_then, map};
ghost use Rattle.std.specs.List.{slice_get};
ghost use Rattle.kmip_trace.specs.Reasons.{name_given, reason_name, reason_names};

/// The reason of which the number lies behind the table.
const GENERAL_FAILURE: u32 = 0x100;

/// The standard's names of its Result Reasons, in the order of their numbers, from 0 on; none where a
/// number is reserved.
///
/// Source: KMIP 2.1, Enumerations, Result Reason.
const REASON_NAMES: [&str; 77] = [
    "",
    "Item Not Found",
    "Response Too Large",
    "Authentication Not Successful",
    "Invalid Message",
    "Operation Not Supported",
    "Missing Data",
    "Invalid Field",
    "Feature Not Supported",
    "Operation Canceled By Requester",
    "Cryptographic Failure",
    "",
    "Permission Denied",
    "Object Archived",
    "",
    "Application Namespace Not Supported",
    "Key Format Type Not Supported",
    "Key Compression Type Not Supported",
    "Encoding Option Error",
    "Key Value Not Present",
    "Attestation Required",
    "Attestation Failed",
    "Sensitive",
    "Not Extractable",
    "Object Already Exists",
    "Invalid Ticket",
    "Usage Limit Exceeded",
    "Numeric Range",
    "Invalid Data Type",
    "Read Only Attribute",
    "Multi Valued Attribute",
    "Unsupported Attribute",
    "Attribute Instance Not Found",
    "Attribute Not Found",
    "Attribute Read Only",
    "Attribute Single Valued",
    "Bad Cryptographic Parameters",
    "Bad Password",
    "Codec Error",
    "",
    "Illegal Object Type",
    "Incompatible Cryptographic Usage Mask",
    "Internal Server Error",
    "Invalid Asynchronous Correlation Value",
    "Invalid Attribute",
    "Invalid Attribute Value",
    "Invalid Correlation Value",
    "Invalid CSR",
    "Invalid Object Type",
    "",
    "Key Wrap Type Not Supported",
    "",
    "Missing Initialization Vector",
    "Non Unique Name Attribute",
    "Object Destroyed",
    "Object Not Found",
    "",
    "Not Authorised",
    "Server Limit Exceeded",
    "Unknown Enumeration",
    "Unknown Message Extension",
    "Unknown Tag",
    "Unsupported Cryptographic Parameters",
    "Unsupported Protocol Version",
    "Wrapping Object Archived",
    "Wrapping Object Destroyed",
    "Wrapping Object Not Found",
    "Wrong Key Lifecycle State",
    "Protection Storage Unavailable",
    "PKCS#11 Codec Error",
    "PKCS#11 Invalid Function",
    "PKCS#11 Invalid Interface",
    "Private Protection Storage Unavailable",
    "Public Protection Storage Unavailable",
    "Unknown Object Group",
    "Constraint Violation",
    "Duplicate Process Request",
];

/// The standard's name of a Result Reason, where it has one. Takes no memory.
///
/// Source: KMIP 2.1, Enumerations, Result Reason.
pub fn reason_name(reason: u32) -> Option<&'static str>
    ensures { option_map (λ name. name.now) result ≡ reason_name reason }
{
    if reason == GENERAL_FAILURE {
        return Some("General Failure");
    }
    name_among(reason_names(), reason)
}

/// The name at the place of a number, where one stands there.
fn name_among(names: &[&'static str], reason: u32) -> Option<&'static str>
    ensures { option_map (λ name. name.now) result
        ≡ option_and_then name_given (slice_get (map (λ name. name.now) names.now) reason) }
{
    let Some(name) = names.get(reason as usize) else {
        return None;
    };
    given(*name)
}

/// The name, unless it is empty.
fn given(name: &'static str) -> Option<&'static str>
    ensures { option_map (λ name. name.now) result ≡ name_given name.now }
{
    if name.is_empty() { None } else { Some(name) }
}

/// The table of names.
fn reason_names() -> &'static [&'static str]
    ensures { map (λ name. name.now) result.now ≡ reason_names }
{
    &REASON_NAMES
}
