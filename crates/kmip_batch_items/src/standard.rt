//! The numbers of the standard that messages have: tags, and the values of its enumerations.
//!
//! The code and the definitions cite the numbers alike. `ID_MAX` is the code's alone: contracts cite the
//! limit of specs/Ranges.antt.
//!
//! Source: KMIP 2.1, Tags and Enumerations. What is marked "own" is this project's profile.

// Tags.

pub const TAG_BATCH_COUNT: u32 = 0x42000D;

pub const TAG_BATCH_ERROR_CONTINUATION_OPTION: u32 = 0x42000E;

pub const TAG_BATCH_ITEM: u32 = 0x42000F;

pub const TAG_CRYPTOGRAPHIC_ALGORITHM: u32 = 0x420028;

pub const TAG_CRYPTOGRAPHIC_LENGTH: u32 = 0x42002A;

pub const TAG_CRYPTOGRAPHIC_USAGE_MASK: u32 = 0x42002C;

pub const TAG_NAME: u32 = 0x420053;

pub const TAG_NAME_TYPE: u32 = 0x420054;

pub const TAG_NAME_VALUE: u32 = 0x420055;

pub const TAG_OBJECT_TYPE: u32 = 0x420057;

pub const TAG_OPERATION: u32 = 0x42005C;

pub const TAG_PROTOCOL_VERSION: u32 = 0x420069;

pub const TAG_PROTOCOL_VERSION_MAJOR: u32 = 0x42006A;

pub const TAG_PROTOCOL_VERSION_MINOR: u32 = 0x42006B;

pub const TAG_REQUEST_HEADER: u32 = 0x420077;

pub const TAG_REQUEST_MESSAGE: u32 = 0x420078;

pub const TAG_REQUEST_PAYLOAD: u32 = 0x420079;

pub const TAG_RESPONSE_HEADER: u32 = 0x42007A;

pub const TAG_RESPONSE_MESSAGE: u32 = 0x42007B;

pub const TAG_RESPONSE_PAYLOAD: u32 = 0x42007C;

pub const TAG_RESULT_REASON: u32 = 0x42007E;

pub const TAG_RESULT_STATUS: u32 = 0x42007F;

pub const TAG_REVOCATION_REASON: u32 = 0x420081;

pub const TAG_REVOCATION_REASON_CODE: u32 = 0x420082;

pub const TAG_STATE: u32 = 0x42008D;

pub const TAG_STORAGE_STATUS_MASK: u32 = 0x42008E;

pub const TAG_TIME_STAMP: u32 = 0x420092;

pub const TAG_UNIQUE_BATCH_ITEM_ID: u32 = 0x420093;

pub const TAG_UNIQUE_IDENTIFIER: u32 = 0x420094;

pub const TAG_ATTRIBUTES: u32 = 0x420125;

// What Attributes have in which no others may stand (own).

/// The attributes of a new key.
pub const KEY_TAGS: [u32; 4] = [
    TAG_NAME,
    TAG_CRYPTOGRAPHIC_ALGORITHM,
    TAG_CRYPTOGRAPHIC_LENGTH,
    TAG_CRYPTOGRAPHIC_USAGE_MASK,
];

/// The attributes that keys are looked for by.
pub const FILTER_TAGS: [u32; 6] = [
    TAG_OBJECT_TYPE,
    TAG_NAME,
    TAG_CRYPTOGRAPHIC_ALGORITHM,
    TAG_CRYPTOGRAPHIC_LENGTH,
    TAG_CRYPTOGRAPHIC_USAGE_MASK,
    TAG_STATE,
];

// Operations.

pub const OPERATION_CREATE: u32 = 0x1;

pub const OPERATION_LOCATE: u32 = 0x8;

pub const OPERATION_GET_ATTRIBUTES: u32 = 0xB;

pub const OPERATION_ACTIVATE: u32 = 0x12;

pub const OPERATION_REVOKE: u32 = 0x13;

pub const OPERATION_DESTROY: u32 = 0x14;

// Name types.

pub const NAME_TYPE_UNINTERPRETED_TEXT_STRING: u32 = 0x1;

// Result statuses.

pub const STATUS_SUCCESS: u32 = 0x0;

pub const STATUS_OPERATION_FAILED: u32 = 0x1;

// Result reasons.

pub const REASON_ITEM_NOT_FOUND: u32 = 0x1;

pub const REASON_INVALID_MESSAGE: u32 = 0x4;

pub const REASON_OPERATION_NOT_SUPPORTED: u32 = 0x5;

pub const REASON_MISSING_DATA: u32 = 0x6;

pub const REASON_INVALID_FIELD: u32 = 0x7;

pub const REASON_FEATURE_NOT_SUPPORTED: u32 = 0x8;

pub const REASON_NON_UNIQUE_NAME: u32 = 0x35;

pub const REASON_WRONG_STATE: u32 = 0x43;

/// All the room of the server is used up. The standard has no such reason: this number is our own choice.
pub const REASON_SERVER_FULL: u32 = 0x100;

// Batch error continuation options.

/// The questions after a failure are done.
pub const CONTINUE: u32 = 0x1;

/// The questions after a failure are left.
pub const STOP: u32 = 0x2;

/// The questions before a failure are undone.
pub const UNDO: u32 = 0x3;

// The version of the protocol.

pub const VERSION_MAJOR: i32 = 2;

pub const VERSION_MINOR: i32 = 1;

/// The most questions of a message (own).
pub const MOST_QUESTIONS: usize = 8;

/// The most bytes of a Unique Batch Item ID (own).
pub const ID_MAX: usize = 128;
