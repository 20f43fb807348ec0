//! The numbers of the standard that objects have: the values of its enumerations and masks.
//!
//! The code and the definitions cite the numbers alike. The two limits at the end are the code's alone:
//! contracts cite those of specs/Ranges.antt.
//!
//! Source: KMIP 2.1, Enumerations. What is marked "own" is this project's profile.

// Object types and cryptographic algorithms.

pub const OBJECT_TYPE_SYMMETRIC_KEY: u32 = 0x2;

pub const ALGORITHM_AES: u32 = 0x3;

pub const ALGORITHM_HMAC_SHA256: u32 = 0x9;

// Revocation reason codes.

pub const REVOCATION_UNSPECIFIED: u32 = 0x1;

pub const REVOCATION_KEY_COMPROMISE: u32 = 0x2;

pub const REVOCATION_CA_COMPROMISE: u32 = 0x3;

pub const REVOCATION_AFFILIATION_CHANGED: u32 = 0x4;

pub const REVOCATION_SUPERSEDED: u32 = 0x5;

pub const REVOCATION_CESSATION_OF_OPERATION: u32 = 0x6;

pub const REVOCATION_PRIVILEGE_WITHDRAWN: u32 = 0x7;

// Bits of the Storage Status Mask.

/// Objects that are on-line: here all that are not destroyed.
pub const STORAGE_ON_LINE: u32 = 0x1;
/// Objects that are destroyed.
pub const STORAGE_DESTROYED: u32 = 0x4;

/// The bits that a Cryptographic Usage Mask may have: it is 1 to this number (own).
pub const USAGE_MAX: i32 = 0x1FF;

/// The most bytes of a Name Value in a request, and of a Unique Identifier (own).
pub const NAME_MAX: usize = 64;
