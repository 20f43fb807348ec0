//! A schema of the files of plans, for editors.

/// The schema of a plan, as JSON Schema of draft 2020-12 has it. It takes a plan for what TOML makes of
/// its file: a table as an object. What it refuses `check` refuses too. It cannot say that two keys have
/// one name, nor that a length has no fraction, as `256.0`.
///
/// `tools/plan_schema.py` compares its words and limits with those of kmip_plan and kmip_objects.
pub(crate) const PLAN_SCHEMA: &str = r##"{
  "$schema": "https://json-schema.org/draft/2020-12/schema",
  "title": "A plan of kmipctl",
  "description": "The symmetric keys that are to exist on a key server, and how far each goes.",
  "type": "object",
  "required": ["key"],
  "additionalProperties": false,
  "properties": {
    "key": {
      "description": "The keys, in the order in which they are made.",
      "type": "array",
      "minItems": 1,
      "maxItems": 1000,
      "items": { "$ref": "#/$defs/key" }
    }
  },
  "$defs": {
    "key": {
      "description": "A key, and how far it goes.",
      "type": "object",
      "required": ["name", "algorithm", "length", "usage", "target"],
      "additionalProperties": false,
      "properties": {
        "name": {
          "description": "The name, of this key alone: printable ASCII characters, no space.",
          "type": "string",
          "minLength": 1,
          "maxLength": 64,
          "pattern": "^[!-~]*$"
        },
        "algorithm": {
          "description": "The algorithm that the key is for.",
          "enum": ["AES", "HMAC-SHA256"]
        },
        "length": {
          "description": "How many bits the key has: 256, and of AES also 128 or 192.",
          "enum": [128, 192, 256]
        },
        "usage": {
          "description": "What may be done with the key: each word once.",
          "type": "array",
          "minItems": 1,
          "uniqueItems": true,
          "items": {
            "enum": [
              "sign",
              "verify",
              "encrypt",
              "decrypt",
              "wrap-key",
              "unwrap-key",
              "mac-generate",
              "mac-verify"
            ]
          }
        },
        "target": {
          "description": "How far the key goes. A discarded one is destroyed without ever being active.",
          "enum": ["created", "active", "revoked", "destroyed", "discarded"]
        },
        "reason": {
          "description": "Why the key is revoked; unspecified where it is left out.",
          "enum": [
            "unspecified",
            "affiliation-changed",
            "superseded",
            "cessation-of-operation",
            "privilege-withdrawn"
          ]
        }
      },
      "allOf": [
        {
          "if": {
            "required": ["algorithm"],
            "properties": { "algorithm": { "const": "HMAC-SHA256" } }
          },
          "then": { "properties": { "length": { "const": 256 } } }
        },
        {
          "if": {
            "required": ["target"],
            "properties": { "target": { "enum": ["created", "active", "discarded"] } }
          },
          "then": { "not": { "required": ["reason"] } }
        }
      ]
    }
  }
}
"##;
