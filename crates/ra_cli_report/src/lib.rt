//! The report of a check as one JSON object.
//!
//! The contract for the layers above: `report_json` is exact byte for byte (`specs/Report`: `report_object`).
#![tactic(auto)]

mod json;

pub use json::report_json;
