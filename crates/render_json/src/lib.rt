//! Series as the texts of Graphite's render API. The path of a series is in none of them.
#![tactic(auto)]

mod backward;
mod csv_form;
mod json_form;
mod parts;
mod raw_form;
mod remaining;

pub use csv_form::{LATEST_CSV_END, csv_text};
pub use json_form::json_text;
pub use raw_form::raw_text;
