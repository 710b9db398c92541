//! Reading the fields of a request from a line of JSON.
//!
//! A line of JSON that is an object is read from its bytes or from its tokens. No tree is built, and the working memory
//! of the previous line is used again. The result is what `serde_json` reads.
#![tactic(auto)]

mod compact_reading;
mod fields;
mod line_scratch;
mod member_value;
mod reading;

pub use fields::Fields;
pub use line_scratch::LineScratch;
pub use reading::read_fields;
