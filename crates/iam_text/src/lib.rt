//! Texts of IAM policies: patterns with wildcards, texts with variables, and the parts of an ARN.
//!
//! Patterns are those of `iam_glob`, which stands below and is passed on.
#![tactic(auto)]

mod arn;
mod characters;
mod draft;
mod form;
mod items;
mod laws;
mod pieces;
mod stretches;
mod template;
mod text;
mod version;

pub use arn::{Arn, has_six_parts};
pub use characters::{is_account, is_label};
pub use draft::{Draft, Piece, has_dollar, has_draft, has_forms_behind};
pub use form::{Form, cut_form};
pub use iam_glob::{Compiled, Glob, OutOfMemory, Sign, Signs, add_signs};
pub use items::Items;
pub use laws::{one_arn, one_draft};
pub use stretches::Stretches;
pub use template::{Template, TemplateForm};
pub use text::Text;
pub use version::Version;
