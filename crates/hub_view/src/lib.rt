//! Bodies of replies: JSON as plain values, its text, and what is shown of each object and of a list in pages.
//! `user_body` and its kin carry it: a field stands in the body exactly where the grant admits its action on the object; and the
//! text that `body_text` gives is exactly that of the body's tokens. The machine answers bodies, and the interface writes them.
#![tactic(auto)]

mod body;
mod dates;
mod facts;
mod fields;
mod groups;
mod identity;
mod members;
mod page_part;
mod pages;
mod parts;
mod records;
mod servers;
mod text;
mod users;
mod word;

pub use body::Body;
pub use facts::{ServerFacts, UserFacts};
pub use groups::{group_body, service_body};
pub use identity::{service_identity, user_identity};
pub use members::{add_member, line, message_body};
pub use page_part::{PagePart, names_in_page, part_of};
pub use pages::{Page, page_body};
pub use records::{code_body, new_code_body, new_token_body, role_body, share_body, token_body};
pub use servers::{is_live, server_url};
pub use text::body_text;
pub use users::user_body;
pub use word::{MemberKey, Word};
