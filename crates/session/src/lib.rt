// A session: bytes come in, in blocks of any size, and the answers' bytes go out.
#![tactic(auto)]

mod reply;
mod session;

pub use session::Session;
