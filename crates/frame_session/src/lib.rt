//! Sessions over a stream: packets decoded from the start, a script, request lines and their replies,
//! and `run`, which does all of that over the bytes of a file and of a request list.
#![tactic(auto)]

mod edit;
mod export;
mod forged;
mod keeping;
pub mod laws;
mod live;
mod observer;
mod refusal;
mod replies;
mod serving;
mod session;
mod settings;
mod size;

pub use export::Export;
pub use live::{LiveFault, run_live_over};
pub use lossless_cuts::CutFault;
pub use observer::{Observer, Unobserved};
pub use refusal::Refusal;
pub use request_lines::Edit;
pub use serving::{RunFault, answer_line, read_sources, run, run_over};
pub use session::{ExportFault, Session};
pub use settings::Settings;
pub use size::Size;
pub use state_cache::Capacity;
