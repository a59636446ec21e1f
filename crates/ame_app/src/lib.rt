//! From words and a program's bytes to its lines: reading, checking, running, and reporting how it ended.
#![tactic(auto)]

mod alone;
mod answer;
mod asked;
mod call;
mod code;
mod exit;
mod fault;
mod limits;
mod lists;
mod parts;
mod process;
mod refusal;
mod report;
mod run_result;
mod speak;
mod standard;
mod status;
mod told;
mod verbs;
mod verdict;

pub use alone::{Alone, run_alone_over};
pub use call::{run_words, run_words_over};
pub use code::code_of;
pub use exit::{exit_of, exit_with};
pub use fault::{TextFault, WordsFault};
pub use lists::{Mades, Picks};
pub use parts::{Front, ReportPart};
pub use process::{process_words, run_process, standard_devices};
pub use report::Report;
pub use run_result::{Extra, Ran, RunResult, WeakEnd};
pub use standard::StandardDevice;
pub use status::Status;
pub use verbs::{Certified, Settled, judge_journal, read_certificate};
