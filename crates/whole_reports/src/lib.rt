//! Reads and writes whole reports: the text of a report is read back as that report, and any other text is answered
//! with its first line that may not stand where it stands.
#![tactic(auto)]

mod laws;
mod verdicts;
mod walking;
mod writing;

pub use laws::reports_are_read;
pub use verdicts::ReadRefusal;
pub use walking::read_report;
pub use writing::write_report;
