//! The calls that are promised to take no memory. The name of each is printed once it has been made, and a full stop once what it
//! needs stands ready. What the C library is asked for between a name and the line before it is counted by `.ci/no-memory`.
mod broker;
mod hub;
mod report;
mod rows;
mod session;
mod small;
mod stream;
mod streams;
mod word;

use report::Report;

/// Makes each call. Says whether each line was printed, and there was memory for what stands before the calls.
pub(crate) fn calls(rt: &HostRuntime) -> bool {
    let report = Report::new(rt);
    report.ready();
    // What does take memory.
    report.made("control", String::from_str(report.alloc(), "text").is_ok());
    small::calls(&report);
    stream::calls(&report);
    streams::calls(&report);
    rows::calls(&report);
    hub::calls(&report);
    session::calls(&report);
    word::calls(&report);
    broker::calls(&report);
    report.is_whole()
}
