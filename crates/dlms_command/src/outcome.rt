//! The progress that a run shows, and its outcome.

use crate::{Fault, OUTPUT, Terminals};
use dlms_printing::Showing;
use dlms_words::{Job, OutputFormat, TableFormat, ValueFormat};
use std::alloc::Global;
use std::io;

/// How a command shows its progress: not at all unless standard error is a terminal, and only by a line at the end if the output goes to
/// a terminal too.
pub fn showing_for(terminals: Terminals, is_quiet: bool) -> Showing {
    match terminals {
        _ if is_quiet => Showing::Nothing,
        Terminals { errors: false, .. } => Showing::Nothing,
        Terminals { output: true, .. } => Showing::Total,
        Terminals { output: false, .. } => Showing::Progress,
    }
}

/// Whether a job prints JSON, and so reports a fault as JSON too.
pub fn prints_json(job: &Job<'_>) -> bool {
    let format = match job {
        Job::Get(options) => return options.format == ValueFormat::Json,
        Job::Profile(options) => return options.format == TableFormat::Json,
        Job::Collect(options) => options.format,
        Job::List(options) => options.format,
        Job::Listen(options) => options.format,
        Job::Clock(options) => options.format,
        Job::Explain(options) => options.format,
        Job::Poll(options) => options.format,
        Job::Set(options) => options.format,
        Job::Act(options) => options.format,
        Job::Show(options) => options.format,
        Job::Plot(options) => options.format,
        _ => OutputFormat::Text,
    };
    format == OutputFormat::Json
}

/// Whether the job only shows something: if its reader closes the pipe, the job is done. A replay changes its meter, so it is not
/// done while lines of it are left.
fn may_be_cut(job: &Job<'_>) -> bool {
    matches!(
        job,
        Job::Explain(_)
            | Job::List(_)
            | Job::Listen(_)
            | Job::Profile(_)
            | Job::Show(_)
            | Job::Plot(_)
            | Job::Names(_)
            | Job::Man
            | Job::Completions(_)
    )
}

/// Whether a job ended early for a stream, one of which the output may be.
fn is_of_a_stream(ended: &Result<(), Fault<'_>>) -> bool {
    match ended {
        Ok(()) => false,
        Err(fault) => fault.is_of_a_stream(),
    }
}

/// How a job ended, if the output may have failed: the reason is reported, unless a reader has closed its end of a pipe.
pub fn outcome<'a>(
    alloc: Global,
    job: &Job<'a>,
    ended: Result<(), Fault<'a>>,
    failure: Option<io::Error>,
) -> Result<(), Fault<'a>> {
    match failure {
        Some(error) if is_of_a_stream(&ended) => {
            drop(ended);
            if error.kind() == io::ErrorKind::BrokenPipe && may_be_cut(job) {
                Ok(())
            } else {
                Err(Fault::of_system(alloc, OUTPUT, &error))
            }
        }
        _ => ended,
    }
}
