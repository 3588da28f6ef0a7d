//! What a command asks for.
ghost use Rattle.std.specs.Prelude.{◌≡◌};
ghost use Rattle.span_cli.specs.Jobs.{task_of};

use crate::command::Command;
use propagation::HeaderForm;
use span_convert::{Report, Written};
use span_io::Form;

/// What a run makes.
#[derive(Clone, Copy, PartialEq, Eq)]
pub(crate) enum Job {
    /// Reads spans in a form, and converts or reports them.
    Spans(Form, Written),
    /// Reads header lines, and writes their context in a form.
    HeaderLines(HeaderForm),
    /// Reads nothing, and writes the sizes of the gauge of so many spans.
    Gauge(u32),
}

/// What a command asks for.
#[derive(Clone, Copy, PartialEq, Eq)]
pub(crate) enum Task {
    /// To make the output of the job.
    Make(Job),
    /// To serve so many connections at the address that is the word at this place.
    Serve {
        address: usize,
        to: Form,
        count: u32,
    },
}

impl Command {
    /// What it asks for.
    pub(crate) fn task(self) -> Task
        ensures { result ≡ task_of self }
    {
        match self {
            Command::Convert(from, to) => Task::Make(Job::Spans(from, Written::Form(to))),
            Command::Losses(from, to) => {
                Task::Make(Job::Spans(from, Written::Report(Report::Losses(to))))
            }
            Command::Show(from) => Task::Make(Job::Spans(from, Written::Report(Report::Show))),
            Command::Check(from) => Task::Make(Job::Spans(from, Written::Report(Report::Check))),
            Command::Headers(form) => Task::Make(Job::HeaderLines(form)),
            Command::Gauge(spans) => Task::Make(Job::Gauge(spans)),
            Command::Serve { address, to, count } => Task::Serve { address, to, count },
        }
    }
}
