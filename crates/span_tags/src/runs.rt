//! The scopes of spans: runs of equal name and version.
ghost use Rattle.std.specs.Prelude.{◌≡◌, [], ◌∷◌, ◌++◌, ◌&&◌, List, IfOk};
ghost use Rattle.std.specs.Str.{bytes_eq};
ghost use Rattle.trace_model.specs.declared.group.Scope as model;
ghost use Rattle.span_tags.specs.Runs.{in_front, plain_scope};
ghost use Rattle.span_tags.specs.ReadRuns.{joined, one_of, with_behind};

use span_io::{Items, OutOfMemory, Text};
use std::alloc::Global;
use trace_model::{Scope, Span};

/// A span, and the name and version of its scope.
#[derive(Drop)]
pub struct ReadSpan {
    pub name: Text,
    pub version: Text,
    pub span: Span,
}

// Spans of one name and version.
#[derive(Drop)]
struct Run {
    name: Text,
    version: Text,
    spans: Items<Span>,
}

impl Run {
    fn of(alloc: Global, one: ReadSpan) -> Result<Run, OutOfMemory>
        ensures name { IfOk result (λ run. run.name ≡ one.name) }
        ensures version { IfOk result (λ run. run.version ≡ one.version) }
        ensures spans { IfOk result (λ run. run.spans ≡ one.span ∷ []) }
    {
        let mut spans = Items::new(alloc);
        spans.push(one.span)?;
        Ok(Run {
            name: one.name,
            version: one.version,
            spans,
        })
    }

    // Whether the span has the name and version of the run.
    fn is_of(&self, one: &ReadSpan) -> bool
        ensures { result
            ≡ (bytes_eq self.now.name one.now.name && bytes_eq self.now.version one.now.version) }
    {
        self.name.as_str() == one.name.as_str() && self.version.as_str() == one.version.as_str()
    }

    // The run with one more span.
    fn with(self, span: Span) -> Result<Run, OutOfMemory>
        ensures name { IfOk result (λ run. run.name ≡ self.name) }
        ensures version { IfOk result (λ run. run.version ≡ self.version) }
        ensures spans { IfOk result (λ run. run.spans ≡ self.spans ++ span ∷ []) }
    {
        let mut spans = self.spans;
        spans.push(span)?;
        Ok(Run {
            name: self.name,
            version: self.version,
            spans,
        })
    }

    fn scope(self, alloc: Global) -> Scope
        ensures { result ≡ plain_scope self.name self.version self.spans }
    {
        Scope {
            name: self.name,
            version: self.version,
            attributes: Items::new(alloc),
            dropped: 0,
            schema_url: Text::new(alloc),
            spans: self.spans,
        }
    }
}

/// The scopes of the spans so far.
#[derive(Drop)]
pub struct Runs {
    done: Items<Scope>,
    last: Option<Run>,
}

impl Runs {
    /// Those of no spans.
    pub fn none(alloc: Global) -> Runs
        ensures { (scopes : List model.Scope) → with_behind result scopes ≡ scopes }
    {
        Runs {
            done: Items::new(alloc),
            last: None,
        }
    }

    /// The scopes with one more span.
    pub fn add(self, alloc: Global, one: ReadSpan) -> Result<Runs, OutOfMemory>
        ensures { IfOk result (λ more. (scopes : List model.Scope)
            → with_behind more scopes ≡ with_behind self (in_front (one_of one) scopes)) }
    {
        let Runs { done, last } = self;
        match last {
            None => begin(alloc, done, one),
            Some(run) => behind(alloc, done, run, one),
        }
    }

    /// All scopes.
    pub fn finish(self, alloc: Global) -> Result<Items<Scope>, OutOfMemory>
        ensures { IfOk result (λ scopes. scopes ≡ with_behind self []) }
    {
        let mut done = self.done;
        if let Some(run) = self.last {
            done.push(run.scope(alloc))?;
        }
        Ok(done)
    }
}

// A run of one span, behind these scopes.
fn begin(alloc: Global, done: Items<Scope>, one: ReadSpan) -> Result<Runs, OutOfMemory>
    ensures { IfOk result
        (λ runs. (scopes : List model.Scope)
        → with_behind runs scopes ≡ done ++ in_front (one_of one) scopes) }
{
    let first = Run::of(alloc, one)?;
    Ok(Runs {
        done,
        last: Some(first),
    })
}

// One more span, behind these scopes and that run.
fn behind(alloc: Global, done: Items<Scope>, run: Run, one: ReadSpan) -> Result<Runs, OutOfMemory>
    ensures { IfOk result (λ runs. (scopes : List model.Scope)
        → with_behind runs scopes
        ≡ done ++ joined run.name run.version run.spans (in_front (one_of one) scopes)) }
{
    let mut done = done;
    if run.is_of(&one) {
        let more = run.with(one.span)?;
        return Ok(Runs {
            done,
            last: Some(more),
        });
    }
    done.push(run.scope(alloc))?;
    let next = Run::of(alloc, one)?;
    Ok(Runs {
        done,
        last: Some(next),
    })
}
