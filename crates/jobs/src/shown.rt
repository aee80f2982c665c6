//! Answers as text: lines, or a line of JSON.

ghost use Rattle.std.specs.Prelude.{◌≡◌, ◌++◌, ◌∷◌, [], List, false, true, IfOk, OnOk, codes, string_bytes};
ghost use Rattle.std.specs.Option.{option_map};
ghost use Rattle.serde_json.specs.Data.{null};
ghost use Rattle.serde_json.specs.View.{view};
ghost use Rattle.agenda_store.specs.Plan.{Job};
ghost use Rattle.agenda_store.specs.Store.{lent};
ghost use Rattle.jobs.specs.Answer.{IsComplaint, IsJobData, IsJobLine, IsPayload, Shows, ShowsAll, TellsDeadline, blank_text as blank_answer, done_text as done_answer, line, json_line as json_answer, number_text as number_answer, only};
ghost use Rattle.jobs.specs.Showing.{HasShown};
ghost use Rattle.line_service.specs.declared.style.Style.{Style};

use agenda_store::JobRef;
use line_service::{Style, complaint, json_line};
use serde_json::{Value, json};
use std::alloc::{AllocError, Global};
use std::fmt::Display;

/// Returns the answer that tells a job's number.
pub fn number_text(alloc: Global, style: Style, id: u64) -> Result<String, AllocError>
    ensures { IfOk result (λ text. string_bytes text ≡ number_answer style.is_json id) }
{
    if style.is_json {
        json_line(alloc, &json!(in alloc; {"number": id})?)
    } else {
        format!(in alloc; "{id}\n")
    }
}

/// Returns the answer that something was done.
pub fn done_text(alloc: Global, style: Style) -> Result<String, AllocError>
    ensures { IfOk result (λ text. string_bytes text ≡ done_answer style.is_json) }
{
    if style.is_json {
        json_line(alloc, &json!(in alloc; {"done": true})?)
    } else {
        String::from_str(alloc, "done\n")
    }
}

/// Returns the answer to a line that says nothing.
pub fn blank_text(alloc: Global, style: Style) -> Result<String, AllocError>
    ensures { IfOk result (λ text. string_bytes text ≡ blank_answer style.is_json) }
{
    if style.is_json {
        String::from_str(alloc, "{}\n")
    } else {
        Ok(String::new(alloc))
    }
}

/// Returns the answer that lists the commands.
pub fn help_text(alloc: Global, style: Style, commands: &str) -> Result<String, AllocError> {
    if style.is_json {
        json_line(alloc, &json!(in alloc; {"help": commands})?)
    } else {
        String::from_str(alloc, commands)
    }
}

/// Returns the answer to a line that isn't obeyed.
pub fn complaint_text(
    alloc: Global,
    style: Style,
    line: u64,
    reason: impl Display + Drop,
) -> Result<String, AllocError>
    ensures { IfOk result (λ text. IsComplaint style.is_json (string_bytes text)) }
{
    if style.is_json {
        return json_line(alloc, &complaint(alloc, line, reason)?);
    }
    let reason = format!(in alloc; "{reason}")?;
    let reason = reason.as_str();
    format!(in alloc; "line {line}: {reason}\n")
}

/// Returns the answer that tells a deadline, if there is one.
pub fn deadline_text(
    alloc: Global,
    style: Style,
    deadline: Option<u64>,
) -> Result<String, AllocError>
    ensures { IfOk result
        (λ text. TellsDeadline style.is_json style.has_dates deadline (string_bytes text)) }
{
    let Some(deadline) = deadline else {
        return absent(alloc, style, "deadline");
    };
    if style.is_json {
        let deadline = style.time_value(alloc, deadline)?;
        return json_line(alloc, &json!(in alloc; {"deadline": deadline})?);
    }
    let deadline = style.time_text(alloc, deadline)?;
    format!(in alloc; "{deadline}\n")
}

/// Returns the answer that shows a job, if there is one.
pub fn job_text(alloc: Global, style: Style, job: Option<JobRef<'_>>) -> Result<String, AllocError>
    ensures { IfOk result (λ text. Shows style.is_json style.has_dates (option_map lent job.entry) (string_bytes text)) }
{
    let Some(job) = job else {
        return absent(alloc, style, "job");
    };
    if style.is_json {
        let job = job_value(alloc, style, job)?;
        return json_line(alloc, &json!(in alloc; {"job": job})?);
    }
    job_line(alloc, style, job)
}

// Returns the answer that there is no job, or in JSON that a member is null.
fn absent(alloc: Global, style: Style, name: &str) -> Result<String, AllocError>
    ensures text { style.is_json ≡ false → IfOk result (λ text. string_bytes text ≡ line (codes "no job")) }
    ensures json { style.is_json ≡ true → IfOk result (λ text. string_bytes text ≡ json_answer (only name.now null)) }
{
    if style.is_json {
        json_line(alloc, &json!(in alloc; {(name): null})?)
    } else {
        String::from_str(alloc, "no job\n")
    }
}

// Returns the text of a payload, or ? for one that is no text.
fn text_of(payload: &[u8]) -> &str
    ensures { IsPayload payload.now result.now }
{
    match str::from_utf8(payload) {
        Ok(text) => text,
        Err(_) => "?",
    }
}

// Returns the line of a job.
fn job_line(alloc: Global, style: Style, job: JobRef<'_>) -> Result<String, AllocError>
    ensures { IfOk result (λ text. IsJobLine style.has_dates (lent job.entry) (string_bytes text)) }
{
    let id = job.id.0;
    let payload = text_of(job.bytes);
    let deadline = style.time_text(alloc, job.deadline)?;
    format!(in alloc; "{id} {deadline} {payload}\n")
}

// Returns a job in JSON.
fn job_value(alloc: Global, style: Style, job: JobRef<'_>) -> Result<Value, AllocError>
    ensures { IfOk result (λ value. IsJobData style.has_dates (lent job.entry) (view value)) }
{
    let deadline = style.time_value(alloc, job.deadline)?;
    json!(in alloc; {"number": job.id.0, "deadline": deadline, "payload": text_of(job.bytes)})
}

/// Jobs that are being shown: the lines so far, or in JSON the values.
#[derive(Drop)]
pub struct Shown {
    lines: String,
    values: Vec<Value>,
}

impl Shown {
    /// Shows no jobs yet.
    pub fn new(alloc: Global) -> Shown
        ensures { (style : Style) → HasShown style result [] }
    {
        Shown {
            lines: String::new(alloc),
            values: Vec::new(alloc),
        }
    }

    /// Shows one more job.
    pub fn push(&mut self, alloc: Global, style: Style, job: JobRef<'_>) -> Result<(), AllocError>
        ensures { OnOk result ((jobs : List Job) → HasShown style self.old jobs → HasShown style self.new (jobs ++ lent job.entry ∷ [])) }
    {
        if style.is_json {
            self.values.push(job_value(alloc, style, job)?)?;
        } else {
            self.lines.push_str(&job_line(alloc, style, job)?)?;
        }
        Ok(())
    }

    /// Returns the answer.
    pub fn text(self, alloc: Global, style: Style) -> Result<String, AllocError>
        ensures { IfOk result (λ text. (jobs : List Job) → HasShown style self jobs → ShowsAll style.is_json style.has_dates jobs (string_bytes text)) }
    {
        if style.is_json {
            return json_line(alloc, &json!(in alloc; {"jobs": self.values})?);
        }
        if self.lines.is_empty() {
            return String::from_str(alloc, "no job\n");
        }
        Ok(self.lines)
    }
}
