// The cases of the table.
use anyhow::Context;
use run_script::report;
use std::alloc::Global;

// A script, and the report that it is to have.
#[derive(Drop)]
pub struct Case<'a> {
    pub title: &'a str,
    pub script: Vec<u8>,
    pub report: String,
}

// The bytes of a script: hexadecimal digits, and behind a plus sign how many zeros follow them.
fn script_of(heap: Global, words: &str) -> anyhow::Result<Vec<u8>> {
    let (digits, zeros) = words.split_once('+').unwrap_or((words, "0"));
    let mut script = hex::decode(heap, digits)?;
    let length = script.len().saturating_add(zeros.parse()?);
    script.resize(length, 0)?;
    Ok(script)
}

// A case: a title, a script, and the lines of its report.
pub fn case_of<'a>(heap: Global, text: &'a str) -> anyhow::Result<Case<'a>> {
    let mut lines = text.lines();
    let title = lines.next().context("a case begins with a title")?;
    let script = lines
        .next()
        .and_then(|line| line.strip_prefix("script "))
        .context("a script follows the title")?;
    let mut report = String::new(heap);
    for line in lines {
        report.push_str(line.strip_prefix("> ").context("not a line of a report")?)?;
        report.push('\n')?;
    }
    Ok(Case {
        title,
        script: script_of(heap, script)?,
        report,
    })
}

// The report of a case as it is found.
pub fn found(heap: Global, case: &Case<'_>) -> anyhow::Result<String> {
    Ok(String::from_utf8(report(heap, &case.script)?)?)
}
