//! The report of a run, told by what doesn't depend on how turns fall to workers.

use std::alloc::{AllocError, Global};

/// The numbers among the words of a text, in order.
fn numbers_in(alloc: Global, text: &str) -> Result<Vec<u64>, AllocError> {
    let mut numbers = Vec::new(alloc);
    for word in text.split_whitespace() {
        if let Ok(number) = word.parse::<u64>() {
            numbers.push(number)?;
        }
    }
    Ok(numbers)
}

fn number_at(numbers: &[u64], place: usize) -> u64 {
    numbers.get(place).copied().unwrap_or(0)
}

/// `recomputed R, W workers, T turns` of a report with so many lines of workers, where all turns, those of the caller too, add
/// up to T; `no report` where the text isn't exactly the lines of a report.
pub(crate) fn report_shown(alloc: Global, text: &str) -> Result<String, AllocError> {
    let numbers = numbers_in(alloc, text)?;
    let numbers = numbers.as_slice();
    let recomputed = number_at(numbers, 0);
    let workers = numbers.len().saturating_sub(2) / 2;
    let caller = number_at(numbers, numbers.len().saturating_sub(1));
    let mut report = format!(in alloc; "recomputed {recomputed}\n")?;
    let mut turns = caller;
    for worker in 0..workers {
        let own = number_at(numbers, worker.saturating_mul(2).saturating_add(2));
        report.push_str(format!(in alloc; "worker {worker} turns {own}\n")?.as_str())?;
        turns = turns.saturating_add(own);
    }
    report.push_str(format!(in alloc; "caller turns {caller}\n")?.as_str())?;
    if report.as_str() != text {
        return String::from_str(alloc, "no report");
    }
    format!(in alloc; "recomputed {recomputed}, {workers} workers, {turns} turns")
}
