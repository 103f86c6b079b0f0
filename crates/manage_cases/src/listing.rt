use cases::{Case, CasesRefusal, Part, add_bytes};
use evaluator::{LogRow, LogRows};
use manage::log_page;
use std::alloc::Global;
use zbase::{Bytes, Tid};

// The row of a part, whose description stands below it.
fn row_of(alloc: Global, part: &Part) -> Result<LogRow, CasesRefusal> {
    Ok(LogRow {
        tid: Tid(part.id(1)?),
        user: Bytes::from_slice(alloc, part.word(2).unwrap_or("").as_bytes())?,
        description: part.bytes.copy()?,
    })
}

fn rows_of(alloc: Global, case: &Case) -> Result<LogRows, CasesRefusal> {
    let mut rows = LogRows::new(alloc);
    for part in &case.parts {
        if part.key() == "row" {
            rows.push(row_of(alloc, part)?)?;
        }
    }
    Ok(rows)
}

/// Adds the page of a log with a case's rows.
pub(crate) fn put_log(
    alloc: Global,
    case: &Case,
    parts: &mut Vec<Part>,
) -> Result<(), CasesRefusal> {
    let text = log_page(alloc, &rows_of(alloc, case)?)?;
    add_bytes(
        alloc,
        parts,
        "page",
        Bytes::from_slice(alloc, text.as_bytes())?,
    )
}
