use cases::{Case, CasesRefusal, Count, Met, Part, Runner, run_text};
use std::alloc::Global;
use zbase::Bytes;

/// Case files: each `text` is one, whose cases are run by `Echo`; `output` with what is said of them and `count N M` come
/// of them, for N cases of which M are wrong.
#[derive(Drop)]
pub struct CaseFiles;

// A driver of which comes what it is given: of `say KEY WORDS` and bytes a part of that key, these words and these bytes.
#[derive(Drop)]
struct Echo;

impl Runner for Echo {
    fn knows(&self, key: &str) -> bool {
        key == "say" || key == "number"
    }

    fn run(&self, alloc: Global, case: &Case) -> Result<Vec<Part>, CasesRefusal> {
        case.number("number", 0)?;
        let mut parts = Vec::new(alloc);
        for part in &case.parts {
            if part.key() == "say" {
                let mut words = String::new(alloc);
                for word in part.words.iter().skip(1) {
                    words.push_str(word.as_str())?;
                    words.push_str(" ")?;
                }
                parts.push(Part::with(alloc, words.as_str(), part.bytes.copy()?)?)?;
            }
        }
        Ok(parts)
    }
}

impl Runner for CaseFiles {
    fn knows(&self, key: &str) -> bool {
        key == "text"
    }

    fn run(&self, alloc: Global, case: &Case) -> Result<Vec<Part>, CasesRefusal> {
        let mut met = Met::new(alloc);
        let mut output = Bytes::new(alloc);
        for part in case.parts.iter().filter(|part| part.key() == "text") {
            let Ok(text) = str::from_utf8(part.bytes.as_slice()) else {
                return Err(CasesRefusal::BadPart(part.line));
            };
            let said = run_text(alloc, &Echo, "inner.cases", text, &mut met)?;
            output.append(said.as_bytes())?;
        }
        let Count { all, wrong } = met.count;
        let count = format!(in alloc; "count {all} {wrong}")?;
        let mut parts = Vec::new(alloc);
        parts.push(Part::with(alloc, "output", output)?)?;
        parts.push(Part::with(alloc, count.as_str(), Bytes::new(alloc))?)?;
        Ok(parts)
    }
}
