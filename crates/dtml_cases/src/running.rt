use crate::expressions::{outline, put_expr};
use crate::page::Page;
use crate::shapes::marks_of;
use crate::sources::{put_parts, put_refusal};
use crate::templates::put_tree;
use cases::{Case, CasesRefusal, Part, Runner, add_bytes, add_line, add_number};
use dtml_expr::parse_expr;
use dtml_format::shape;
use dtml_parse::parse;
use std::alloc::Global;
use zbase::{Bytes, Text};

/// Readings of DTML, and texts that are shaped. Given are `source WORD` with its bytes, any number of them, and `from N`, which is 0 where it isn't
/// there. The word says what the bytes are:
///
/// - `parts`: a source, whose parts are read one after another from place N on. `parts` comes of it, with a line a part,
///   `START..END KIND`, and last `refused WORD PLACE` where one is refused, or `no place` where N is between the bytes of
///   a character. A KIND is `plain 'TEXT'`, `entity NAME`, or `open TAG` or `close TAG` with a form for each attribute:
///   `word(A)`, `bare(A,B)`, `quoted(A,B)` or `text(A)`.
/// - `expression`: an expression, in a tag at place N. `tree` comes of it, with one line: a number, a text in its quotes
///   and a name stand for themselves; all else is a sign or a word with the operands behind it, in brackets, as
///   `(or a (+ 1 'b'))`; `(. a b)` is a name behind a dot.
/// - `chain`: such an expression that is long. `chain WORD COUNT` comes of it: its outermost sign or word, and how many
///   operands that has.
/// - `template`: a template. `tree` comes of it, with a line a node; the content of a block stands a step of two blanks
///   farther to the right. A line is `plain 'TEXT'`, or the tag's name, its place, its argument and what else it has:
///   `var 0 title html_quote size(20) etc(..)`, `let 4 a=b c={(+ 1 2)}`. An expression stands in braces. Lines `elif` and
///   `else` belong to the `if` or `in` before them that stands as far to the right.
///
/// Where one of the last three is refused, `refused WORD PLACE` comes of it. The words of refusals are those of
/// `DtmlRefusal`: `tag`, `unclosed`, `stray`, `attribute`, `expression`, `large` with the greatest length, `deep`, and
/// `memory`. With `parts` and `tree` come `lines COUNT` and `deepest COUNT`: how many lines it has, and how many steps
/// the line stands to the right that stands there most.
///
/// In texts, `\n` stands for an end of line and `\\` for `\`.
///
/// `rows WORD` holds many sources, in lines `SOURCE => LINE`, each with the line that has to come of it, which may be that
/// of a refusal. It comes with the same sources, and behind them what came.
///
/// Given are `shape WORDS` too, with the bytes of a text: it is shaped by the marks that the words name, which are those
/// of `dtml-var`; `size=N` is the size, and `etc` stands for the bytes of the case's part `etc`, which are none where it
/// has no such part. `shaped` comes of each, with its bytes.
#[derive(Drop)]
pub struct Readings;

// Adds what comes of a source. The key of the part whose bytes that is, or none where it is a line of words.
fn put_reading(
    alloc: Global,
    page: &mut Page,
    part: &Part,
    source: &str,
    from: usize,
) -> Result<Option<&'static str>, CasesRefusal> {
    match part.word(1).unwrap_or("") {
        "parts" => {
            put_parts(alloc, page, source, from);
            Ok(Some("parts"))
        }
        "expression" => Ok(put_expression(alloc, page, source, from)),
        "chain" => {
            put_chain(alloc, page, source, from);
            Ok(None)
        }
        "template" => Ok(put_template(alloc, page, source)),
        _ => Err(CasesRefusal::BadPart(part.line)),
    }
}

// Adds the tree of an expression, or why there is none.
fn put_expression(
    alloc: Global,
    page: &mut Page,
    source: &str,
    from: usize,
) -> Option<&'static str> {
    match parse_expr(alloc, source, from) {
        Ok(expr) => {
            put_expr(page, &expr);
            page.end();
            Some("tree")
        }
        Err(refusal) => {
            put_refusal(page, refusal);
            None
        }
    }
}

// Adds the outline of an expression, or why there is none.
fn put_chain(alloc: Global, page: &mut Page, source: &str, from: usize) {
    match parse_expr(alloc, source, from) {
        Ok(expr) => {
            let (word, operands) = outline(&expr);
            page.put("chain ");
            page.put(word);
            page.put(" ");
            page.put_place(operands);
            page.end();
        }
        Err(refusal) => put_refusal(page, refusal),
    }
}

// Adds the tree of a template, or why there is none.
fn put_template(alloc: Global, page: &mut Page, source: &str) -> Option<&'static str> {
    match parse(alloc, source) {
        Ok(tree) => {
            put_tree(page, 0, &tree);
            Some("tree")
        }
        Err(refusal) => {
            put_refusal(page, refusal);
            None
        }
    }
}

// The characters of a part.
fn text_of(part: &Part) -> Result<&str, CasesRefusal> {
    match str::from_utf8(part.bytes.as_slice()) {
        Ok(text) => Ok(text),
        Err(_) => Err(CasesRefusal::BadPart(part.line)),
    }
}

// Adds a page, and how many lines and steps it has.
fn add_page(
    alloc: Global,
    parts: &mut Vec<Part>,
    key: &str,
    page: &Page,
) -> Result<(), CasesRefusal> {
    let text = Bytes::from_slice(alloc, page.text()?.as_bytes())?;
    add_bytes(alloc, parts, key, text)?;
    add_number(alloc, parts, "lines", page.lines)?;
    add_number(alloc, parts, "deepest", page.deepest)
}

// Adds the parts that come of a source.
fn take_source(
    alloc: Global,
    parts: &mut Vec<Part>,
    part: &Part,
    from: usize,
) -> Result<(), CasesRefusal> {
    let mut page = Page::new(alloc);
    match put_reading(alloc, &mut page, part, text_of(part)?, from)? {
        Some(key) => add_page(alloc, parts, key, &page),
        None => add_line(alloc, parts, page.text()?),
    }
}

// Adds a row of a part, with what came of its source.
fn put_row(
    alloc: Global,
    out: &mut Bytes,
    part: &Part,
    row: &str,
    from: usize,
) -> Result<(), CasesRefusal> {
    let Some((source, _)) = row.split_once(" => ") else {
        return Err(CasesRefusal::BadPart(part.line));
    };
    let mut page = Page::new(alloc);
    put_reading(alloc, &mut page, part, source, from)?;
    out.append(source.as_bytes())?;
    out.append(b" => ".as_slice())?;
    Ok(out.append(page.text()?.as_bytes())?)
}

// Adds the rows of a part, with what came of their sources.
fn take_rows(
    alloc: Global,
    parts: &mut Vec<Part>,
    part: &Part,
    from: usize,
) -> Result<(), CasesRefusal> {
    let mut bytes = Bytes::new(alloc);
    for row in text_of(part)?.lines() {
        put_row(alloc, &mut bytes, part, row, from)?;
    }
    let words = format!(in alloc; "rows {}", part.word(1).unwrap_or(""))?;
    add_bytes(alloc, parts, words.as_str(), bytes)
}

// The text of a part, shaped by its marks.
fn shaped(alloc: Global, case: &Case, part: &Part) -> Result<Text, CasesRefusal> {
    let etc = match case.part("etc") {
        Some(etc) => text_of(etc)?,
        None => "",
    };
    let marks = marks_of(alloc, part, etc)?;
    Ok(shape(alloc, text_of(part)?, &marks)?)
}

// Adds the text of a part, shaped by its marks.
fn take_shape(
    alloc: Global,
    parts: &mut Vec<Part>,
    case: &Case,
    part: &Part,
) -> Result<(), CasesRefusal> {
    let text = shaped(alloc, case, part)?;
    let bytes = Bytes::from_slice(alloc, text.as_bytes())?;
    add_bytes(alloc, parts, "shaped", bytes)
}

impl Runner for Readings {
    fn knows(&self, key: &str) -> bool {
        matches!(key, "source" | "from" | "shape" | "etc")
    }

    fn run(&self, alloc: Global, case: &Case) -> Result<Vec<Part>, CasesRefusal> {
        let from = usize::try_from(case.number("from", 0)?).unwrap_or(0);
        let mut parts = Vec::new(alloc);
        for part in &case.parts {
            if part.key() == "source" {
                take_source(alloc, &mut parts, part, from)?;
            } else if part.key() == "rows" {
                take_rows(alloc, &mut parts, part, from)?;
            } else if part.key() == "shape" {
                take_shape(alloc, &mut parts, case, part)?;
            }
        }
        Ok(parts)
    }
}
