use crate::page::Page;
use dtml_lex::{Attribute, Attributes, DtmlRefusal, PartKind, SourcePart, TagName, next_part};
use std::alloc::Global;

// How a name of a tag is spelled.
fn tag_text(name: TagName) -> &'static str {
    match name {
        TagName::Var => "var",
        TagName::Call => "call",
        TagName::If => "if",
        TagName::Elif => "elif",
        TagName::Else => "else",
        TagName::Unless => "unless",
        TagName::In => "in",
        TagName::With => "with",
        TagName::Let => "let",
        TagName::Comment => "comment",
    }
}

// Adds the form of an attribute, and its texts in brackets.
fn put_form(page: &mut Page, form: &str, name: &str, between: &str, value: &str) {
    page.put(" ");
    page.put(form);
    page.put("(");
    page.put_text(name);
    page.put(between);
    page.put_text(value);
    page.put(")");
}

// Adds the name of a tag and its attributes.
fn put_tag(page: &mut Page, name: TagName, attributes: &Attributes) {
    page.put(tag_text(name));
    for attribute in attributes.as_slice() {
        match attribute {
            Attribute::Word(word) => put_form(page, "word", word.as_str(), "", ""),
            Attribute::Bare { name, value } => {
                put_form(page, "bare", name.as_str(), ",", value.as_str());
            }
            Attribute::Quoted { name, value } => {
                put_form(page, "quoted", name.as_str(), ",", value.as_str());
            }
            Attribute::Quotation(text) => put_form(page, "text", text.as_str(), "", ""),
        }
    }
}

// Adds the line of a part.
fn put_part(page: &mut Page, part: &SourcePart) {
    page.put_place(part.start);
    page.put("..");
    page.put_place(part.end);
    match &part.kind {
        PartKind::Plain(text) => {
            page.put(" plain '");
            page.put_text(text.as_str());
            page.put("'");
        }
        PartKind::Entity(name) => {
            page.put(" entity ");
            page.put_text(name.as_str());
        }
        PartKind::Opening(name, attributes) => {
            page.put(" open ");
            put_tag(page, *name, attributes);
        }
        PartKind::Closing(name, attributes) => {
            page.put(" close ");
            put_tag(page, *name, attributes);
        }
    }
    page.end();
}

/// The word of a refusal, and its place or number.
pub fn refusal_text(refusal: DtmlRefusal) -> (&'static str, usize) {
    match refusal {
        DtmlRefusal::Memory => ("memory", 0),
        DtmlRefusal::BadTag(at) => ("tag", at),
        DtmlRefusal::Unclosed(at) => ("unclosed", at),
        DtmlRefusal::Stray(at) => ("stray", at),
        DtmlRefusal::BadAttribute(at) => ("attribute", at),
        DtmlRefusal::BadExpression(at) => ("expression", at),
        DtmlRefusal::TooLarge(most) => ("large", most),
        DtmlRefusal::TooDeep(at) => ("deep", at),
    }
}

/// Adds the line of a refusal.
pub fn put_refusal(page: &mut Page, refusal: DtmlRefusal) {
    let (word, place) = refusal_text(refusal);
    page.put("refused ");
    page.put(word);
    page.put(" ");
    page.put_place(place);
    page.end();
}

/// Adds the parts of a source from a place on, and the refusal that ends them. Where the place is between the bytes of a
/// character, `no place` is added.
pub fn put_parts(alloc: Global, page: &mut Page, source: &str, from: usize) {
    let mut at = from;
    for _ in 0..=source.len() {
        if !source.is_char_boundary(at) {
            page.put("no place");
            return page.end();
        }
        match next_part(alloc, source, at) {
            Ok(Some(part)) => {
                put_part(page, &part);
                at = part.end;
            }
            Ok(None) => return,
            Err(refusal) => return put_refusal(page, refusal),
        }
    }
}
