use cases::{CasesRefusal, Part};
use dtml_format::Marks;
use std::alloc::Global;
use zbase::Text;

// Sets the mark that a word names; whether it names one.
fn set_mark(marks: &mut Marks, word: &str) -> bool {
    match word {
        "html_quote" => marks.html_quote = true,
        "url_quote" => marks.url_quote = true,
        "newline_to_br" => marks.newline_to_br = true,
        "lower" => marks.lower = true,
        "upper" => marks.upper = true,
        "capitalize" => marks.capitalize = true,
        _ => return false,
    }
    true
}

// Sets the size that a word gives; whether it gives one.
fn set_size(marks: &mut Marks, word: &str) -> bool {
    let Some(digits) = word.strip_prefix("size=") else {
        return false;
    };
    match digits.parse::<u32>() {
        Ok(size) => {
            marks.size = Some(size);
            true
        }
        Err(_) => false,
    }
}

/// The marks that the words of a part name; the word `etc` stands for this text.
pub fn marks_of(alloc: Global, part: &Part, etc: &str) -> Result<Marks, CasesRefusal> {
    let mut marks = Marks {
        html_quote: false,
        url_quote: false,
        newline_to_br: false,
        lower: false,
        upper: false,
        capitalize: false,
        size: None,
        etc: None,
    };
    for word in part.words.iter().skip(1) {
        if word.as_str() == "etc" {
            marks.etc = Some(Text::from_str(alloc, etc)?);
        } else if !set_mark(&mut marks, word.as_str()) && !set_size(&mut marks, word.as_str()) {
            return Err(CasesRefusal::BadPart(part.line));
        }
    }
    Ok(marks)
}
