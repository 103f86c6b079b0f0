use crate::forms::{put_cookies, put_fields};
use crate::streams::{put_cuts, put_held, put_stream, put_taken};
use crate::users::{put_credentials, put_found, put_kept};
use cases::{Case, CasesRefusal, Part, Runner};
use std::alloc::Global;

/// Messages of streams, and what is read of them.
///
/// `stream` is read in one piece: `messages` comes of it, with the lines of each message one behind another, and `rest`
/// with the number of bytes behind the last one. `cut WORDS` reads it anew in pieces, for each word in other ones: of so
/// many bytes, or for `each` in two pieces that part at each of its places. `cuts same` comes where each reading gives
/// the same, and `cuts other WORD` with the first word that doesn't. Of `holding SIZE` comes `held` with the greatest
/// number of bytes that the reader held, in pieces of that size. What is behind `take` is taken as one message: `taken`
/// comes of it, with its lines or the word `none`.
///
/// A message that is refused is the line `LENGTH refused CAUSE`. A whole one is `LENGTH METHOD`, and below it a line
/// `segment` for each segment of its path, `raw` and `query`, a line `header` with name and value for each of its
/// headers, and `body`: each text is in brackets behind a space. Where the bytes that were taken for it aren't those of
/// the stream, its first line ends in `other`.
///
/// `form` is a message: `fields` comes of it, with a line for each field, or `no-number` with the name that is refused.
/// `jar` is one too, and its `cookies` come. A line is `one` or `list`, the name in brackets, and behind a space each
/// value, a text in brackets, a number without.
///
/// `header` is the value of a header `Authorization`, or `header absent`: `credentials` comes of it with the name and the
/// password in brackets, or `credentials none`, or `credentials bad`. `kept` comes of a `password`. `login NAME` has a
/// password too: of the users, which the parts `user NAME` give with what is kept of their passwords, `found` comes with
/// the name and what is kept in brackets, or `found none`.
#[derive(Drop)]
pub struct HttpCases;

impl Runner for HttpCases {
    fn knows(&self, key: &str) -> bool {
        [
            "stream", "cut", "holding", "take", "form", "jar", "header", "password", "user",
            "login",
        ]
        .contains(&key)
    }

    fn run(&self, alloc: Global, case: &Case) -> Result<Vec<Part>, CasesRefusal> {
        let mut parts = Vec::new(alloc);
        for part in &case.parts {
            match part.key() {
                "stream" => put_stream(alloc, part, &mut parts)?,
                "cut" => put_cuts(alloc, case, part, &mut parts)?,
                "holding" => put_held(alloc, case, part, &mut parts)?,
                "take" => put_taken(alloc, part, &mut parts)?,
                "form" => put_fields(alloc, part, &mut parts)?,
                "jar" => put_cookies(alloc, part, &mut parts)?,
                "header" => put_credentials(alloc, part, &mut parts)?,
                "password" => put_kept(alloc, part, &mut parts)?,
                "login" => put_found(alloc, case, part, &mut parts)?,
                _ => {}
            }
        }
        Ok(parts)
    }
}
