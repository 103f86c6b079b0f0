ghost use Rattle.std.specs.Prelude.{◌≡◌};
ghost use Rattle.words.specs.Asking.{is_index_of, is_one_line};

/// Whether the text has no line feed.
pub(crate) fn is_one_line(text: &str) -> bool
    ensures { result ≡ is_one_line text.now }
{
    !text.as_bytes().contains(&b'\n')
}

/// Whether the file is the index of the repository.
pub(crate) fn is_index_of(repo: &str, file: &str) -> bool
    ensures { result ≡ is_index_of repo.now file.now }
{
    match file.as_bytes().strip_suffix(b".dat") {
        Some(before) => before == repo.as_bytes(),
        None => false,
    }
}
