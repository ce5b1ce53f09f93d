//! Pages, and which of them a word asks for.
ghost use Rattle.std.specs.Prelude.{◌≡◌, map, string_bytes};
ghost use Rattle.std.specs.Option.{option_copied, option_map};
ghost use Rattle.pahole_help.specs.Asked.{behind_explain, found, page_of, page_for};
ghost use Rattle.pahole_help.specs.Asked.{text_in, text_under};

/// What an error or a usage code means, and what to do.
#[derive(Clone, Copy)]
pub struct Explanation<'p> {
    /// The number of an error, or `usage` and a usage code.
    pub key: &'p str,
    /// Whole lines.
    pub text: &'p str,
}

/// What the program says of itself.
#[derive(Clone, Copy)]
pub struct Pages<'p> {
    /// The page of `--help`.
    pub help: &'p str,
    /// The page of `--version`.
    pub version: &'p str,
    /// The pages of `--explain=N`, in tables. Of two with one key the first counts.
    pub explanations: &'p [&'p [Explanation<'p>]],
}

/// What a word of the program's own asks for.
#[derive(Clone, Copy)]
pub enum Page<'p> {
    /// This text.
    Text(&'p str),
    /// The explanation of something that has none.
    Unexplained,
}

/// The page that is asked for: by `--help`, `--version`, or `--explain=` and a key, where that is
/// the only word. `None` exactly where the words ask for none.
pub fn page_for<'p>(pages: &Pages<'p>, words: &[String]) -> Option<Page<'p>>
    ensures { option_map found result ≡ page_for pages.now (map string_bytes words.now) }
{
    if words.len() == 1 {
        page_of(pages, words[0].as_str())
    } else {
        None
    }
}

/// The page that a word asks for.
fn page_of<'p>(pages: &Pages<'p>, word: &str) -> Option<Page<'p>>
    ensures { option_map found result ≡ page_of pages.now word.now }
{
    if word == "--help" {
        return Some(Page::Text(pages.help));
    }
    if word == "--version" {
        return Some(Page::Text(pages.version));
    }
    match behind_explain(word) {
        Some(key) => Some(explained(pages.explanations, key)),
        None => None,
    }
}

/// What stands behind `--explain=`, where a word begins so.
fn behind_explain(word: &str) -> Option<&str>
    ensures { option_copied result ≡ behind_explain word.now }
{
    word.strip_prefix("--explain=")
}

/// The page of a key.
fn explained<'p>(tables: &'p [&'p [Explanation<'p>]], key: &str) -> Page<'p>
    ensures { found result ≡ text_in tables.now key.now }
{
    match text_in(tables, key) {
        Some(text) => Page::Text(text),
        None => Page::Unexplained,
    }
}

/// The text of the first explanation with a key in some tables.
fn text_in<'p>(tables: &'p [&'p [Explanation<'p>]], key: &str) -> Option<&'p str>
    ensures { option_copied result ≡ text_in tables.now key.now }
{
    for table in tables {
        if let Some(text) = text_under(table, key) {
            return Some(text);
        }
    }
    None
}

/// The text of the first explanation with a key.
fn text_under<'p>(explanations: &'p [Explanation<'p>], key: &str) -> Option<&'p str>
    ensures { option_copied result ≡ text_under explanations.now key.now }
{
    for explanation in explanations {
        if explanation.key == key {
            return Some(explanation.text);
        }
    }
    None
}
