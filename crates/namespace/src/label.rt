ghost use Rattle.std.specs.Prelude.{◌≡◌};

use std::marker::Model;
use zbase::Text;

/// The name of a value, which contracts see as its text. A word of the program itself takes no memory.
#[derive(Debug, Drop)]
pub struct Label {
    word: &'static str,
    // It comes in the word's stead.
    own: Option<Text>,
}

impl Model for Label {
    ghost use Rattle.std.specs.Prelude.{ℕ, List};
    ghost use Rattle.namespace.specs.Labels.{own_or};

    ghost Value = { List ℕ };

    ghost view = { λ label. own_or label.word.now label.own };
}

impl Label {
    /// A label of this text. Takes no memory.
    pub fn of(text: Text) -> Label
        ensures { result ≡ text }
    {
        Label {
            word: "",
            own: Some(text),
        }
    }

    /// A label of a word. Takes no memory.
    pub fn word(word: &'static str) -> Label
        ensures { result ≡ word.now }
    {
        Label { word, own: None }
    }

    /// The label's text. Takes no memory.
    pub fn as_str(&self) -> &str
        ensures { result.now ≡ self.now }
    {
        match &self.own {
            Some(text) => text.as_str(),
            None => self.word,
        }
    }
}
