//! The words that the lines of a module text begin with.

ghost use Rattle.std.specs.Prelude.{◌≡◌};
ghost use Rattle.rhd_text.specs.ReadRows.{keyword_in};
ghost use Rattle.rhd_loader.specs.Rows.{module_form, all_words};

/// The word that a line of a module text begins with.
#[derive(Clone, Copy, Debug, PartialEq, Eq)]
pub enum ModuleWord {
    Var,
    Fn,
    Import,
    Doc,
    Fault,
}

impl ModuleWord {
    fn spelling(self) -> &'static [u8]
        ensures { result.now ≡ (module_form self).spelling }
    {
        match self {
            ModuleWord::Var => b"var",
            ModuleWord::Fn => b"fn",
            ModuleWord::Import => b"import",
            ModuleWord::Doc => b"doc",
            ModuleWord::Fault => b"fault",
        }
    }
}

#[tactic(auto, unfolding(rhd_text::specs::ReadRows::keyword_in))]
fn word_in(words: &[ModuleWord], word: &[u8]) -> Option<ModuleWord>
    ensures { result ≡ keyword_in module_form words.now word.now }
{
    for k in words {
        if k.spelling() == word {
            return Some(*k);
        }
    }
    None
}

/// The word that is spelled so.
pub fn word_of(word: &[u8]) -> Option<ModuleWord>
    ensures { result ≡ keyword_in module_form all_words word.now }
{
    word_in(
        &[
            ModuleWord::Fn,
            ModuleWord::Import,
            ModuleWord::Var,
            ModuleWord::Doc,
            ModuleWord::Fault,
        ],
        word,
    )
}
