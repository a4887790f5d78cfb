// The words before a member.

ghost use Rattle.std.specs.Prelude.{◌≡◌};
ghost use Rattle.php_ast.specs.declaration.View.{modifier_view};
ghost use Rattle.php_ast.specs.statement.View.{sequence};
ghost use Rattle.php_legality.specs.Lists.{elements};
ghost use Rattle.php_places.specs.Over.{over};
ghost use Rattle.php_forms.specs.Modifiers as spec;

use php_ast::{Modifier, ModifierWord};
use php_legality::{Fault, Kind};
use php_places::fault_if;

/// Which words stand before a member.
#[derive(Clone, Copy)]
struct Words {
    /// One of `public`, `protected`, `private` and `var`.
    has_visibility: bool,
    has_private: bool,
    has_static: bool,
    has_abstract: bool,
    has_final: bool,
}

// Going over words.
#[derive(Clone, Copy)]
struct Worded {
    first: Option<Fault>,
    words: Words,
}

fn no_words() -> Words
    ensures { result ≡ spec.no_words }
{
    Words {
        has_visibility: false,
        has_private: false,
        has_static: false,
        has_abstract: false,
        has_final: false,
    }
}

// Whether a word doesn't go together with one of these.
fn clashes(words: Words, word: ModifierWord) -> bool
    ensures { result ≡ spec.clashes words word }
{
    match word {
        ModifierWord::Public => words.has_visibility,
        ModifierWord::Protected => words.has_visibility,
        ModifierWord::Var => words.has_visibility,
        ModifierWord::Private => {
            if words.has_visibility {
                true
            } else {
                words.has_abstract
            }
        }
        ModifierWord::Static => words.has_static,
        ModifierWord::Abstract => {
            if words.has_private {
                true
            } else if words.has_abstract {
                true
            } else {
                words.has_final
            }
        }
        ModifierWord::Final => {
            if words.has_abstract {
                true
            } else {
                words.has_final
            }
        }
    }
}

fn with_word(words: Words, word: ModifierWord) -> Words
    ensures { result ≡ spec.with_word words word }
{
    match word {
        ModifierWord::Public => Words {
            has_visibility: true,
            has_private: words.has_private,
            has_static: words.has_static,
            has_abstract: words.has_abstract,
            has_final: words.has_final,
        },
        ModifierWord::Protected => Words {
            has_visibility: true,
            has_private: words.has_private,
            has_static: words.has_static,
            has_abstract: words.has_abstract,
            has_final: words.has_final,
        },
        ModifierWord::Var => Words {
            has_visibility: true,
            has_private: words.has_private,
            has_static: words.has_static,
            has_abstract: words.has_abstract,
            has_final: words.has_final,
        },
        ModifierWord::Private => Words {
            has_visibility: true,
            has_private: true,
            has_static: words.has_static,
            has_abstract: words.has_abstract,
            has_final: words.has_final,
        },
        ModifierWord::Static => Words {
            has_visibility: words.has_visibility,
            has_private: words.has_private,
            has_static: true,
            has_abstract: words.has_abstract,
            has_final: words.has_final,
        },
        ModifierWord::Abstract => Words {
            has_visibility: words.has_visibility,
            has_private: words.has_private,
            has_static: words.has_static,
            has_abstract: true,
            has_final: words.has_final,
        },
        ModifierWord::Final => Words {
            has_visibility: words.has_visibility,
            has_private: words.has_private,
            has_static: words.has_static,
            has_abstract: words.has_abstract,
            has_final: true,
        },
    }
}

fn check_word(worded: Worded, modifier: &Modifier) -> Worded
    ensures { result ≡ spec.met_word (modifier_view modifier.now) worded }
{
    let is_bad = clashes(worded.words, modifier.word);
    Worded {
        first: fault_if(worded.first, is_bad, Kind::BadUse, modifier.spot),
        words: with_word(worded.words, modifier.word),
    }
}

fn go_over(met: Option<Fault>, modifiers: &[Modifier]) -> Worded
    ensures { result ≡ over spec.met_word (elements (sequence modifier_view modifiers.now)) (spec.before_words met) }
{
    let mut worded = Worded {
        first: met,
        words: no_words(),
    };
    for modifier in modifiers {
        worded = check_word(worded, modifier);
    }
    worded
}

/// The first fault, behind those met, of words that don't go together.
pub(crate) fn check_modifiers(met: Option<Fault>, modifiers: &[Modifier]) -> Option<Fault>
    ensures { result ≡ spec.met_modifiers (elements (sequence modifier_view modifiers.now)) met }
{
    go_over(met, modifiers).first
}

/// Whether `abstract` is among words.
pub(crate) fn is_abstract(modifiers: &[Modifier]) -> bool
    ensures { result ≡ spec.is_abstract (elements (sequence modifier_view modifiers.now)) }
{
    go_over(None, modifiers).words.has_abstract
}
