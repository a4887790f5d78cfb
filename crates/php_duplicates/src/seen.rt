// The texts of names that have been seen.

ghost use Rattle.std.specs.Prelude.{◌≡◌, [], IfOk, OnOk};
ghost use Rattle.std.specs.Str.{str_to_ascii_lowercase};
ghost use Rattle.php_ast.specs.expression.View.{spot_view};
ghost use Rattle.php_ast.specs.statement.View.{name_view};
ghost use Rattle.php_ast.specs.expression.View.{word_view};
ghost use Rattle.php_legality.specs.Declarations.{member_name};
ghost use Rattle.php_legality.specs.First.{first_from};
ghost use Rattle.php_legality.specs.Lists.{where_true};
ghost use Rattle.php_duplicates.specs.Saw as spec;

use indexmap::IndexSet;
use php_ast::{Name, Spot, Word};
use php_base::NoMemory;
use php_legality::{Fault, Kind, sooner};
use php_value::Text;
use std::alloc::Global;
use std::marker::Model;

/// The texts of names that have been seen, and the first duplicate.
#[derive(Drop)]
pub(crate) struct Seen {
    texts: IndexSet<Text>,
    first: Option<Fault>,
}

impl Model for Seen {
    ghost use Rattle.php_duplicates.specs.Saw.{Saw};

    ghost Value = { Saw };

    ghost view = { λ s. record { texts = s.texts.keys; first = s.first } };
}

/// The first duplicate behind those met, where this one holds or doesn't.
pub(crate) fn met_if(met: Option<Fault>, holds: bool, spot: Spot) -> Option<Fault>
    ensures { result ≡ first_from met (where_true holds (spec.duplicate_at (spot_view spot))) }
{
    if holds {
        sooner(
            met,
            Fault {
                kind: Kind::Duplicate,
                spot,
            },
        )
    } else {
        met
    }
}

/// The text in lower case.
fn lower(alloc: Global, text: &Text) -> Result<Text, NoMemory>
    ensures { IfOk result (λ t. t ≡ str_to_ascii_lowercase text.now) }
{
    Text::from_vec(alloc, text.bytes().to_ascii_lowercase(alloc)?)
}

impl Seen {
    /// Nothing has been seen, behind the first duplicate that was met before.
    pub(crate) fn new(alloc: Global, met: Option<Fault>) -> Seen
        ensures { result ≡ record { texts = []; first = met } }
    {
        Seen {
            texts: IndexSet::new(alloc),
            first: met,
        }
    }

    /// The first duplicate.
    pub(crate) fn first(&self) -> Option<Fault>
        ensures { result ≡ self.now.first }
    {
        self.first
    }

    #[tactic(auto, unfolding(crate::specs::Saw::saw))]
    fn see(&mut self, spot: Spot, text: Text) -> Result<(), NoMemory>
        ensures { OnOk result (self.new ≡ spec.saw (spot_view spot) text self.old) }
    {
        let (_, is_new) = self.texts.insert_full(text)?;
        self.first = met_if(self.first, !is_new, spot);
        Ok(())
    }

    /// One more name, in any letter case.
    pub(crate) fn see_alike(&mut self, alloc: Global, name: &Name) -> Result<(), NoMemory>
        ensures { OnOk result (self.new ≡ spec.saw_alike (name_view name.now) self.old) }
    {
        self.see(name.spot, lower(alloc, &name.text)?)
    }

    /// One more name, as it is written.
    pub(crate) fn see_name(&mut self, name: &Name) -> Result<(), NoMemory>
        ensures { OnOk result (self.new ≡ spec.saw_same (name_view name.now) self.old) }
    {
        self.see(name.spot, name.text.share()?)
    }

    /// One more word, in any letter case.
    pub(crate) fn see_word_alike(&mut self, alloc: Global, word: &Word) -> Result<(), NoMemory>
        ensures { OnOk result (self.new ≡ spec.saw_alike (member_name (word_view word.now)) self.old) }
    {
        let text = lower(alloc, &word.text)?;
        self.see(word.spot, text)?;
        Ok(())
    }

    /// One more word, as it is written.
    pub(crate) fn see_word(&mut self, word: &Word) -> Result<(), NoMemory>
        ensures { OnOk result (self.new ≡ spec.saw_same (member_name (word_view word.now)) self.old) }
    {
        let text = word.text.share()?;
        self.see(word.spot, text)?;
        Ok(())
    }
}
