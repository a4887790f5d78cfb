// The different names and variables of a script that have been met.

ghost use Rattle.std.specs.Prelude.{◌≡◌, ◌+◌, nat_lt, length, OnOk};
ghost use Rattle.php_ast.specs.declared.spot.Name as rust_name;
ghost use Rattle.php_ast.specs.expression.View.{member_view, spot_view, word_view};
ghost use Rattle.php_ast.specs.statement.View.{name_view};
ghost use Rattle.php_legality.specs.Rows.{most_names};
ghost use Rattle.php_many_names.specs.Tally as spec;
ghost use Rattle.php_many_names.specs.Met.{met_dollar, met_member, met_name};

use indexmap::IndexSet;
use php_ast::{Member, Name, Spot, Word};
use php_base::NoMemory;
use php_legality::{Fault, Kind};
use php_value::Text;
use std::alloc::Global;
use std::marker::Model;

/// The most different names and variables that a script may have.
const MOST_NAMES: usize = 65_535;

/// What has been met of the names of a script.
#[derive(Drop)]
pub(crate) struct Names {
    names: IndexSet<Text>,
    variables: IndexSet<Text>,
    // The first token past the limit. Behind it nothing is added any more.
    first: Option<Fault>,
}

impl Model for Names {
    ghost use Rattle.php_many_names.specs.Tally.{Tally};

    ghost Value = { Tally };

    ghost view = { λ n. record { names = n.names.keys; variables = n.variables.keys; first = n.first } };
}

#[tactic(auto, unfolding(php_legality::specs::Rows::most_names))]
fn is_past_limit(names: usize, variables: usize) -> bool
    ensures { result ≡ nat_lt most_names (names + variables) }
{
    if names > MOST_NAMES {
        true
    } else {
        variables > MOST_NAMES - names
    }
}

#[tactic(auto, unfolding(crate::specs::Tally::past_limit))]
fn past_limit(names: &IndexSet<Text>, variables: &IndexSet<Text>, spot: Spot) -> Option<Fault>
    ensures { result ≡ spec.past_limit (length names.now.keys + length variables.now.keys) (spot_view spot) }
{
    if is_past_limit(names.len(), variables.len()) {
        Some(Fault {
            kind: Kind::TooManyNames,
            spot,
        })
    } else {
        None
    }
}

fn add_text(texts: &mut IndexSet<Text>, text: &Text) -> Result<(), NoMemory>
    ensures { OnOk result (texts.new.keys ≡ spec.with_text texts.old.keys text.now) }
{
    texts.insert_full(text.share()?)?;
    Ok(())
}

impl Names {
    /// Nothing has been met.
    pub(crate) fn new(alloc: Global) -> Names
        ensures { result ≡ spec.nothing }
    {
        Names {
            names: IndexSet::new(alloc),
            variables: IndexSet::new(alloc),
            first: None,
        }
    }

    /// The first token past the limit.
    pub(crate) fn first(&self) -> Option<Fault>
        ensures { result ≡ self.now.first }
    {
        self.first
    }

    /// One more name.
    #[tactic(auto, unfolding(crate::specs::Tally::with_name))]
    pub(crate) fn add_name(&mut self, spot: Spot, text: &Text) -> Result<(), NoMemory>
        ensures { OnOk result (self.new ≡ spec.with_name self.old (spot_view spot) text.now) }
    {
        match self.first {
            Some(_) => Ok(()),
            None => {
                add_text(&mut self.names, text)?;
                self.first = past_limit(&self.names, &self.variables, spot);
                Ok(())
            }
        }
    }

    /// One more variable.
    #[tactic(auto, unfolding(crate::specs::Tally::with_variable))]
    pub(crate) fn add_variable(&mut self, spot: Spot, text: &Text) -> Result<(), NoMemory>
        ensures { OnOk result (self.new ≡ spec.with_variable self.old (spot_view spot) text.now) }
    {
        match self.first {
            Some(_) => Ok(()),
            None => {
                add_text(&mut self.variables, text)?;
                self.first = past_limit(&self.names, &self.variables, spot);
                Ok(())
            }
        }
    }
}

pub(crate) fn meet_name(names: &mut Names, name: &Name) -> Result<(), NoMemory>
    ensures { OnOk result (names.new ≡ met_name names.old (name_view name.now)) }
{
    names.add_name(name.spot, &name.text)
}

pub(crate) fn meet_dollar(names: &mut Names, name: &Name) -> Result<(), NoMemory>
    ensures { OnOk result (names.new ≡ met_dollar names.old (name_view name.now)) }
{
    names.add_variable(name.spot, &name.text)
}

/// A word, which is no name where it is spelled as a keyword.
pub(crate) fn meet_word(names: &mut Names, word: &Word) -> Result<(), NoMemory>
    ensures { OnOk result (names.new ≡ met_member names.old (word_view word.now)) }
{
    match word.keyword {
        None => names.add_name(word.spot, &word.text),
        Some(_) => Ok(()),
    }
}

pub(crate) fn meet_member(names: &mut Names, member: &Member) -> Result<(), NoMemory>
    ensures { OnOk result (names.new ≡ met_member names.old (member_view member.now)) }
{
    match member {
        Member::Word(word) => meet_word(names, word),
        Member::Variable(name) => names.add_variable(name.spot, &name.text),
    }
}
