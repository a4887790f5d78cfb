// Places: where a value is read and written.
ghost use Rattle.std.specs.Prelude.{◌≡◌, IfOk};

use crate::names::{Block, Name, Obj, StaticId};
use crate::path::Path;
use php_base::NoMemory;
use php_value::{Key, Text};

/// From where a property is seen.
#[derive(Clone, Copy, Debug, Eq, PartialEq)]
pub enum Seen {
    Public,
    Protected,
    /// Private to the class of this number.
    Private(u32),
}

/// A property's name. Two properties of one object may share their text where they are private to
/// different classes.
#[derive(Debug, Drop, Eq, PartialEq)]
pub struct PropName {
    pub name: Text,
    pub seen: Seen,
}

/// Where a place begins.
#[derive(Debug, Drop, Eq, PartialEq)]
pub enum Base {
    Var(Block, Name),
    Property(Obj, PropName),
    Static(StaticId),
    /// A temporary of the block, counted from the top, which is 0.
    Temp(Block, usize),
}

/// One step of a path: to the element of a key, or to a new element behind all others.
#[derive(Debug, Drop, Eq, PartialEq)]
pub enum Step {
    At(Key),
    Push,
}

/// A base and the steps that lead on from it.
#[derive(Drop)]
pub struct Place {
    pub base: Base,
    pub path: Path,
}

impl PropName {
    // The same name. Its text is shared.
    fn copy(&self) -> Result<PropName, NoMemory>
        ensures { IfOk result (λ name. name ≡ self.now) }
    {
        Ok(PropName {
            name: self.name.share()?,
            seen: self.seen,
        })
    }
}

impl Base {
    fn copy(&self) -> Result<Base, NoMemory>
        ensures { IfOk result (λ base. base ≡ self.now) }
    {
        match self {
            Base::Var(block, name) => Ok(Base::Var(*block, *name)),
            Base::Property(obj, name) => Ok(Base::Property(*obj, name.copy()?)),
            Base::Static(id) => Ok(Base::Static(*id)),
            Base::Temp(block, depth) => Ok(Base::Temp(*block, *depth)),
        }
    }
}

fn key_copy(key: &Key) -> Result<Key, NoMemory>
    ensures { IfOk result (λ copy. copy ≡ key.now) }
{
    match key {
        Key::Int(number) => Ok(Key::Int(*number)),
        Key::Str(text) => Ok(Key::Str(text.share()?)),
    }
}

impl Step {
    /// The same step. Its text is shared.
    pub(crate) fn copy(&self) -> Result<Step, NoMemory>
        ensures { IfOk result (λ step. step ≡ self.now) }
    {
        match self {
            Step::At(key) => Ok(Step::At(key_copy(key)?)),
            Step::Push => Ok(Step::Push),
        }
    }
}

impl Place {
    /// An equal place. The bytes of its texts are shared.
    pub fn copy(&self) -> Result<Place, NoMemory>
        ensures { IfOk result (λ place. place ≡ self.now) }
    {
        let base = self.base.copy()?;
        let path = self.path.copy()?;
        Ok(Place { base, path })
    }
}
