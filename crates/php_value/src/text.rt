// Shared bytes that do not change.
ghost use Rattle.std.specs.Prelude.{◌≡◌, ◌++◌, [], IfOk, OnErr};

use php_base::NoMemory;
use std::alloc::{AllocError, Global};
use std::hash::{Hash, Hasher};
use std::marker::Model;
use std::rc::Rc;

/// Bytes that do not change, with as many owners as there are.
#[derive(Debug, Drop)]
pub struct Text {
    // `None` is the empty text, which takes no memory.
    bytes: Option<Rc<Vec<u8>>>,
}

impl Model for Text {
    ghost use Rattle.std.specs.Prelude.{List, ℕ, []};
    ghost use Rattle.std.specs.Option.{option_map_or};

    ghost Value = { List ℕ };

    ghost view = { λ t. option_map_or (λ r. r.value.items) t.bytes [] };
}

impl Text {
    /// The text without bytes.
    pub fn empty() -> Text
        ensures { result ≡ [] }
    {
        Text { bytes: None }
    }

    /// A text of its own with these bytes.
    pub fn from_bytes(alloc: Global, bytes: &[u8]) -> Result<Text, NoMemory>
        ensures { IfOk result (λ t. t ≡ bytes.now) }
    {
        Text::from_vec(alloc, bytes.to_vec(alloc)?)
    }

    /// The text with the bytes of `bytes`, which are moved and not copied.
    pub fn from_vec(alloc: Global, bytes: Vec<u8>) -> Result<Text, NoMemory>
        ensures { IfOk result (λ t. t ≡ bytes.items) }
    {
        let bytes = Rc::new(alloc, bytes)?;
        Ok(Text { bytes: Some(bytes) })
    }

    /// Its bytes.
    pub fn bytes(&self) -> &[u8]
        ensures { result.now ≡ self.now }
    {
        match &self.bytes {
            None => &[],
            Some(bytes) => bytes.as_slice(),
        }
    }

    /// A further owner of the same bytes, which are not copied.
    pub fn share(&self) -> Result<Text, NoMemory>
        ensures { IfOk result (λ t. t ≡ self.now) }
    {
        match &self.bytes {
            None => Ok(Text { bytes: None }),
            Some(bytes) => Ok(Text {
                bytes: Some(bytes.clone()?),
            }),
        }
    }

    /// The bytes and then `more`, as `extend` puts them.
    pub fn append(self, alloc: Global, more: &[u8]) -> Result<Text, NoMemory>
        ensures { IfOk result (λ t. t ≡ self ++ more.now) }
    {
        let mut text = self;
        text.extend(alloc, more)?;
        Ok(text)
    }

    /// Puts `more` behind the bytes. Where the text has no other owner it grows in place, with room to spare, so that
    /// many appends copy each byte a few times at most. Otherwise its bytes are copied. Where memory is short the text
    /// stays as it was.
    pub fn extend(&mut self, alloc: Global, more: &[u8]) -> Result<(), NoMemory>
        ensures longer { IfOk result (λ _. self.new ≡ self.old ++ more.now) }
        ensures kept { OnErr result (self.new ≡ self.old) }
    {
        if let Some(shared) = &mut self.bytes {
            match Rc::get_mut(shared) {
                Some(own) => own.extend_from_slice(more)?,
                None => {
                    let copy = Rc::new(alloc, extended(alloc, shared.as_slice(), more)?)?;
                    *shared = copy;
                }
            }
            return Ok(());
        }
        *self = Text::from_bytes(alloc, more)?;
        Ok(())
    }
}

impl PartialEq for Text {
    ghost use Rattle.std.specs.Prelude.{nat_eq};
    ghost use Rattle.std.specs.Cmp.Lexicographic.{pointwise};
    ghost use Rattle.std.specs.Cmp.Rules.{comparing};
    ghost use Rattle.std.proofs.Common.{rules};

    ghost eq = { pointwise nat_eq };

    ghost laws = { Prim.search (comparing, rules) };

    fn eq(&self, other: &Text) -> bool {
        self.bytes() == other.bytes()
    }
}

impl Eq for Text {
    ghost use Rattle.std.specs.Cmp.Lexicographic.{nat_list_eq_equiv};

    ghost laws = { nat_list_eq_equiv };
}

impl Hash for Text {
    ghost use Rattle.std.specs.Hash as fed;
    ghost use Rattle.std.specs.Cmp.Rules.{hashing};
    ghost use Rattle.std.proofs.Common.{rules};

    ghost hash_input = { fed.slice fed.u8 };

    ghost respects_eq = { Prim.search (hashing, rules) };

    fn hash<H: Hasher>(&self, state: &mut H) {
        self.bytes().hash(state);
    }
}

// A copy of `bytes` with `more` behind it and room for as many bytes again.
fn extended(alloc: Global, bytes: &[u8], more: &[u8]) -> Result<Vec<u8>, AllocError>
    ensures { IfOk result (λ v. v.items ≡ bytes.now ++ more.now) }
{
    let len = bytes.len() + more.len();
    let mut copy = Vec::with_capacity(alloc, len.saturating_mul(2))?;
    copy.extend_from_slice(bytes)?;
    copy.extend_from_slice(more)?;
    Ok(copy)
}
