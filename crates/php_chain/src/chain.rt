// A list whose links are made before they are wanted, so that it grows without memory.
ghost use Rattle.std.specs.Prelude.{◌≡◌, [], ◌∷◌, IfSome, IfNone};
ghost use Rattle.php_chain.specs.Items.{items_of};

use php_base::NoMemory;
use std::alloc::Global;
use std::marker::Model;
use std::mem;

enum Linked<T> {
    End,
    More(T, Box<Linked<T>>),
}

impl<T: Drop> Linked<T> {
    // The first item and what is behind it.
    fn split(self) -> Option<(T, Box<Linked<T>>)>
        ensures some { IfSome result (λ r. items_of self ≡ r.0 ∷ items_of r.1.value) }
        ensures none { IfNone result (items_of self ≡ []) }
    {
        match self {
            Linked::End => None,
            Linked::More(item, rest) => Some((item, rest)),
        }
    }
}

impl<T: Drop> Drop for Linked<T> {
    fn drop(mut self) {
        loop {
            match self {
                Linked::End => return,
                Linked::More(_, rest) => self = Box::into_inner(rest),
            }
        }
    }
}

/// Room for one more item of a chain.
#[derive(Drop)]
pub struct Link<T> {
    room: Box<Linked<T>>,
}

/// A list that takes a link, and no memory, for each item.
#[derive(Drop)]
pub struct Chain<T> {
    first: Linked<T>,
}

impl<T> Model for Chain<T> {
    ghost use Rattle.std.specs.Prelude.{List};
    ghost use Rattle.php_chain.specs.Items.{items_of};

    ghost Value = { List T };

    ghost view = { λ c. items_of c.first };
}

impl<T: Drop> Link<T> {
    /// A link for one item.
    pub fn new(alloc: Global) -> Result<Link<T>, NoMemory> {
        Ok(Link {
            room: Box::new(alloc, Linked::End)?,
        })
    }
}

impl<T: Drop> Chain<T> {
    /// The chain without items.
    pub fn new() -> Chain<T>
        ensures { result ≡ [] }
    {
        Chain { first: Linked::End }
    }

    /// Puts an item in front of all others.
    pub fn push(&mut self, item: T, link: Link<T>)
        ensures { self.new ≡ item ∷ self.old }
    {
        let Link { mut room } = link;
        *room = mem::replace(&mut self.first, Linked::End);
        self.first = Linked::More(item, room);
    }

    /// Takes the first item out, with its link.
    pub fn pop(&mut self) -> Option<(T, Link<T>)>
        ensures some { IfSome result (λ r. self.old ≡ r.0 ∷ self.new) }
        ensures none { IfNone result ((self.old ≡ []) × (self.new ≡ [])) }
    {
        let first = mem::replace(&mut self.first, Linked::End);
        let Some((item, mut room)) = first.split() else {
            return None;
        };
        self.first = mem::replace(&mut *room, Linked::End);
        Some((item, Link { room }))
    }
}
