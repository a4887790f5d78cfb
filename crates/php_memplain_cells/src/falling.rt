// What falls next.
ghost use Rattle.std.specs.Prelude.{◌≡◌, ◌++◌, [], None};
ghost use Rattle.php_memdef.specs.Contents.{value};
ghost use Rattle.php_memdef.specs.Temporaries.{fallen};
ghost use Rattle.php_memplain_cells.specs.Seen.{content_seen, scope_seen, block_falling, loads_items};
ghost use Rattle.php_memplain_cells.specs.Falls.{FirstIs};

use crate::block::Block;
use crate::content::{Content, Item};
use crate::load::{Elements, Load, next_property};
use php_chain::Chain;

/// What falls next, and has left the list.
pub enum First {
    Nothing,
    Link(usize),
    Handle(u64),
    /// Something that gave way to what it holds, or was dropped.
    Passed,
}

/// The next of what is being released.
fn first_of_loads(loads: &mut Chain<Load>) -> First
    ensures { FirstIs result (loads_items loads.old) (loads_items loads.new) }
{
    while let Some((load, link)) = loads.pop() {
        match load {
            Load::Whole(entries) => {
                loads.push(Load::Elements(Elements::of(entries)), link);
                return First::Passed;
            }
            Load::Elements(mut elements) => {
                if let Some(store) = elements.next() {
                    loads.push(Load::Elements(elements), link);
                    return First::Link(store);
                }
            }
            Load::Properties(properties, mut place) => {
                if let Some(store) = next_property(&properties, &mut place) {
                    loads.push(Load::Properties(properties, place), link);
                    return First::Link(store);
                }
            }
        }
    }
    First::Nothing
}

impl Block {
    /// Takes what falls next out of the list.
    pub fn next_fallen(&mut self) -> First
        ensures falling { scope_seen self.new ≡ record (scope_seen self.old) { falling = block_falling self.new } }
        ensures first { FirstIs result (block_falling self.old) (block_falling self.new) }
        ensures handle { self.new.handle ≡ None }
    {
        if let Some(number) = self.handle.take() {
            return First::Handle(number);
        }
        match first_of_loads(&mut self.loads) {
            First::Nothing => self.next_waiting(),
            first => first,
        }
    }

    // The first that waits, where nothing is being released.
    fn next_waiting(&mut self) -> First
        requires handle { self.old.handle ≡ None }
        requires loads { loads_items self.old.loads ≡ [] }
        ensures falling { scope_seen self.new ≡ record (scope_seen self.old) { falling = block_falling self.new } }
        ensures first { FirstIs result (block_falling self.old) (block_falling self.new) }
        ensures handle { self.new.handle ≡ None }
    {
        match self.waiting.pop_front() {
            None => First::Nothing,
            Some(Item::Link(store)) => First::Link(store),
            Some(Item::Value(Content::Object(number))) => First::Handle(number),
            Some(Item::Value(Content::Array(entries, link))) => {
                self.loads.push(Load::Elements(Elements::of(entries)), link);
                First::Passed
            }
            Some(Item::Value(_)) => First::Passed,
        }
    }

    /// Lets a content fall in front of all else.
    pub fn fall_first(&mut self, content: Content)
        requires { self.old.handle ≡ None }
        ensures { scope_seen self.new ≡ record (scope_seen self.old) { falling = fallen (value (content_seen content)) ++ block_falling self.old } }
    {
        match content {
            Content::Array(entries, link) => self.loads.push(Load::Whole(entries), link),
            Content::Object(number) => self.handle = Some(number),
            Content::Null | Content::Bool(_) | Content::Int(_) | Content::Str(_) => {}
        }
    }
}
