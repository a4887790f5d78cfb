// Objects and their holders.
ghost use Rattle.std.specs.Prelude.{◌≡◌, ◌<◌, length};
ghost use Rattle.php_memplain_cells.specs.Counts.{count_of_object};
ghost use Rattle.php_memplain_cells.specs.Dropped.{LostIs, DroppedIs};

use crate::load::{Load, Property};
use php_chain::Link;

/// An object, with the number of those that hold its handle.
#[derive(Drop)]
pub struct Object {
    pub class: u32,
    pub properties: Vec<Property>,
    pub finishing: bool,
    pub spent: bool,
    pub frame: Option<usize>,
    pub holders: u128,
    /// By it the object's properties join what is being released.
    pub link: Link<Load>,
}

/// What comes of an object that loses a holder.
pub enum Lost {
    Held,
    Due,
    Framed(usize),
    Gone,
}

impl Object {
    /// Takes a holder away, unless it is the last one: then the destructor comes first, once, and then
    /// the frame that waits in the object.
    fn lose(&mut self) -> Lost
        requires { 0 < self.old.holders }
        ensures { LostIs result self.old self.new }
    {
        if self.holders > 1 {
            self.holders -= 1;
            return Lost::Held;
        }
        if self.finishing && !self.spent {
            self.spent = true;
            return Lost::Due;
        }
        match self.frame.take() {
            Some(frame) => Lost::Framed(frame),
            None => Lost::Gone,
        }
    }
}

/// What comes of a handle that falls.
pub enum Dropped {
    /// Something else holds the object.
    Held,
    /// Its destructor is to be run.
    Due,
    /// The frame that waited in it is to be released.
    Framed(usize),
    /// It is gone, and its properties are to be released.
    Gone(Vec<Property>, Link<Load>),
}

/// Takes a holder of an object away. Where it was the last one and nothing is due before, the object
/// goes.
pub fn drop_handle(objects: &mut Vec<Option<Box<Object>>>, number: u64) -> Dropped
    requires { 0 < count_of_object objects.old.items number }
    ensures dropped { DroppedIs result objects.old.items objects.new.items number }
    ensures len { length objects.new.items ≡ length objects.old.items }
{
    let place = (number - 1) as usize;
    let Some(mut object) = objects[place].take() else {
        unreachable!();
    };
    match object.lose() {
        Lost::Held => {
            objects[place] = Some(object);
            Dropped::Held
        }
        Lost::Due => {
            objects[place] = Some(object);
            Dropped::Due
        }
        Lost::Framed(frame) => {
            objects[place] = Some(object);
            Dropped::Framed(frame)
        }
        Lost::Gone => {
            let object = Box::into_inner(object);
            Dropped::Gone(object.properties, object.link)
        }
    }
}
