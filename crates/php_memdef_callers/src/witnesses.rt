// The calls that the small memory answers by want of memory alone: their conditions can be met too.
ghost use Rattle.php_memdef_callers.specs.Witnesses.{ElementCanBeUnset, FrameCanBeAttached, HandleCanBePushed, LastCanBeUnset, LinkCanBeBound, LinkCanBeMade, LinkCanBeSettled, ObjectCanBeCloned, ObjectCanBeMade, ObjectCanBeMarked, TextCanBeAppended};

/// On a memory with an array of one element, a link to it can be made, bound and settled, and it can
/// be removed.
pub fn other_calls_can_be_made()
    ensures link { LinkCanBeMade }
    ensures bind { LinkCanBeBound }
    ensures settle { LinkCanBeSettled }
    ensures unset { ElementCanBeUnset }
    ensures unset_last { LastCanBeUnset }
    ensures append { TextCanBeAppended }
{}

/// On a memory with a block an object can be made, then marked, given a frame, pushed and cloned.
pub fn object_calls_can_be_made()
    ensures object { ObjectCanBeMade }
    ensures marks { ObjectCanBeMarked }
    ensures attach { FrameCanBeAttached }
    ensures push_object { HandleCanBePushed }
    ensures clone_object { ObjectCanBeCloned }
{}
