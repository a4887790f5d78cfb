// `===`, over any memory.
ghost use Rattle.std.specs.Prelude.{◌≡◌, ℕ, false, Some};
ghost use Rattle.php_entries.specs.Listing.{Listing, count_of};
ghost use Rattle.php_memdef.specs.Contents.{array};
ghost use Rattle.php_memdef.specs.Meanings.{SomeMeant, EachMeant};
ghost use Rattle.php_memdef.specs.Sound.{IsSound};
ghost use Rattle.php_memdef.specs.Views.{found};
ghost use Rattle.php_compare.specs.Identity.{same_nested, same_by_rules, same_entries};
ghost use Rattle.php_compare.specs.Places.{content_there, same_at};
ghost use Rattle.php_lib.specs.Answers.{ComesTo};
ghost use Rattle.php_lib.specs.Comparing.{CanCompare, has_entries_to_match};
ghost use Rattle.php_glance.specs.Glances.{TellsLikeness};

use crate::ordering::LEVELS;
use crate::places::{step_back, step_to};
use php_glance::{Likeness, identity_at_a_glance, is_same_key};
use php_memdef::{Memory, Place};
use php_value::{ErrorKind, Stopped};
use std::alloc::Global;

/// Whether what stands at two places is identical: `===`. What is missing counts as null.
///
/// Arrays of one count are compared entry by entry, which takes memory for the places of the entries. Of anything
/// else no place is made. What stands in 257 arrays throws `NESTING_TOO_DEEP`.
pub fn same<M: Memory>(alloc: Global, memory: &M, a: &Place, b: &Place) -> Result<bool, Stopped>
    requires { SomeMeant (M.means memory.now) (CanCompare a.now b.now) }
    ensures value { EachMeant (M.means memory.now)
        (λ m. IsSound m → ComesTo result (same_at m a.now b.now)) }
    ensures takes_no_memory { EachMeant (M.means memory.now)
        (λ m. has_entries_to_match (content_there m a.now) (content_there m b.now) ≡ false → result ≡ same_at m a.now b.now) }
{
    let left = memory.peek(a);
    let right = memory.peek(b);
    same_by_glance(
        alloc,
        memory,
        a,
        b,
        identity_at_a_glance(&left, &right),
        LEVELS - 1,
    )
}

// So many levels of nesting are left for the parts of the two values.
#[cycle(identity)]
fn same_by_glance<M: Memory>(
    alloc: Global,
    memory: &M,
    a: &Place,
    b: &Place,
    likeness: Likeness,
    levels: usize,
) -> Result<bool, Stopped>
    requires can { SomeMeant (M.means memory.now) (CanCompare a.now b.now) }
    requires tells { EachMeant (M.means memory.now)
        (λ m. TellsLikeness (same_nested m levels) m (content_there m a.now) (content_there m b.now) likeness) }
    ensures value { EachMeant (M.means memory.now)
        (λ m. IsSound m → ComesTo result (same_by_rules (same_nested m levels) m (content_there m a.now) (content_there m b.now))) }
    ensures takes_no_memory { EachMeant (M.means memory.now)
        (λ m. has_entries_to_match (content_there m a.now) (content_there m b.now) ≡ false
        → result ≡ same_by_rules (same_nested m levels) m (content_there m a.now) (content_there m b.now)) }
{
    match likeness {
        Likeness::Known(is_same) => Ok(is_same),
        Likeness::Arrays => same_elements(alloc, memory, a, b, levels),
    }
}

// Two values that stand in others, with so many levels left for both.
#[cycle(identity)]
fn same_places<M: Memory>(
    alloc: Global,
    memory: &M,
    a: &Place,
    b: &Place,
    levels: usize,
) -> Result<bool, Stopped>
    requires { SomeMeant (M.means memory.now) (CanCompare a.now b.now) }
    ensures { EachMeant (M.means memory.now)
        (λ m. IsSound m → ComesTo result (same_nested m levels (content_there m a.now) (content_there m b.now))) }
{
    if levels == 0 {
        return Err(Stopped::Throws(ErrorKind::NESTING_TOO_DEEP));
    }
    let left = memory.peek(a);
    let right = memory.peek(b);
    same_by_glance(
        alloc,
        memory,
        a,
        b,
        identity_at_a_glance(&left, &right),
        levels - 1,
    )
}

// Two arrays of as many entries, entry by entry in their order.
#[cycle(identity)]
fn same_elements<M: Memory>(
    alloc: Global,
    memory: &M,
    a: &Place,
    b: &Place,
    levels: usize,
) -> Result<bool, Stopped>
    requires { SomeMeant (M.means memory.now) (CanCompare a.now b.now) }
    ensures { EachMeant (M.means memory.now)
        (λ m. IsSound m → (s t : Listing ℕ) → found m a.now ≡ Some (array s) → found m b.now ≡ Some (array t)
        → count_of s ≡ count_of t → ComesTo result (same_entries (same_nested m levels) m s.entries t.entries)) }
{
    let mut left = a.copy()?;
    let mut right = b.copy()?;
    let mut left_serial = 0;
    let mut right_serial = 0;
    let mut left_near = 0;
    let mut right_near = 0;
    while let Some((next, key)) = memory.entry_after_near(a, left_serial, &mut left_near) {
        left_serial = next;
        let Some((right_next, right_key)) = memory.entry_after_near(
            b,
            right_serial,
            &mut right_near,
        ) else {
            return Ok(false);
        };
        right_serial = right_next;
        if !is_same_key(key, right_key) {
            return Ok(false);
        }
        step_to(&mut left, key)?;
        step_to(&mut right, key)?;
        let is_same = same_places(alloc, memory, &left, &right, levels)?;
        if !is_same {
            return Ok(false);
        }
        step_back(&mut left);
        step_back(&mut right);
    }
    Ok(true)
}
