// The laws of the memory model. Each is the contract of a function that does nothing: it says what holds
// of all memories.
#![tactic(auto)]

ghost use Rattle.std.specs.Prelude.{◌≡◌, ◌≢◌, ℕ, List, [], Some};
ghost use Rattle.php_memdef.specs.declared.place.Place.{Place};
ghost use Rattle.php_memdef.specs.declared.answer.Peek.{Peek};
ghost use Rattle.php_memdef.specs.declared.answer.Fallen.TheVariants.{Nothing};
ghost use Rattle.php_memdef.specs.Contents.{Content, text, value, Mem, fresh, scope_of};
ghost use Rattle.php_memdef.specs.Alike.{Alike};
ghost use Rattle.php_memdef.specs.Sound.{IsClosed, IsFormed, IsSound};
ghost use Rattle.php_memdef.specs.Rest.{EqualAtRest, IsFresh};
ghost use Rattle.php_memdef.specs.Reading.{Manner, gives, reading};
ghost use Rattle.php_memdef_laws.specs.Falls.{falls_in};
ghost use Rattle.php_memdef_laws.specs.Needs.{Needs};
ghost use Rattle.php_memdef_laws.specs.Lives.{IsNoRelease, is_object_after};
ghost use Rattle.php_memdef_laws.specs.Readings.{renamed_reading};
ghost use Rattle.php_memdef_laws.specs.Shapes.{shape, shape_after};
ghost use Rattle.php_memdef_laws.specs.Stops.{StopsFor};
ghost use Rattle.php_memdef.specs.Holders.{vslots};
ghost use Rattle.php_memdef.specs.Views.{Shows, found, later_entry, is_aliased, is_link, steps_met, end_met, temps_count, cost_of};
ghost use Rattle.php_memdef.specs.declared.answer.Wrote.TheVariants.{Done};
ghost use Rattle.php_memdef.specs.Temporaries.{with_top};
ghost use Rattle.php_memdef.specs.Writes.{assign};
ghost use Rattle.php_memdef.specs.Conditions.{IsBlock, IsObject, IsPlace, CanAppend};
ghost use Rattle.std.specs.Bool.{Decides};
ghost use Rattle.php_memdef.specs.Deciders.{can, is_object};
ghost use Rattle.php_memdef.specs.Operations.{Operation, Can, run, effect, cost};
ghost use Rattle.php_memdef.specs.Laws.{AnswersAlike, HoldsAlike, KeepsClosed, KeepsFormed, KeepsHeld, KeepsSound, ShowsAlike};
ghost use Rattle.php_memdef.specs.Objects as objects;
ghost use Rattle.php_memdef.specs.Releases as releases;

/// To be alike is an equivalence.
pub fn alike_is_an_equivalence()
    ensures reflexive { (m : Mem) → Alike m m }
    ensures symmetric { (m n : Mem) → Alike m n → Alike n m }
    ensures transitive { (l m n : Mem) → Alike l m → Alike m n → Alike l n }
{}

/// To be equal at rest is an equivalence, and alike memories are equal at rest.
pub fn rest_is_an_equivalence()
    ensures reflexive { (m : Mem) → EqualAtRest m m }
    ensures symmetric { (m n : Mem) → EqualAtRest m n → EqualAtRest n m }
    ensures transitive { (l m n : Mem) →
        EqualAtRest l m → EqualAtRest m n → EqualAtRest l n }
    ensures alike { (m n : Mem) → Alike m n → EqualAtRest m n }
{}

/// Each operation takes alike memories to alike memories, with one answer. What may be made on a
/// memory may be made on all that are alike, at the same cost.
pub fn operations_respect_alike()
    ensures effect { (o : Operation) → AnswersAlike (run o) }
    ensures condition { (o : Operation) → HoldsAlike (Can o) }
    ensures cost { (o : Operation) (m n : Mem) → IsClosed m → Alike m n → cost o n ≡ cost o m }
{}

/// What is shown of alike memories is the same.
pub fn views_respect_alike()
    ensures peek { (look : Peek) (p : Place) → HoldsAlike (λ m. Shows look (found m p)) }
    ensures entry_after { (p : Place) (serial : ℕ) → ShowsAlike (λ m. later_entry m p serial) }
    ensures aliased { (p : Place) → ShowsAlike (λ m. is_aliased m p) }
    ensures is_link { (b n : ℕ) → ShowsAlike (λ m. is_link m b n) }
    ensures steps_met { (p : Place) → ShowsAlike (λ m. steps_met m p) }
    ensures end_met { (look : Peek) (p : Place) → HoldsAlike (λ m. Shows look (end_met m p)) }
    ensures temps { (b : ℕ) → ShowsAlike (λ m. temps_count m b) }
    ensures slots { ShowsAlike vslots }
    ensures cost { (p : Place) → ShowsAlike (λ m. cost_of m p) }
    ensures class_of { (h : ℕ) → ShowsAlike (λ m. objects.class_of m h) }
    ensures prop_at { (h n : ℕ) → ShowsAlike (λ m. objects.property_name m h n) }
    ensures eldest { ShowsAlike objects.eldest }
{}

/// What may be looked at in a memory may be looked at in all that are alike.
pub fn names_respect_alike()
    ensures block { (b : ℕ) → HoldsAlike (λ m. IsBlock m b) }
    ensures object { (h : ℕ) → HoldsAlike (λ m. IsObject m h) }
    ensures place { (p : Place) → HoldsAlike (λ m. IsPlace m p) }
{}

/// Each operation keeps a memory sound where it may be made, and so each part of that.
pub fn operations_keep_sound()
    ensures closed { (o : Operation) → KeepsClosed (effect o) }
    ensures formed { (o : Operation) → KeepsFormed (Can o) (effect o) }
    ensures held { (o : Operation) → KeepsHeld (λ m. Needs o m × Can o m) (effect o) }
    ensures sound { (o : Operation) → KeepsSound (Can o) (effect o) }
{}

/// The test of each operation tells exactly when it may be made.
pub fn conditions_are_decided()
    ensures { (o : Operation) (m : Mem) → Decides (can o m) (Can o m) }
{}

/// What each operation that may be made makes of every block: whether it is there, its room, how many
/// temporaries it has and which of these are links.
pub fn shapes_after()
    ensures { (o : Operation) (m : Mem) → Can o m →
        (c : ℕ) → shape (effect o m) c ≡ shape_after o m c }
{}

/// Which objects are there after each operation that may be made: the ones before and the one that it
/// makes. A release takes objects away alone.
pub fn objects_after()
    ensures made { (o : Operation) (m : Mem) → IsNoRelease o → Can o m →
        (h : ℕ) → is_object (effect o m) h ≡ is_object_after o m h }
    ensures released { (m : Mem) (b h : ℕ) → IsObject (releases.fall m b).0 h → IsObject m h }
{}

/// What has fallen in a block stays as it is by an operation that lets nothing fall there.
pub fn falling_stays()
    ensures { (o : Operation) (m : Mem) (c : ℕ) →
        falls_in o ≢ Some c → (scope_of (effect o m) c).falling ≡ (scope_of m c).falling }
{}

/// Reading gives alike memories the same, and gives what is found.
pub fn readings_agree()
    ensures alike { (manner : Manner) (p : Place) (m n : Mem) → (a : Alike m n) →
        reading manner n p ≡ renamed_reading a.to (reading manner m p) }
    ensures found { (manner : Manner) (p : Place) (m : Mem) (c : Content) →
        found m p ≡ Some c → reading manner m p ≡ gives c }
{}

/// A memory in which nothing was made yet is sound, and alike to the fresh one.
pub fn fresh_is_sound()
    ensures sound { (m : Mem) → IsFresh m → IsSound m }
    ensures alike { (m : Mem) → IsFresh m → Alike fresh m }
{}

/// What a release answers is so: nothing is left, or the object that is to be destroyed is there and
/// the first that falls, or the frame that is to be released is there and waits in no object.
pub fn releases_stop()
    ensures { (m : Mem) (b : ℕ) →
        IsFormed m → StopsFor (releases.fall m b).1 b (releases.fall m b).0 }
{}

/// A release that answers that nothing is left has released all that had fallen in the block.
pub fn releases_end()
    ensures { (m : Mem) (b : ℕ) →
        (releases.fall m b).1 ≡ Nothing → (scope_of (releases.fall m b).0 b).falling ≡ [] }
{}

/// An append, which is an assignment, is never refused where it may be made.
pub fn appends_are_done()
    ensures { (m : Mem) (b : ℕ) (to : Place) (bytes : List ℕ) →
        CanAppend b to m → (assign (with_top m b (value (text bytes))) b to).1 ≡ Done }
{}

/// A release is one turn, and where that doesn't stop it, the release of what the turn leaves.
pub fn releases_go_on()
    ensures { (m : Mem) (b : ℕ) → releases.fall m b
        ≡ releases.fall_after (releases.turn m b) (λ n. releases.fall n b) }
{}
