// What holds of the runs of any machine.
ghost use Rattle.std.specs.Prelude.{◌≡◌, ◌≢◌, ℕ, ◌<◌, List};
ghost use Rattle.php_machine.specs.Moves.{Rules, Outcome, Ended, Stuck};
ghost use Rattle.php_machine.specs.Control.{Control, Kept};
ghost use Rattle.php_machine.specs.Machine.{run};
ghost use Rattle.php_machine.specs.Same.{Agree, IsOver, SameRuns};
ghost use Rattle.php_machine.specs.Ends.{Falls, FallsByFrames, HasFrames, Keeps, total_weight};
ghost use Rattle.php_machine.specs.Outputs.{OnlyWrites};
ghost use Rattle.php_machine.specs.Allowance.{Allows, Shortened};

/// Rules for the data of a run, and one kind of control.
pub trait Machine {
    ghost Action: { Type 0 };

    ghost Data: { Type 0 };

    ghost Why: { Type 0 };

    ghost Ending: { Type 0 };

    ghost Place: { Type 0 };

    ghost rules: { Rules Action Data Why Ending };

    ghost control: { Control Action Why Place };
}

/// Rules, and two kinds of control that agree.
pub trait TwoControls {
    ghost Action: { Type 0 };

    ghost Data: { Type 0 };

    ghost Why: { Type 0 };

    ghost Ending: { Type 0 };

    ghost First: { Type 0 };

    ghost Second: { Type 0 };

    ghost rules: { Rules Action Data Why Ending };

    ghost first: { Control Action Why First };

    ghost second: { Control Action Why Second };

    ghost related: { First → Second → Type 0 };

    ghost agree: { Agree first second related };
}

/// A machine whose steps lower a weight, as long as an invariant holds, which they keep.
pub trait Falling {
    ghost Action: { Type 0 };

    ghost Data: { Type 0 };

    ghost Why: { Type 0 };

    ghost Ending: { Type 0 };

    ghost Place: { Type 0 };

    ghost rules: { Rules Action Data Why Ending };

    ghost control: { Control Action Why Place };

    ghost invariant: { Data → List Place → List (Kept Place) → Type 0 };

    ghost weight: { Data → List Place → List (Kept Place) → ℕ };

    ghost falls: { Falls rules control invariant weight };
}

/// A machine whose steps lower a weight that is summed up over the frames. A frame weighs by the number of
/// those below it.
pub trait FallingByFrames {
    ghost Action: { Type 0 };

    ghost Data: { Type 0 };

    ghost Why: { Type 0 };

    ghost Ending: { Type 0 };

    ghost Place: { Type 0 };

    ghost rules: { Rules Action Data Why Ending };

    ghost control: { Control Action Why Place };

    ghost depth: { Data → ℕ };

    ghost weigh_data: { Data → ℕ };

    ghost weigh: { ℕ → Place → ℕ };

    ghost weigh_kept: { Place → ℕ };

    ghost falls: { FallsByFrames rules control depth weigh_data weigh weigh_kept };
}

/// A machine of which no step is stuck as long as an invariant holds, which they keep.
pub trait Keeping {
    ghost Action: { Type 0 };

    ghost Data: { Type 0 };

    ghost Why: { Type 0 };

    ghost Ending: { Type 0 };

    ghost Place: { Type 0 };

    ghost rules: { Rules Action Data Why Ending };

    ghost control: { Control Action Why Place };

    ghost invariant: { Data → List Place → List (Kept Place) → Type 0 };

    ghost keeps: { Keeps rules control invariant };
}

/// A machine with an output, and data of which some may go on for longer than other.
pub trait Allowing {
    ghost Action: { Type 0 };

    ghost Data: { Type 0 };

    ghost Why: { Type 0 };

    ghost Ending: { Type 0 };

    ghost Place: { Type 0 };

    ghost rules: { Rules Action Data Why Ending };

    ghost control: { Control Action Why Place };

    ghost out: { Data → List ℕ };

    ghost cut: { Ending };

    ghost more: { Data → Data → Type 0 };

    ghost only_writes: { OnlyWrites rules out };

    ghost allows: { Allows rules out cut more };
}

/// Controls that agree have the same runs.
pub fn same_runs<L: TwoControls>()
    ensures { SameRuns L.rules L.first L.second }
{}

/// A run that is over has one outcome, however many steps were allowed.
pub fn one_result<L: Machine>()
    ensures { (n m : ℕ) (ns : List ℕ) (d : L.Data) (cs : List L.Place) (kept : List (Kept L.Place)) (o u : Outcome L.Data L.Ending)
        → IsOver o → IsOver u → run L.rules L.control n ns d cs kept ≡ o → run L.rules L.control m ns d cs kept ≡ u → o ≡ u }
{}

/// A run is over after more steps than its beginning weighs.
pub fn runs_end<L: Falling>()
    ensures { (n : ℕ) (ns : List ℕ) (d : L.Data) (cs : List L.Place) (kept : List (Kept L.Place))
        → L.invariant d cs kept → L.weight d cs kept < n → IsOver (run L.rules L.control n ns d cs kept) }
{}

/// The same of a weight by frames, from data that has as many frames as there are controls.
pub fn runs_end_by_frames<L: FallingByFrames>()
    ensures { (n : ℕ) (ns : List ℕ) (d : L.Data) (cs : List L.Place) (kept : List (Kept L.Place))
        → HasFrames L.depth d cs kept → total_weight L.weigh_data L.weigh L.weigh_kept d cs kept < n
        → IsOver (run L.rules L.control n ns d cs kept) }
{}

/// A run that begins with the invariant isn't stuck.
pub fn never_stuck<L: Keeping>()
    ensures { (n : ℕ) (ns : List ℕ) (d : L.Data) (cs : List L.Place) (kept : List (Kept L.Place))
        → L.invariant d cs kept → run L.rules L.control n ns d cs kept ≢ Stuck }
{}

/// What a smaller allowance writes is how the output of a larger one begins, and it ends in the same way
/// unless it is cut.
pub fn smaller_allowance<L: Allowing>()
    ensures { (n m : ℕ) (ns : List ℕ) (d e : L.Data) (cs : List L.Place) (kept : List (Kept L.Place)) (w v : L.Ending) (x y : L.Data)
        → L.more d e → run L.rules L.control n ns d cs kept ≡ Ended w x → run L.rules L.control m ns e cs kept ≡ Ended v y
        → Shortened L.out L.cut L.more w x v y }
{}
