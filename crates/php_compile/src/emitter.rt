// Code while it is emitted.
ghost use Rattle.std.specs.Prelude.{◌≡◌, ◌+◌, [], ◌∷◌, ◌++◌, max, IfOk, OnOk};
ghost use Rattle.php_code.specs.declared.instr.Instr.TheVariants.{Do};
ghost use Rattle.php_compile.specs.ExpressionCode.{do_code};

use php_actions::Action;
use php_base::NoMemory;
use php_code::Instr;
use sqlite_items::Items;
use std::alloc::Global;

/// The code so far, and how many temporaries stand at most while it runs.
#[derive(Drop)]
pub struct Emitter {
    pub alloc: Global,
    pub code: Items<Instr>,
    pub peak: usize,
}

impl Emitter {
    /// No code.
    pub fn new(alloc: Global) -> Emitter
        ensures code { result.code ≡ [] }
        ensures peak { result.peak ≡ 0 }
    {
        Emitter {
            alloc,
            code: Items::new(alloc),
            peak: 0,
        }
    }

    /// One more action.
    pub fn put(&mut self, action: Action) -> Result<(), NoMemory>
        ensures code { OnOk result (self.new.code ≡ self.old.code ++ Do action ∷ []) }
        ensures peak { OnOk result (self.new.peak ≡ self.old.peak) }
    {
        self.code.push(Instr::Do(action))?;
        Ok(())
    }

    /// One more action, if there is one.
    pub fn put_if(&mut self, action: Option<Action>) -> Result<(), NoMemory>
        ensures code { OnOk result (self.new.code ≡ self.old.code ++ do_code action) }
        ensures peak { OnOk result (self.new.peak ≡ self.old.peak) }
    {
        match action {
            Some(action) => self.put(action),
            None => Ok(()),
        }
    }

    /// So many temporaries come above those that stand.
    pub fn raise(&mut self, standing: usize, more: usize) -> Result<(), NoMemory>
        ensures code { OnOk result (self.new.code ≡ self.old.code) }
        ensures peak { OnOk result (self.new.peak ≡ max self.old.peak (standing + more)) }
    {
        let height = above(standing, more)?;
        self.peak = self.peak.max(height);
        Ok(())
    }

    /// An action that leaves one temporary more.
    pub fn put_leaf(&mut self, action: Action, standing: usize) -> Result<(), NoMemory>
        ensures code { OnOk result (self.new.code ≡ self.old.code ++ Do action ∷ []) }
        ensures peak { OnOk result (self.new.peak ≡ max self.old.peak (standing + 1)) }
    {
        self.put(action)?;
        self.raise(standing, 1)
    }
}

/// So many and some more. There is no memory for a script in which they are more than a `usize` counts.
pub fn above(standing: usize, more: usize) -> Result<usize, NoMemory>
    ensures { IfOk result (λ n. n ≡ standing + more) }
{
    match standing.checked_add(more) {
        Some(height) => Ok(height),
        None => Err(NoMemory),
    }
}
