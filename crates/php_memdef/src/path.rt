// The steps of a place.
ghost use Rattle.std.specs.Prelude.{◌≡◌, ◌<◌, [], ◌∷◌, ◌++◌, length, slice_get, Some, IfOk, IfNone, IfSome, OnOk, OnErr};

use crate::place::Step;
use php_base::NoMemory;
use std::alloc::Global;
use std::marker::Model;

/// The steps that lead from a base to a place, the first one first.
#[derive(Drop)]
pub struct Path {
    steps: Vec<Step>,
}

impl Model for Path {
    ghost use Rattle.std.specs.Prelude.{List};
    ghost use Rattle.php_memdef.specs.declared.place.Step.{Step};

    ghost Value = { List Step };

    ghost view = { λ p. p.steps.items };
}

impl Path {
    /// The path without steps.
    pub fn new(alloc: Global) -> Path
        ensures { result ≡ [] }
    {
        Path {
            steps: Vec::new(alloc),
        }
    }

    /// Adds a step at the end. A refused step is dropped.
    pub fn push(&mut self, step: Step) -> Result<(), NoMemory>
        ensures ok { OnOk result (self.new ≡ self.old ++ step ∷ []) }
        ensures no_memory { OnErr result (self.new ≡ self.old) }
    {
        self.steps.push(step)?;
        Ok(())
    }

    /// Takes the last step off. It answers `None` exactly for the path without steps.
    pub fn pop(&mut self) -> Option<Step>
        ensures last { IfSome result (λ step. self.old ≡ self.new ++ step ∷ []) }
        ensures empty { IfNone result ((self.old ≡ []) × (self.new ≡ [])) }
    {
        self.steps.pop()
    }

    /// The number of steps.
    pub fn len(&self) -> usize
        ensures { result ≡ length self.now }
    {
        self.steps.len()
    }

    /// The step at a place, the first one at 0.
    pub fn step(&self, at: usize) -> &Step
        requires { at < length self.now }
        ensures { slice_get self.now at ≡ Some result.now }
    {
        &self.steps[at]
    }

    /// Takes all steps off. The memory that they stood in is kept for the next ones.
    pub fn clear(&mut self)
        ensures { self.new ≡ [] }
    {
        self.steps.clear();
    }

    /// A path with equal steps. Their texts are shared.
    pub(crate) fn copy(&self) -> Result<Path, NoMemory>
        ensures { IfOk result (λ path. path ≡ self.now) }
    {
        let mut path = Path::new(*self.steps.allocator());
        for step in &self.steps {
            path.push(step.copy()?)?;
        }
        Ok(path)
    }
}
