// What a copy comes to, whichever free numbers its stores take.
ghost use Rattle.std.specs.Prelude.{ℕ};
ghost use Rattle.php_memdef.specs.Numbered.{Numbered};
ghost use Rattle.php_memdef.specs.Contents.{Content, Mem};
ghost use Rattle.php_memdef.specs.Holders.{stores_of_content};
ghost use Rattle.php_memdef.specs.Sound.{Every, IsLive, IsClosed};
ghost use Rattle.php_memplain_copy.specs.Copying.{CopiesContent, CopyAgrees};

/// A copy of a content into stores of any free numbers differs in these numbers alone from the copy into
/// the next ones.
pub fn copies_agree()
    ensures { (levels : ℕ) (m : Mem) (c d : Content) (stores : Numbered Content) → IsClosed m → Every (IsLive m) (stores_of_content c)
        → CopiesContent levels m c m.stores d stores → CopyAgrees levels m c d stores }
{}
