// What holds of every text and its cut.

ghost use Rattle.std.specs.Prelude.{◌≡◌, List, Ok, Err};
ghost use Rattle.php_lex.specs.declared.fail.LexFail.{LexFail};
ghost use Rattle.php_lex_pieces.specs.Bytes.{Text};
ghost use Rattle.php_lex.specs.Cut.{Cuts, Stops};
ghost use Rattle.php_lex.specs.Reading.{tokens};
ghost use Rattle.php_token.specs.Token.{Token};

/// A text has at most one cut into pieces.
pub fn at_most_one_cut()
    ensures { (text : Text) (a b : List Text) (ts us : List Token)
        → Cuts text a ts → Cuts text b us → (a ≡ b) × (ts ≡ us) }
{}

/// The tokens of a text that has a cut are those of the cut, and else the fault is the first one.
pub fn cut_decides()
    ensures tokens { (text : Text) (pieces : List Text) (ts : List Token)
        → Cuts text pieces ts → tokens text ≡ Ok ts }
    ensures fault { (text : Text) (fault : LexFail) → Stops text fault → tokens text ≡ Err fault }
{}
