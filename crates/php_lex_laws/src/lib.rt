// Laws of the lexer's definitions.
#![tactic(auto)]

#[cfg(test)]
mod texts;

ghost use Rattle.std.specs.Prelude.{◌≡◌, ◌⊎◌, ◌<◌, ◌≤◌, ℕ, List, length, Some, Ok, Err};
ghost use Rattle.php_lex.specs.declared.fail.LexFail.{LexFail};
ghost use Rattle.php_token.specs.declared.kind.Punct.{Punct};
ghost use Rattle.php_lex_pieces.specs.Bytes.{Text};
ghost use Rattle.php_lex.specs.Cut.{Cuts, Stops};
ghost use Rattle.php_lex.specs.Modes.{Mode};
ghost use Rattle.php_lex.specs.Pieces.{Piece, piece};
ghost use Rattle.php_lex_pieces.specs.Punctuators.{punctuator, punctuators};
ghost use Rattle.php_token.specs.Token.{Token};
ghost use Rattle.php_lex_laws.specs.Longest.{Form, HasForm, given, IsPieceAt, IsFaultAt};
ghost use Rattle.php_lex_laws.specs.LongestCut.{IsCut, IsStop};
ghost use Rattle.php_lex_laws.specs.ScriptForms.{Matches};

/// Of the punctuators with which a text begins the longest is taken.
pub fn longest_punctuator()
    ensures { (text : Text) (sign : Punct) (n : ℕ) → Matches punctuators text sign n
        → (best : Punct × ℕ) × ((punctuator text ≡ Some best) × ((n ≤ best.1) × (n ≡ best.1 → best.0 ≡ sign))) }
{}

/// Where a piece stands, its bytes have a form of the mode, no longer bytes have one, and no exception stands there. The
/// piece is what that form gives.
pub fn piece_is_longest()
    ensures { (mode : Mode) (line : ℕ) (text : Text) (p : Piece)
        → 0 < length text → piece mode line text ≡ Ok p
        → (form : Form mode) × (IsPieceAt mode text p.len form × (p ≡ given mode form line text p.len)) }
{}

/// The longest bytes that have a form of the mode are the piece there, unless an exception stands there.
pub fn longest_is_piece()
    ensures { (mode : Mode) (line : ℕ) (text : Text) (n : ℕ) (form : Form mode) → IsPieceAt mode text n form
        → (p : Piece) × ((piece mode line text ≡ Ok p) × ((p.len ≡ n) × (p ≡ given mode form line text n))) }
{}

/// Where no piece stands, an exception does, which has the fault, or no bytes have a form of the mode.
pub fn no_piece_is_fault()
    ensures { (mode : Mode) (line : ℕ) (text : Text) (fault : LexFail)
        → 0 < length text → piece mode line text ≡ Err fault → IsFaultAt mode line text fault }
{}

/// An exception has its fault, and so has a text of whose bytes none have a form.
pub fn fault_is_no_piece()
    ensures { (mode : Mode) (line : ℕ) (text : Text) (fault : LexFail)
        → 0 < length text → IsFaultAt mode line text fault → piece mode line text ≡ Err fault }
{}

/// A cut by what stands at each place is a cut into the longest pieces, and the other way round.
pub fn cut_is_longest()
    ensures longest { (text : Text) (pieces : List Text) (found : List Token)
        → Cuts text pieces found → IsCut text pieces found }
    ensures back { (text : Text) (pieces : List Text) (found : List Token)
        → IsCut text pieces found → Cuts text pieces found }
{}

/// Where pieces stop at a place, the longest pieces stop there, for the same fault, and the other way round.
pub fn stop_is_longest()
    ensures longest { (text : Text) (fault : LexFail) → Stops text fault → IsStop text fault }
    ensures back { (text : Text) (fault : LexFail) → IsStop text fault → Stops text fault }
{}

/// Bytes that have a form are at least one, and all of them lie in the text.
pub fn form_lies_in_text()
    ensures { (mode : Mode) (form : Form mode) (text : Text) (n : ℕ) → HasForm mode form text n
        → (0 < n) × (n ≤ length text) }
{}

/// Each text has a cut into the longest pieces, or they stop at a place.
pub fn cut_or_stop()
    ensures { (text : Text) → ((pieces : List Text) × ((found : List Token) × IsCut text pieces found))
        ⊎ ((fault : LexFail) × IsStop text fault) }
{}
