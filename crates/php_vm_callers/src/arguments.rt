// Which words a run can have as its arguments.
ghost use Rattle.std.specs.Prelude.{◌≡◌, ◌↔◌, IsTrue, string_bytes};
ghost use Rattle.std.specs.List.{list_all};
ghost use Rattle.php_memdef.specs.Deciders.{is_short};
ghost use Rattle.php_runnable.specs.Arguments.{AreArguments};
ghost use Rattle.php_vm_callers.specs.Beginnings.{bytes_of};

// As many as an array has entries, and as long as a string.
const MOST_WORDS: usize = 4_194_304;

const MOST_BYTES: usize = 16_777_216;

/// Whether a run can have these words as its arguments: 4,194,304 of them at most, each of 16,777,216 bytes at most.
pub fn are_arguments(words: &[String]) -> bool
    ensures { IsTrue result ↔ AreArguments (bytes_of words.now) }
{
    if words.len() <= MOST_WORDS {
        are_short(words)
    } else {
        false
    }
}

fn are_short(words: &[String]) -> bool
    ensures { result ≡ list_all (λ word. is_short (string_bytes word)) words.now }
{
    words.iter().all(|word| is_short_word(word.as_bytes()))
}

fn is_short_word(word: &[u8]) -> bool
    ensures { result ≡ is_short word.now }
{
    word.len() <= MOST_BYTES
}
