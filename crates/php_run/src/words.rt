ghost use Rattle.std.specs.Prelude.{◌≡◌, ◌≤◌, ◌^◌, ℕ, List, true, false, None, Some, map, MatchOption};
ghost use Rattle.std.specs.List.{list_all};
ghost use Rattle.php_run.specs.Numerals.{is_digit, is_numeral, numeral};
ghost use Rattle.php_run.specs.Words.{is_allowance, is_file_name, shape};
ghost use Rattle.php_run.specs.Asked.{asked};
ghost use Rattle.php_run.specs.Shown.{wanted};

use crate::limits::DEFAULT_ALLOWANCE;

/// What is to be done with a file.
#[derive(Clone, Copy, Debug)]
pub(crate) enum Task {
    /// It is run, with so many ticks at most.
    Run(u64),
    /// It is checked alone.
    Check,
}

/// A file, and what is to be done with it.
#[derive(Clone, Copy, Debug)]
pub(crate) struct Request<'a> {
    pub file: &'a str,
    pub task: Task,
}

fn is_digit_byte(byte: u8) -> bool
    ensures { result ≡ is_digit byte }
{
    48 <= byte && byte <= 57
}

fn all_digits(bytes: &[u8]) -> bool
    ensures { result ≡ list_all is_digit bytes.now }
{
    bytes.iter().all(|byte| is_digit_byte(*byte))
}

fn is_decimal(word: &[u8]) -> bool
    ensures { result ≡ is_numeral word.now }
{
    match word {
        [] => false,
        [digit] => is_digit_byte(*digit),
        [first, rest @ ..] => is_digit_byte(*first) && *first != b'0' && all_digits(rest),
    }
}

fn digits_value(digits: &[u8]) -> Option<u64>
    requires { list_all is_digit digits.now ≡ true }
    ensures { MatchOption result (2 ^ 64 ≤ numeral digits.now) (λ value. value ≡ numeral digits.now) }
{
    let mut value: u64 = 0;
    for digit in digits {
        let Some(tens) = value.checked_mul(10) else {
            return None;
        };
        let Some(sum) = tens.checked_add((*digit - b'0') as u64) else {
            return None;
        };
        value = sum;
    }
    Some(value)
}

fn allowance(word: &[u8]) -> Option<u64>
    ensures { MatchOption result (is_allowance word.now ≡ false) (λ value. (is_allowance word.now ≡ true) × (value ≡ numeral word.now)) }
{
    if is_decimal(word) {
        digits_value(word)
    } else {
        None
    }
}

fn names_file(word: &str) -> bool
    ensures { result ≡ is_file_name word.now }
{
    match word.as_bytes() {
        [] => false,
        [first, ..] => *first != b'-',
    }
}

/// What the words ask for. `None` where they are no words of the command.
pub(crate) fn requested(words: &Vec<String>) -> Option<Request<'_>>
    ensures { MatchOption result (shape (asked words.now.items) ≡ None)
        (λ r. shape (asked words.now.items) ≡ Some (wanted r)) }
{
    match words.as_slice() {
        [command, file] => {
            if command.as_str() == "run" && names_file(file.as_str()) {
                Some(Request {
                    file: file.as_str(),
                    task: Task::Run(DEFAULT_ALLOWANCE),
                })
            } else if command.as_str() == "check" && names_file(file.as_str()) {
                Some(Request {
                    file: file.as_str(),
                    task: Task::Check,
                })
            } else {
                None
            }
        }
        [command, option, number, file] => {
            if command.as_str() == "run"
                && option.as_str() == "--steps"
                && names_file(file.as_str())
            {
                match allowance(number.as_bytes()) {
                    Some(allowance) => Some(Request {
                        file: file.as_str(),
                        task: Task::Run(allowance),
                    }),
                    None => None,
                }
            } else {
                None
            }
        }
        _ => None,
    }
}
