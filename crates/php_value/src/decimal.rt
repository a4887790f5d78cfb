// Integers written in decimal digits.
ghost use Rattle.std.specs.Prelude.{◌≡◌};
ghost use Rattle.php_value.specs.Decimal.{written_int};

// The integer that an optional sign and digits write, where it has 64 bits.
pub fn written_int(bytes: &[u8]) -> Option<i64>
    ensures { result ≡ written_int bytes.now }
{
    match std::str::from_utf8(bytes) {
        Ok(text) => text.parse::<i64>().ok(),
        Err(_) => None,
    }
}
