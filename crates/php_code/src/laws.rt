// What holds of the definitions alone. Each function says it in its contract, and its body is empty.
ghost use Rattle.php_code.specs.Examples.{CodeExamples};

/// Small programs come to what they should.
pub fn worked_examples()
    ensures { CodeExamples }
{}
