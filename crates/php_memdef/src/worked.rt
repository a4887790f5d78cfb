// The worked examples of the model.
ghost use Rattle.php_memdef.specs.ExamplesOfCalls.{CallExamples};
ghost use Rattle.php_memdef.specs.Examples.{AliasExamples, ReadExamples, ReleaseExamples, WriteExamples};

/// Small programs come to what they should.
pub fn worked_examples()
    ensures aliases { AliasExamples }
    ensures writes { WriteExamples }
    ensures reads { ReadExamples }
    ensures releases { ReleaseExamples }
    ensures calls { CallExamples }
{}
