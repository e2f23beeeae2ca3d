// The laws of the definitions. Each is the contract of a function that does nothing.
ghost use Rattle.wait_requests.specs.References.{AreTexts};

/// The texts that are compared with the words of a reference are exactly those of references with
/// these words: a first number of any digits, and behind it the words from the last to the first.
pub fn a_reference_has_its_words()
    ensures { AreTexts }
{}
