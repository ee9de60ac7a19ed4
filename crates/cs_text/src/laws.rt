// The law of the text.
ghost use Rattle.cs_text.specs.Law.{WrittenIsReadBack};

/// What is written for the steps of a finished certificate is read as these steps.
pub fn written_is_read_back()
    ensures { WrittenIsReadBack }
{}
