//! What is so of every text, as statements that the check asks for.
ghost use Rattle.labels.specs.Utf8.{Utf8IsUnicodes};

/// The test of UTF-8 that the encoder's calls are told by is Unicode's: it holds exactly of the well-formed byte
/// sequences (The Unicode Standard, section 3.9, D92).
pub fn utf8_is_unicodes()
    ensures { Utf8IsUnicodes }
{}
