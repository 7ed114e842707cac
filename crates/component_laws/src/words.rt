//! A theorem about all arguments: a function that does nothing, and is called for what it ensures.

ghost use Rattle.std.specs.Prelude.{ℕ, ◌⊎◌, List};
ghost use Rattle.component_words.specs.Settings.{AreLawful, IsUnlawful, Settings};

/// Arguments are valid, and make settings, or they aren't.
pub fn settings_or_none()
    ensures { (words : List (List ℕ)) → ((settings : Settings) × AreLawful words settings) ⊎ IsUnlawful words }
{}
