//! Where stored keys are read from.
ghost use Rattle.std.specs.Prelude.{◌≡◌, ◌<◌, ◌∷◌, ℕ, List, length};

use crate::Key;

/// Stored keys, of which one after the other is read into its place.
pub trait KeySource {
    // Those that are still to be read.
    ghost keys_left: { Self → List (List ℕ) };

    /// Writes the next one over another key.
    fn next_into(&mut self, place: &mut Key)
        requires { 0 < length (keys_left self.old) }
        ensures { keys_left self.old ≡ place.new ∷ keys_left self.new };
}
