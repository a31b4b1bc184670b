//! By which names the tenants of a server go.
ghost use Rattle.std.specs.Prelude.{◌≡◌, ℕ, List};

use line_protocol::Name;

/// By which names a server's tenants go, in the order of their limits.
///
/// A server has them as a type parameter: the closure of a scope gets no proof where what it shares has a lifetime in its type.
pub trait Tenants {
    ghost listed: { Self → List (List ℕ) };

    /// The names, of which the n-th is that of tenant n.
    fn names(&self) -> &[Name]
        ensures { result.now ≡ listed self.now };
}

impl Tenants for &[Name] {
    ghost listed = { λ names. names.now };

    fn names(&self) -> &[Name] {
        *self
    }
}
