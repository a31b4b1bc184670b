//! What has its say before a call is served.
ghost use Rattle.std.specs.Prelude.{MatchBool};

/// Asked once for a call, when all memory that it takes is there and nothing has changed yet. Where it admits the call, the
/// call is served: nothing can fail behind it. So what an admission notes elsewhere of a call is true of the book.
pub trait CallAdmission {
    // What is so of it before and after, where it admits the call and where it does not.
    ghost admits: { Self → Self → Type 0 };

    ghost refuses: { Self → Self → Type 0 };

    /// Whether the call is to be served.
    fn admit(&mut self) -> bool
        ensures { MatchBool result (admits self.old self.new) (refuses self.old self.new) };
}

/// Admits each call.
impl CallAdmission for () {
    ghost use Rattle.std.specs.Prelude.{⊤};

    ghost admits = { λ before after. ⊤ };

    ghost refuses = { λ before after. ⊥ };

    fn admit(&mut self) -> bool {
        true
    }
}
