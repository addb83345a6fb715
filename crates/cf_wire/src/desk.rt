//! What a wire hands texts to and takes texts from.
ghost use Rattle.std.specs.Prelude.{◌≡◌, ℕ, Bool, true, List, Option};

use cf_queue::Out;

/// Who hears a client's texts, and says what goes out to it. What it makes of a text, and what it gives, it states itself.
pub trait Desk {
    ghost use Rattle.cf_queue.specs.declared.queue.Out.{Out};

    ghost hears: { Self → List ℕ → Self → Type 0 };

    ghost gives: { Self → Option Out → Self → Type 0 };

    ghost ready: { Self → Bool };

    /// Whether it hears a further text by now. While it doesn't, what it gives goes out, and nothing is read.
    fn is_ready(&self) -> bool
        ensures { result ≡ ready self.now };

    /// Hears a text message, of any length, while it is ready.
    fn heard(&mut self, text: &str)
        requires ready { ready self.old ≡ true }
        ensures { hears self.old text.now self.new };

    /// What goes out next. None: nothing does, by now.
    fn next(&mut self) -> Option<Out>
        ensures { gives self.old result self.new };
}
