//! What is the same for all threads, and named by no value.
use std::marker::Brand;

/// Which word counts which shard's log, and which namespaces are set up. Each call of a program picks it.
pub trait Naming {
    ghost use Rattle.std.specs.Prelude.{ℕ};
    ghost use Rattle.atomic_table.specs.Seated.{TableId};
    ghost use Rattle.cf_protocol.specs.Settings.{NamespaceTable};

    /// The word of the shard of this number.
    ghost words: { ℕ → TableId };

    ghost namespaces: { NamespaceTable };
}

impl Naming for Brand {
    ghost use Rattle.std.specs.Prelude.{[]};
    ghost use Rattle.cf_shard.specs.Naming.{no_word};

    ghost words = { λ _. no_word };

    ghost namespaces = { [] };
}
