//! What a world is made of.

ghost use Rattle.std.specs.Prelude.{◌≤◌};

use cf_protocol::Namespaces;

/// How many nodes there are, 1 to 8, and which namespaces are set up.
#[derive(Drop)]
pub struct Config {
    pub nodes: u8,
    pub namespaces: Namespaces,
    pub ghost one_to_eight: { (1 ≤ nodes) × (nodes ≤ 8) },
}
