//! Tables by name.
ghost use Rattle.std.specs.Prelude.{◌≡◌, option_copied};
ghost use Rattle.cf_protocol.specs.Settings.{entry_at, named};

/// What stands first under a name.
pub fn value_of<'a, V>(entries: &'a Vec<(String, V)>, name: &str) -> Option<&'a V>
    ensures { option_copied result ≡ entry_at (named entries.now.items) name.now }
{
    for entry in entries {
        if entry.0.as_str() == name {
            return Some(&entry.1);
        }
    }
    None
}
