//! JSON text, written piece by piece.
ghost use Rattle.std.specs.Prelude.{◌≡◌, ◌∷◌, ◌++◌, [], IfOk, string_bytes, false};
ghost use Rattle.std.specs.List.{list_all};
ghost use Rattle.cf_json.specs.Quoting.{quoted, escaped};
ghost use Rattle.cf_protocol.specs.Written as written;
ghost use Rattle.cf_protocol.specs.Writing.{Adds, AddsKey, AddsValue, Grows, IsBegun, Opens, OpensMember, comma as comma_after, is_plain};

use cf_json::quote;
use std::alloc::{AllocError, Global};

/// Whether no byte of a text has to be escaped in a string.
fn is_plain(text: &str) -> bool
    ensures { result ≡ list_all is_plain text.now }
{
    text.bytes()
        .all(|byte| byte >= 32 && byte != b'"' && byte != b'\\')
}

/// A compact text that is being written. Members and items that follow one another are separated by commas.
///
/// No call answers whether it had memory. That one had none is remembered, and told by [`into_text`](Writer::into_text).
#[derive(Drop)]
pub struct Writer {
    text: String,
    /// Whether some call had no memory. What the text is from then on doesn't matter.
    failed: bool,
    /// Whether nothing stands yet in the object or array that was begun last.
    fresh: bool,
    alloc: Global,
}

impl Writer {
    /// The text of an object that is begun, with room for so many bytes to begin with.
    pub fn new(alloc: Global, room: usize) -> Writer
        ensures { IsBegun result }
    {
        let mut text = String::new(alloc);
        let failed = text.reserve_exact(room).is_err();
        let mut writer = Writer {
            text,
            failed,
            fresh: true,
            alloc,
        };
        writer.begin("{");
        writer
    }

    /// What was written, with the end of the object.
    ///
    /// # Errors
    ///
    /// If some call had no memory.
    pub fn into_text(mut self) -> Result<String, AllocError>
        ensures { IfOk result (λ s.
            (self.failed ≡ false) × (string_bytes s ≡ string_bytes self.text ++ 125 ∷ [])) }
    {
        self.value("}");
        let Writer { text, failed, .. } = self;
        if failed {
            return Err(AllocError);
        }
        Ok(text)
    }

    /// A piece as it stands, unless there is no memory for it.
    fn push(&mut self, piece: &str)
        ensures text { Grows self.old self.new piece.now }
        ensures fresh { self.new.fresh ≡ self.old.fresh }
    {
        self.failed |= self.text.push_str(piece).is_err();
    }

    /// Begins an object or an array.
    pub fn begin(&mut self, bracket: &str)
        ensures { Opens self.old self.new bracket.now }
    {
        self.push(bracket);
        self.fresh = true;
    }

    /// A value, as its compact text.
    pub fn value(&mut self, text: &str)
        ensures { AddsValue self.old self.new text.now }
    {
        self.push(text);
        self.fresh = false;
    }

    /// The comma before a further member or item.
    pub fn comma(&mut self)
        ensures text { Grows self.old self.new (comma_after self.old.fresh) }
        ensures fresh { self.new.fresh ≡ self.old.fresh }
    {
        if !self.fresh {
            self.push(",");
        }
    }

    /// A text between quotation marks. If no byte of it has to be escaped, it is copied as it is.
    fn quoted(&mut self, text: &str)
        ensures text { Grows self.old self.new (quoted text.now) }
        ensures fresh { self.new.fresh ≡ self.old.fresh }
    {
        if is_plain(text) {
            self.push("\"");
            self.push(text);
            self.push("\"");
            return;
        }
        match quote(self.alloc, text) {
            Ok(quoted) => self.push(quoted.as_str()),
            Err(_) => self.failed = true,
        }
    }

    /// The key of a member, whose value follows. It has nothing that is escaped.
    pub fn key(&mut self, key: &str)
        ensures { AddsKey self.old self.new key.now }
    {
        self.comma();
        self.push("\"");
        self.push(key);
        self.push("\":");
    }

    /// A key of any text.
    pub fn text_key(&mut self, key: &str)
        ensures { AddsKey self.old self.new (escaped key.now) }
    {
        self.comma();
        self.quoted(key);
        self.push(":");
    }

    /// The key of a member, and the bracket that opens its value.
    pub fn open(&mut self, key: &str, bracket: &str)
        ensures { OpensMember self.old self.new key.now bracket.now }
    {
        self.key(key);
        self.begin(bracket);
    }

    /// A member that is left out if its text is empty.
    pub fn text_member(&mut self, key: &str, text: &str)
        ensures { Adds self.old self.new ((key.now, written.text text.now) ∷ []) }
    {
        if !text.is_empty() {
            self.key(key);
            self.quoted(text);
            self.fresh = false;
        }
    }

    /// A member that is left out if its number is 0.
    pub fn whole_member(&mut self, key: &str, number: u64)
        ensures { Adds self.old self.new ((key.now, written.whole number) ∷ []) }
    {
        if number != 0 {
            self.key(key);
            self.failed |= write!(self.text, "{number}").is_err();
            self.fresh = false;
        }
    }

    /// A member that is left out if its number is 0.
    pub fn signed_member(&mut self, key: &str, number: &i32)
        ensures { Adds self.old self.new ((key.now, written.signed number.now) ∷ []) }
    {
        if *number != 0 {
            self.key(key);
            self.failed |= write!(self.text, "{number}").is_err();
            self.fresh = false;
        }
    }

    /// A member that is left out if it is false.
    pub fn flag_member(&mut self, key: &str, flag: bool)
        ensures { Adds self.old self.new ((key.now, written.flag flag) ∷ []) }
    {
        if flag {
            self.key(key);
            self.value("true");
        }
    }
}
