//! The members of an object, read by their keys.
ghost use Rattle.std.specs.Prelude.{option_and_then, ◌≡◌, [], false, pos, IfOk, ◌≤◌, is_some, string_bytes, if◌then◌else◌, Some, None};
ghost use Rattle.cf_protocol.specs.Fields.{look_up, unless_null, read_or, as_object, as_text, as_flag, as_whole, as_limit, is_limit, max_u32, position, object_or_none};
ghost use Rattle.cf_protocol.specs.Reading.{Tells, Answers, Reads, Finds, Stand, AreMembers, HasValue, OfFields, OfValue, present_at, items_at};

use crate::epoch::Epoch;
use crate::fault::ReadFault;
use crate::position::Position;
use crate::table::value_of;
use cf_json::{Kind, Span, items, kind, members, read_signed, read_text, read_whole};
use std::alloc::Global;

/// The members of an object of a text, each by its key.
#[derive(Drop)]
pub struct Members<'a> {
    /// The text in which they stand.
    pub text: &'a str,
    /// Their keys, and where their values stand.
    pub found: Vec<(String, Span)>,
}

/// Whether a value counts as present: it is not `null`.
pub fn is_present(text: &str, span: Span) -> bool
    requires { HasValue text.now span }
    ensures { OfValue text.now span (λ t. result ≡ is_some (unless_null t)) }
{
    kind(text, span) != Kind::Null
}

impl<'a> Members<'a> {
    /// The members of the value, which is to be an object.
    pub fn of(alloc: Global, text: &'a str, span: Span) -> Result<Members<'a>, ReadFault>
        requires { HasValue text.now span }
        ensures { OfValue text.now span (λ t.
            Tells (λ m fs. Reads m.text.now m.found.items fs) result (as_object t)) }
    {
        let Kind::Object = kind(text, span) else {
            return Err(ReadFault::Bad);
        };
        let found = members(alloc, text, span)?;
        Ok(Members { text, found })
    }

    /// Where the value of this key stands.
    pub fn get(&self, key: &str) -> Option<Span>
        ensures { OfFields self.now (λ fs. Finds self.now.text.now result (look_up key.now fs)) }
    {
        value_of(&self.found, key).copied()
    }

    /// The same; `null` counts as absent.
    pub fn present(&self, key: &str) -> Option<Span>
        requires { AreMembers self.now }
        ensures { OfFields self.now (λ fs. Finds self.now.text.now result (present_at key.now fs)) }
    {
        match self.get(key) {
            Some(span) if is_present(self.text, span) => Some(span),
            _ => None,
        }
    }

    /// A text; the empty one if it is absent.
    pub fn text(&self, alloc: Global, key: &str) -> Result<String, ReadFault>
        requires { AreMembers self.now }
        ensures { OfFields self.now (λ fs.
            Answers string_bytes result (read_or [] as_text (present_at key.now fs))) }
    {
        let Some(span) = self.present(key) else {
            return Ok(String::new(alloc));
        };
        match kind(self.text, span) {
            Kind::Text => read_text(alloc, self.text, span).map_err(ReadFault::from),
            _ => Err(ReadFault::Bad),
        }
    }

    /// A flag; false if it is absent.
    pub fn flag(&self, key: &str) -> Result<bool, ReadFault>
        requires { AreMembers self.now }
        ensures { OfFields self.now (λ fs.
            Answers (λ b. b) result (read_or false as_flag (present_at key.now fs))) }
    {
        let Some(span) = self.present(key) else {
            return Ok(false);
        };
        match kind(self.text, span) {
            Kind::True => Ok(true),
            Kind::False => Ok(false),
            _ => Err(ReadFault::Bad),
        }
    }

    /// A whole number of at most so much; 0 if it is absent.
    pub fn whole(&self, key: &str, most: u64) -> Result<u64, ReadFault>
        requires { AreMembers self.now }
        ensures exact { OfFields self.now (λ fs.
            Answers (λ n. n) result (read_or 0 (as_whole 0 most) (present_at key.now fs))) }
        ensures most { IfOk result (λ n. n ≤ most) }
    {
        let Some(span) = self.present(key) else {
            return Ok(0);
        };
        let Kind::Number = kind(self.text, span) else {
            return Err(ReadFault::Bad);
        };
        match read_whole(self.text, span) {
            Some(number) if number <= most => Ok(number),
            _ => Err(ReadFault::Bad),
        }
    }

    /// A limit, a whole number of 32 bits with a sign; 0 if it is absent.
    pub fn limit(&self, key: &str) -> Result<i32, ReadFault>
        requires { AreMembers self.now }
        ensures { OfFields self.now (λ fs.
            Answers (λ z. z) result (read_or (pos 0) as_limit (present_at key.now fs))) }
    {
        let Some(span) = self.present(key) else {
            return Ok(0);
        };
        let Kind::Number = kind(self.text, span) else {
            return Err(ReadFault::Bad);
        };
        match read_signed(self.text, span) {
            Some(number) => i32::try_from(number).or(Err(ReadFault::Bad)),
            None => Err(ReadFault::Bad),
        }
    }

    /// The items of a list; none if it is absent.
    pub fn list(&self, alloc: Global, key: &str) -> Result<Vec<Span>, ReadFault>
        requires { AreMembers self.now }
        ensures { OfFields self.now (λ fs.
            Tells (λ v ts. Stand self.now.text.now v.items ts) result (items_at key.now fs)) }
    {
        let Some(span) = self.present(key) else {
            return Ok(Vec::new(alloc));
        };
        match kind(self.text, span) {
            Kind::Array => items(alloc, self.text, span).map_err(ReadFault::from),
            _ => Err(ReadFault::Bad),
        }
    }

    /// A whole number of 32 bits from 1 on, which is there.
    pub fn positive(&self, key: &str) -> Result<u32, ReadFault>
        requires { AreMembers self.now }
        ensures { OfFields self.now (λ fs. Answers (λ n. n) result
            (option_and_then (as_whole 1 max_u32) (present_at key.now fs))) }
    {
        let number = self.whole(key, u64::from(u32::MAX))?;
        if number == 0 {
            return Err(ReadFault::Bad);
        }
        Ok(number as u32)
    }

    /// The position that `epoch` and `offset` say.
    pub fn position(&self, alloc: Global) -> Result<Position, ReadFault>
        requires { AreMembers self.now }
        ensures { OfFields self.now (λ fs. Answers (λ p. p) result (position fs)) }
    {
        let offset = self.whole("offset", u64::MAX)?;
        let epoch = self.text(alloc, "epoch")?;
        Ok(Position {
            epoch: Epoch::from_text(epoch.as_str()),
            offset,
        })
    }

    /// The position of `since`, if it is there.
    pub fn since(&self, alloc: Global) -> Result<Option<Position>, ReadFault>
        requires { AreMembers self.now }
        ensures { OfFields self.now (λ fs.
            Answers (λ p. p) result (object_or_none position fs "since")) }
    {
        let Some(span) = self.present("since") else {
            return Ok(None);
        };
        let found = Members::of(alloc, self.text, span)?;
        found.position(alloc).map(Some)
    }
}
