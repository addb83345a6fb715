//! Laws of the definitions of a client.
ghost use Rattle.std.specs.Prelude.{ℕ, List, Option};
ghost use Rattle.cf_protocol.specs.Position.{Position};
ghost use Rattle.cf_client.specs.ClientCalls.{new_state, connected, asked, left, called, reconnected};
ghost use Rattle.cf_client.specs.OneAnswer.{AreApart, Keeps, TextsKeep, OneOutcome};
ghost use Rattle.cf_client.specs.OneMeaning.{OneMeaning};

/// Each ask that is out has an id of its own, whatever calls were made. So what the replies and pushes of a text make of a
/// client, and what its application is told, is one thing.
pub fn one_answer()
    ensures new { AreApart new_state.client }
    ensures connect { Keeps connected }
    ensures ask { (c : List ℕ) (from : Option Position) → Keeps (asked c from) }
    ensures leave { (c : List ℕ) → Keeps (left c) }
    ensures call { (c : List ℕ) → Keeps (called c) }
    ensures reconnect { Keeps reconnected }
    ensures texts { TextsKeep }
    ensures one { OneOutcome }
{}

/// What a note makes of a client, and what its application is told then, is what the text makes of it that is written for the
/// note. The note is to answer what was asked for its channel, since an answer on the wire names an id alone.
pub fn one_meaning()
    ensures { OneMeaning }
{}
