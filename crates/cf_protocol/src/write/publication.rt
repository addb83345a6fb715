//! The text of a publication, wherever it stands.
ghost use Rattle.std.specs.Prelude.{◌∷◌, []};
ghost use Rattle.cf_json.specs.Compact.{compact_text};
ghost use Rattle.cf_protocol.specs.Written.{◌⇒◌, as_it_is, info as info_members, info_or_none, publication as publication_tree};
ghost use Rattle.cf_protocol.specs.Writing.{Adds, AddsValue};

use crate::publication::{Info, Publication};
use crate::write::writer::Writer;

/// The members of an info.
pub fn write_info(writer: &mut Writer, client: &str, user: &str)
    ensures { Adds writer.old writer.new
        (info_members (record { client = client.now; user = user.now })) }
{
    writer.text_member("client", client);
    writer.text_member("user", user);
}

/// A publication, whose data always stands.
pub fn write_placed(writer: &mut Writer, publication: &Publication)
    ensures { AddsValue writer.old writer.new
        (compact_text (publication_tree as_it_is publication.now)) }
{
    writer.begin("{");
    writer.key("data");
    writer.value(publication.body.as_str());
    write_publisher(writer, &publication.info);
    writer.whole_member("offset", publication.offset);
    writer.value("}");
}

/// The info of a publication, left out if there is none, and if it is empty.
fn write_publisher(writer: &mut Writer, info: &Option<Info>)
    ensures { Adds writer.old writer.new (("info" ⇒ info_or_none info.now) ∷ []) }
{
    let Some(info) = info else {
        return;
    };
    if info.client.is_empty() && info.user.is_empty() {
        return;
    }
    writer.open("info", "{");
    write_info(writer, info.client.as_str(), info.user.as_str());
    writer.value("}");
}
