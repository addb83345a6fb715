//! Publications in replies and pushes.
ghost use Rattle.cf_protocol.specs.Fields.{object_as, object_or_none, objects};
ghost use Rattle.cf_protocol.specs.Reading.{Answers, AreMembers, HasValue, OfFields, OfValue};
ghost use Rattle.cf_protocol.specs.Reply.{info, publication};

use crate::fault::ReadFault;
use crate::publication::{Info, Publication};
use crate::read::members::Members;
use cf_json::{Span, compact};
use std::alloc::Global;

/// The info of a client. (Centrifugo's client protocol, ClientInfo.)
pub fn read_client(alloc: Global, text: &str, span: Span) -> Result<Info, ReadFault>
    requires { HasValue text.now span }
    ensures { OfValue text.now span (λ t. Answers (λ w. w) result (object_as info t)) }
{
    let members = Members::of(alloc, text, span)?;
    let client = members.text(alloc, "client")?;
    let user = members.text(alloc, "user")?;
    Ok(Info { user, client })
}

/// The info of a publication, if a client published it.
fn read_publisher(alloc: Global, members: &Members<'_>) -> Result<Option<Info>, ReadFault>
    requires { AreMembers members.now }
    ensures { OfFields members.now (λ fs. Answers (λ w. w) result (object_or_none info fs "info")) }
{
    let Some(span) = members.present("info") else {
        return Ok(None);
    };
    read_client(alloc, members.text, span).map(Some)
}

/// A publication. Its data is there, and may be `null`.
fn read_publication(alloc: Global, members: &Members<'_>) -> Result<Publication, ReadFault>
    requires { AreMembers members.now }
    ensures { OfFields members.now (λ fs. Answers (λ p. p) result (publication fs)) }
{
    let Some(span) = members.get("data") else {
        return Err(ReadFault::Bad);
    };
    let offset = members.whole("offset", u64::MAX)?;
    let body = compact(alloc, members.text, span)?;
    let info = read_publisher(alloc, members)?;
    Ok(Publication { offset, body, info })
}

/// The publication that stands there.
pub fn read_published(alloc: Global, text: &str, span: Span) -> Result<Publication, ReadFault>
    requires { HasValue text.now span }
    ensures { OfValue text.now span (λ t. Answers (λ p. p) result (object_as publication t)) }
{
    let members = Members::of(alloc, text, span)?;
    read_publication(alloc, &members)
}

/// The publications of a result.
pub fn read_publications(
    alloc: Global,
    members: &Members<'_>,
) -> Result<Vec<Publication>, ReadFault>
    requires { AreMembers members.now }
    ensures { OfFields members.now (λ fs.
        Answers (λ v. v.items) result (objects publication fs "publications")) }
{
    let spans = members.list(alloc, "publications")?;
    let mut publications = Vec::new(alloc);
    for span in &spans {
        let publication = read_published(alloc, members.text, *span)?;
        publications.push(publication)?;
    }
    Ok(publications)
}
