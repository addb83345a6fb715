//! The head of a request, read from a stream up to the blank line that ends it.
ghost use Rattle.std.specs.Prelude.{◌≡◌, ◌+◌, ◌≤◌, length, IfOk, IfErr, IfSome, IsNone};
ghost use Rattle.cf_wire.specs.Heads.{Comes, HasNoEnd, IsHeadEnd, ends_head};
ghost use Rattle.cf_wire.specs.Refused.{IsOutside};

use crate::accept::WireFault;
use std::alloc::Global;
use std::io::Read;

/// The longest head of a request, in bytes.
const LONGEST_HEAD: usize = 16_384;
/// How many bytes one read of the stream asks for while the head is read.
const READ_BYTES: usize = 512;

/// Whether a blank line ends here.
fn ends_head(bytes: &[u8], end: usize) -> bool
    requires { end ≤ length bytes.now }
    ensures { result ≡ ends_head bytes.now end }
{
    end >= 4 && &bytes[end - 4..end] == b"\r\n\r\n".as_slice()
}

/// Where the head ends: behind the first blank line, which ends behind `from`.
fn head_end(bytes: &[u8], from: usize) -> Option<usize>
    requires within { from ≤ length bytes.now }
    requires before { HasNoEnd bytes.now (from + 1) }
    ensures some { IfSome result (IsHeadEnd bytes.now) }
    ensures none { IsNone result → HasNoEnd bytes.now (length bytes.now + 1) }
{
    for at in from..bytes.len() {
        if ends_head(bytes, at + 1) {
            return Some(at + 1);
        }
    }
    None
}

/// Reads up to the end of the head: the bytes read, and where the head ends. `None`: the head is longer than 16,384 bytes.
pub(crate) fn read_head<S: Read>(
    alloc: Global,
    stream: &mut S,
) -> Result<(Vec<u8>, Option<usize>), WireFault>
    ensures comes { IfOk result
        (λ read. Comes S.remaining stream.old stream.new read.0.items read.1) }
    ensures outside { IfErr result IsOutside }
{
    let mut head = Vec::new(alloc);
    let mut chunk = [0u8; READ_BYTES];
    while head.len() < LONGEST_HEAD {
        let count = stream.read(&mut chunk)?;
        if count == 0 {
            return Err(WireFault::StreamFault);
        }
        let from = head.len();
        head.extend_from_slice(&chunk[..count])?;
        if let Some(end) = head_end(head.as_slice(), from) {
            let end = if end > LONGEST_HEAD { None } else { Some(end) };
            return Ok((head, end));
        }
    }
    Ok((head, None))
}
