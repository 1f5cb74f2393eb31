//! The settings files of a host in memory.
ghost use Rattle.std.specs.Prelude.{◌≡◌, IfErr, IfNone, IfOk, IfSome, None, Some};
ghost use Rattle.jb_host.specs.Shelves.{pages_written};

use crate::host::HostError;
use jb_bytes::Bytes;
use std::alloc::Global;

/// A settings file.
pub struct Page {
    pub(crate) path: Bytes,
    pub(crate) bytes: Bytes,
}

// Whoever lets go of one does so in one call.
impl Drop for Page {
    fn drop(self) {
        let Page {
            path: _path,
            bytes: _bytes,
        } = self;
    }
}

/// The bytes of the first page with this path.
fn bytes_at<'a>(pages: &'a [Page], path: &[u8]) -> Option<&'a [u8]>
    ensures found { IfSome result (λ bytes. pages_written pages.now path.now ≡ Some bytes.now) }
    ensures none { IfNone result (pages_written pages.now path.now ≡ None) }
{
    for k in 0..pages.len() {
        let page = &pages[k];
        if path == page.path.as_slice() {
            return Some(page.bytes.as_slice());
        }
    }
    None
}

/// A copy of the first page with this path.
pub(crate) fn copy_at(
    alloc: Global,
    pages: &[Page],
    path: &[u8],
) -> Result<Option<Bytes>, HostError>
    ensures ok { IfOk result (λ found. pages_written pages.now path.now ≡ found) }
    ensures err { IfErr result (λ error. error ≡ HostError.OutOfMemory) }
{
    match bytes_at(pages, path) {
        Some(bytes) => Ok(Some(Bytes::copy(alloc, bytes)?)),
        None => Ok(None),
    }
}
