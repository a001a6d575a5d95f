// Fetches a source by its name.
ghost use Rattle.std.specs.Prelude.{MatchResult};
ghost use Rattle.kt_outside.specs.Outside.{KeepsLibrary};
ghost use Rattle.ktflow.specs.Fetching.{FetchesAll, FetchFails};

use kt_outside::{Fetch, Library};
use std::alloc::Global;

// So many bytes of a source count: one more than it may have.
const MOST_FETCHED: usize = 1_048_577;

const PIECE: usize = 4096;

/// Why a source could not be fetched.
#[derive(Clone, Copy, Debug, PartialEq, Eq)]
pub(crate) enum FetchFault {
    Failed,
    NoMemory,
}

/// Fetches the bytes of the name up to their end, or the first 1,048,577 of them; no more are asked for.
pub(crate) fn fetch_source<L: Library>(
    alloc: Global,
    library: &mut L,
    name: &str,
) -> Result<Vec<u8>, FetchFault>
    ensures fetches { MatchResult result (λ source. FetchesAll (L.state library.old) (L.state library.new) name.now source.items)
        (λ fault. FetchFails (L.state library.old) (L.state library.new) name.now fault) }
    ensures keeps { KeepsLibrary (L.state library.old) (L.state library.new) }
{
    let mut source = Vec::new(alloc);
    let mut buf = [0; PIECE];
    while source.len() < MOST_FETCHED {
        let want = PIECE.min(MOST_FETCHED - source.len());
        let room = &mut buf[..want];
        match library.fetch(name, source.len(), room) {
            Fetch::Got(count) => {
                if count == 0 {
                    return Ok(source);
                }
                if source.extend_from_slice(&room[..count]).is_err() {
                    return Err(FetchFault::NoMemory);
                }
            }
            Fetch::Failed => return Err(FetchFault::Failed),
        }
    }
    Ok(source)
}
