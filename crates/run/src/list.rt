// The n-th event of a list of bytes: four each.
ghost use Rattle.std.specs.Prelude.{◌≡◌, ◌+◌, ◌*◌, ◌≤◌, length};
ghost use Rattle.run.specs.List.{listed_at};

use event::{Event, Numbered, UnknownKind};

// The n-th event of a list, from 0.
#[tactic(auto, unfolding(crate::specs::List::listed_at))]
pub(crate) fn listed_at(bytes: &[u8], n: usize) -> Result<Event, UnknownKind>
    requires { 4 * n + 4 ≤ length bytes.now }
    ensures { result ≡ listed_at bytes.now n }
{
    let first = 4 * n;
    Event::try_from(Numbered {
        kind: bytes[first],
        chip: bytes[first + 1],
        channel: bytes[first + 2],
        value: bytes[first + 3],
    })
}
