//! Events of clients.
ghost use Rattle.std.specs.Prelude.{◌≡◌, None};

use events::{Body, Event, EventKind, Process};
use models::{Key, Name, Op, Part};

pub fn event(process: u32, kind: EventKind, name: Name, key: Key, part: Part) -> Event
    ensures { result ≡ record {
      index = None;
      kind = kind;
      process = Process.Client process;
      body = Body.Op (record { name = name; key = key; part = part });
    } }
{
    Event {
        index: None,
        kind,
        process: Process::Client(process),
        body: Body::Op(Op { name, key, part }),
    }
}
