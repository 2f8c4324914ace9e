//! Events of one key.
ghost use Rattle.std.specs.Prelude.{◌≡◌, None};

use events::{Body, Event, EventKind, Process};
use models::{Name, Op, Part};

pub fn event(process: u32, kind: EventKind, name: Name, part: Part) -> Event
    ensures { result ≡ record {
      index = None;
      kind = kind;
      process = Process.Client process;
      body = Body.Op (record { name = name; key = 7; part = part });
    } }
{
    Event {
        index: None,
        kind,
        process: Process::Client(process),
        body: Body::Op(Op { name, key: 7, part }),
    }
}
