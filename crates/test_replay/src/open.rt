// The opening of a script's run.
use crate::calls::Play;
use crate::script::Script;
use crate::{names, spelled};
use std::io::Stdout;

// The run that was opened, and its line. The output has the script's length, and what fills it.
pub(crate) fn begin(output: Stdout, s: Script, list: &[u8]) -> Play {
    let mut space = [0u8; 4096];
    let out = &mut space[..s.output.min(4096)];
    out.fill(s.output_fill);
    if s.already_open {
        let o = worker::session::already_open(s.settings, s.start);
        spelled::opened(output, o.verdict.map(|()| 0), out);
        return Play {
            run: o.run,
            opened: o.verdict.is_ok(),
            taken: 0,
        };
    }
    let o = names::open(s, list, out);
    spelled::opened(output, o.written, out);
    Play {
        run: o.run,
        opened: o.written.is_ok(),
        taken: 0,
    }
}
