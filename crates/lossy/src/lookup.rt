// The part of a text at a place, found by the table of states.
ghost use Rattle.std.specs.Prelude.{◌<◌, length};
ghost use Rattle.utf8.specs.Automaton.{IsTable};
ghost use Rattle.lossy.specs.Code.{PartAt};

use crate::part::Part;

// The part that begins at the place. A byte that is ill-formed within a character belongs to the next part.
pub(crate) fn part_in(s: &[u8], at: usize, table: &[u8; 2048]) -> Part
    requires { (at < length s.now) × IsTable table.now }
    ensures { PartAt s.now at result }
{
    let mut state = utf8::next(table, 0, s[at]);
    if state == 8 {
        return Part {
            len: 1,
            well: false,
        };
    }
    let mut i = at + 1;
    while state != 0 {
        if s.len() <= i {
            return Part {
                len: i - at,
                well: false,
            };
        }
        let n = utf8::next(table, state, s[i]);
        i += 1;
        if n == 8 {
            return Part {
                len: i - 1 - at,
                well: false,
            };
        }
        state = n;
    }
    Part {
        len: i - at,
        well: true,
    }
}
