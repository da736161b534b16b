// The boundaries in the data of an XLogData.
use crate::shown::{accepted, refused};
use pgoutput::Boundary;

pub(crate) fn boundary(line: &mut [u8], input: &[u8]) -> usize {
    match pgoutput::parse_pgoutput_boundary(input) {
        Ok(
            Some(
                Boundary::Begin {
                    final_lsn,
                    commit_time,
                    xid,
                },
            ),
        ) => {
            let a = accepted(line);
            let b = wire::store::place(line, a, b" B");
            let c = test_lines::position(line, b, final_lsn);
            let d = test_lines::long(line, c, commit_time);
            test_lines::number(line, d, xid as u64)
        }
        Ok(
            Some(
                Boundary::Commit {
                    lsn,
                    end_lsn,
                    commit_time,
                },
            ),
        ) => {
            let a = accepted(line);
            let b = wire::store::place(line, a, b" C");
            let c = test_lines::position(line, b, lsn);
            let d = test_lines::position(line, c, end_lsn);
            test_lines::long(line, d, commit_time)
        }
        Ok(
            Some(
                Boundary::Message {
                    transactional,
                    lsn,
                    prefix_from,
                    prefix_len,
                    content_from,
                    content_len,
                },
            ),
        ) => {
            let a = accepted(line);
            let b = wire::store::place(line, a, b" M");
            let c = test_lines::flag(line, b, transactional);
            let d = test_lines::position(line, c, lsn);
            let e = test_lines::part(line, d, input, prefix_from, prefix_len);
            test_lines::part(line, e, input, content_from, content_len)
        }
        Ok(None) => {
            let a = accepted(line);
            wire::store::place(line, a, b" n")
        }
        Err(r) => refused(line, r.number()),
    }
}
