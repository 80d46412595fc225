//! The text of a report, line by line.

ghost use Rattle.worm_rows.specs.Report.{report_of, AnswersOrFull, RanOut};
ghost use Rattle.worm_rows.specs.Written.{ReadsReport};

use crate::lines::judge;
use crate::rows::Row;
use crate::shape::Shape;
use crate::standing::Standing;
use std::alloc::Global;
use worm_text::{TextFault, Why, cut_first};

fn read_rows(alloc: Global, bytes: &[u8], shape: &Shape) -> Result<Vec<Row>, TextFault>
    ensures { AnswersOrFull (λ v. v.items) (RanOut shape.now bytes.now) result (report_of shape.now bytes.now) }
{
    let mut rows = Vec::new(alloc);
    let mut standing = Standing::start();
    let mut line = 1;
    let mut rest = bytes;
    while let Some((front, after)) = cut_first(rest, b'\n') {
        let row = match judge(shape, &standing, front) {
            Ok(row) => row,
            Err(why) => return Err(TextFault { line, why }),
        };
        if rows.push(row).is_err() {
            return Err(TextFault {
                line,
                why: Why::NoMemory,
            });
        }
        standing = standing.behind(&row);
        line += 1;
        rest = after;
    }
    if standing.next != 7 {
        return Err(TextFault {
            line,
            why: Why::NoEnd,
        });
    }
    if !rest.is_empty() {
        return Err(TextFault {
            line,
            why: Why::AfterEnd,
        });
    }
    Ok(rows)
}

/// Reads the text of a report of a network of this shape. `Range` also for a place that the network does not have,
/// and for sums that are not those of the rows. `NoMemory` at the line of a row for which there is no room.
pub fn read_report(alloc: Global, bytes: &[u8], shape: &Shape) -> Result<Vec<Row>, TextFault>
    ensures { ReadsReport (λ v. v.items) shape.now bytes.now result }
{
    read_rows(alloc, bytes, shape)
}
