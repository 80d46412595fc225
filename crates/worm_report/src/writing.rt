//! Bytes and lines into a writer, whole or a first part of them.

ghost use Rattle.std.specs.Prelude.{◌≡◌, [], ◌∷◌};
ghost use Rattle.worm_report.specs.Writing.{Writes, PutsRows, PutsOrBreaksOff};

use crate::page::Page;
use crate::row::Row;
use crate::summary::ReportFault;
use std::io::Write;

/// A writer, and the lines that wait to be given to it.
pub struct Desk<'a, W> {
    /// What the lines go to, a page at a time.
    pub out: &'a mut W,
    /// The lines that the writer has yet to be given.
    pub page: Page,
}

fn put<W: Write>(out: &mut W, bytes: &[u8]) -> Result<(), ReportFault>
    ensures { Writes (W.contents out.old) (W.contents out.new) result bytes.now }
{
    let mut rest = bytes;
    while !rest.is_empty() {
        match out.write(rest) {
            Ok(0) | Err(_) => return Err(ReportFault::Write),
            Ok(taken) => rest = &rest[taken..],
        }
    }
    Ok(())
}

fn turn_page<W: Write>(out: &mut W, page: &mut Page) -> Result<(), ReportFault>
    ensures given { Writes (W.contents out.old) (W.contents out.new) result page.old }
    ensures empty { page.new ≡ [] }
{
    let given = put(out, page.as_bytes());
    page.clear();
    given
}

fn make_room<W: Write>(desk: &mut Desk<'_, W>) -> Result<(), ReportFault>
    ensures { PutsRows W.contents desk.old desk.new result [] }
{
    if desk.page.is_full() {
        turn_page(desk.out, &mut desk.page)
    } else {
        Ok(())
    }
}

/// Puts a row's line on the page; a page that is full goes to the writer first.
pub fn put_row<W: Write>(desk: &mut Desk<'_, W>, row: Row) -> Result<(), ReportFault>
    ensures { PutsOrBreaksOff W.contents desk.old desk.new result (row ∷ []) }
{
    make_room(desk)?;
    desk.page.add(row)
}

/// Gives the writer the bytes, and has it pass them on. `Write` where it fails or takes none: a first part went out.
pub fn write_bytes<W: Write>(out: &mut W, bytes: &[u8]) -> Result<(), ReportFault>
    ensures { Writes (W.contents out.old) (W.contents out.new) result bytes.now }
{
    put(out, bytes)?;
    match out.flush() {
        Ok(()) => Ok(()),
        Err(_) => Err(ReportFault::Write),
    }
}

/// Gives the writer the lines of the page, and has it pass them on.
pub fn close<W: Write>(out: &mut W, page: &Page) -> Result<(), ReportFault>
    ensures { Writes (W.contents out.old) (W.contents out.new) result page.now }
{
    write_bytes(out, page.as_bytes())
}
