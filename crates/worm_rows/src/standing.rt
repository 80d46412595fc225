//! How far a report has been read: which rows may come next.

ghost use Rattle.std.specs.Prelude.{◌≡◌, ◌≤◌};
ghost use Rattle.worm_text.specs.Reading.{Gives};
ghost use Rattle.worm_rows.specs.Rules.{rank, latest, listed, at_start, behind};
ghost use Rattle.worm_rows.specs.Reading.{fits_at, admits};

use crate::rows::Row;
use worm_text::Why;

/// The stops, deliveries and flits under way that a report may list in all.
pub const MOST_LISTED: u32 = 1_000_000;

/// Where a report stands after some of its rows.
#[derive(Clone, Copy, Debug, PartialEq, Eq)]
pub struct Standing {
    /// The lowest rank that the next row may have; 7 after the last row.
    pub next: u8,
    /// How many stops were listed.
    pub stops: u32,
    /// How many deliveries were listed.
    pub delivered: u32,
    /// How many flits under way were listed.
    pub underway: u32,
}

/// The place of a row's kind in a report, 0 to 6.
pub fn rank(row: &Row) -> u8
    ensures value { result ≡ rank row.now }
    ensures few { result ≤ 6 }
{
    match row {
        Row::Header => 0,
        Row::Options { .. } => 1,
        Row::Stopped { .. } => 2,
        Row::Delivered { .. } => 3,
        Row::Underway { .. } => 4,
        Row::NotOffered { .. } => 5,
        Row::Total { .. } => 6,
    }
}

fn latest(next: u8) -> u8
    ensures { result ≡ latest next }
{
    if 2 <= next && next <= 4 { 5 } else { next }
}

impl Standing {
    /// Where a report begins.
    pub fn start() -> Self
        ensures { result ≡ at_start }
    {
        Standing {
            next: 0,
            stops: 0,
            delivered: 0,
            underway: 0,
        }
    }

    fn listed(&self) -> u32
        requires { listed self.now ≤ 1000000 }
        ensures { result ≡ listed self.now }
    {
        self.stops + (self.delivered + self.underway)
    }

    #[tactic(auto, unfolding(crate::specs::Reading::fits_at))]
    fn fits(&self, row: &Row) -> Result<(), Why>
        requires { listed self.now ≤ 1000000 }
        ensures { Gives (λ _. row.now) result (fits_at self.now row.now) }
    {
        match row {
            Row::Stopped { .. } | Row::Delivered { .. } | Row::Underway { .. } => {
                if self.listed() < MOST_LISTED {
                    Ok(())
                } else {
                    Err(Why::TooMany)
                }
            }
            Row::Total {
                delivered,
                underway,
            } => {
                if *delivered == self.delivered && *underway == self.underway {
                    Ok(())
                } else {
                    Err(Why::Range)
                }
            }
            Row::Header | Row::Options { .. } | Row::NotOffered { .. } => Ok(()),
        }
    }

    /// Whether the row may come next: `Repeated` where it comes too late, `Missing` where a row before it is not
    /// there, `TooMany` past `MOST_LISTED`, `Range` where its sums are not those of the rows.
    #[tactic(auto, unfolding(crate::specs::Reading::admits))]
    pub fn admit(&self, row: &Row) -> Result<(), Why>
        requires { listed self.now ≤ 1000000 }
        ensures { Gives (λ _. row.now) result (admits self.now row.now) }
    {
        let rank = rank(row);
        if rank < self.next {
            return Err(Why::Repeated);
        }
        if rank > latest(self.next) {
            return Err(Why::Missing);
        }
        self.fits(row)
    }

    /// Where the report stands after one row more.
    pub fn behind(self, row: &Row) -> Self
        requires { listed self ≤ 1000000 }
        ensures { result ≡ behind self row.now }
    {
        match row {
            Row::Stopped { .. } => Standing {
                next: 2,
                stops: self.stops + 1,
                ..self
            },
            Row::Delivered { .. } => Standing {
                next: 3,
                delivered: self.delivered + 1,
                ..self
            },
            Row::Underway { .. } => Standing {
                next: 4,
                underway: self.underway + 1,
                ..self
            },
            other => Standing {
                next: rank(other) + 1,
                ..self
            },
        }
    }
}
