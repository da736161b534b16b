#![tactic(auto)]
// Opening hours: whether a venue's hall is open at a moment, and when that next changes.
pub mod layout;
pub mod words;

ghost use Rattle.std.specs.Prelude.{◌≡◌, true, false, ◌<◌, ◌≤◌, pos, ◌+ℤ◌};
ghost use Rattle.error.specs.Refusal.{kind_number};
ghost use Rattle.hours.specs.Calendar.{open_at, is_within_windows, are_windows, since_monday};
ghost use Rattle.hours.specs.Answer.{number_of, kind_of, change_from, hours_of, asked_of};
ghost use Rattle.hours.specs.Code.{counted, until_boundary, AreMinutes, moment_after};
ghost use Rattle.wire.specs.Answer.{maybe};

use error::Kind;

// Microseconds of a minute and of a week, and the minutes of a week.
const MINUTE: u64 = 60000000;

const WEEK: u64 = 604800000000;

const WEEK_MINUTES: u64 = 10080;

// The largest offset, in minutes, and the largest moment.
const MOST_OFFSET: u64 = 840;

const MOST_MOMENT: u64 = 4611686018427387904;

// Eight million weeks, from so long before moment 0 moments are counted, since that is no negative number.
const PAST: u64 = 4838400000000000000;

// For each weekday, Monday first, the opening and the closing minute of its window; minutes that are added to UTC.
#[derive(Clone, Copy)]
pub struct Hours {
    pub opens: [u64; 7],
    pub closes: [u64; 7],
    pub offset: i64,
}

#[derive(Clone, Copy)]
pub enum Refusal {
    InvalidWindow = 32, // a window opens after it closes, or a minute is above 1,440
    OffsetOutOfRange, // the offset is outside -840 to 840
    MomentOutOfRange, // the moment is outside plus or minus 4,611,686,018,427,387,904
}

// Whether the hall is open, and when that next changes, in microseconds from 2000-01-01 UTC, if it ever does.
#[derive(Clone, Copy)]
pub struct Told {
    pub is_open: bool,
    pub change: Option<i64>,
}

impl Refusal {
    // The refusal's number.
    pub fn number(self) -> u8
        ensures { result ≡ number_of self }
    {
        self as u8
    }

    // Only the caller's own inputs bring these about.
    pub fn kind(self) -> Kind
        ensures { kind_number result ≡ kind_of self }
    {
        Kind::Usage
    }
}

// Whether a value is at most a limit from zero, on either side.
fn is_within(limit: u64, v: i64) -> bool
    ensures { result ≡ is_within_windows limit v }
{
    if 0 <= v {
        v as u64 <= limit
    } else {
        ((-1 - v) as u64) < limit
    }
}

// Whether every window closes after it opens, or with it, and on its own day.
fn are_windows(hours: Hours) -> bool
    ensures { result ≡ are_windows hours.opens hours.closes 7 }
{
    let opens = hours.opens;
    let closes = hours.closes;
    for day in 0..7 {
        if closes[day] < opens[day] {
            return false;
        }
        if 1440 < closes[day] {
            return false;
        }
    }
    true
}

// Microseconds from a Monday long ago to a moment.
fn count(moment: i64) -> u64
    requires { is_within_windows 4611686018427387904 moment ≡ true }
    ensures { result ≡ counted moment }
{
    if 0 <= moment {
        PAST + moment as u64
    } else {
        PAST - 1 - (-1 - moment) as u64
    }
}

// Minutes from Monday 00:00 to Saturday 00:00 of a clock that is ahead of UTC by an offset.
fn to_saturday(offset: i64) -> u64
    requires { is_within_windows 840 offset ≡ true }
    ensures { (offset +ℤ pos 7200 ≡ pos result) × (result ≤ 8040) }
{
    (offset + 7200) as u64
}

// Microseconds from Monday 00:00 on the venue's clock to a moment.
fn since_monday(offset: i64, moment: i64) -> u64
    requires { (is_within_windows 840 offset ≡ true) × (is_within_windows 4611686018427387904 moment ≡ true) }
    ensures { result ≡ since_monday offset moment }
{
    (count(moment) + to_saturday(offset) * MINUTE) % WEEK
}

// Whether the hall is open in a minute of the week, counted from Monday 00:00.
fn open_at(hours: Hours, m: u64) -> bool
    requires { m < 10080 }
    ensures { result ≡ open_at hours m }
{
    let day = (m / 1440) as usize;
    let opens = hours.opens;
    let closes = hours.closes;
    if m % 1440 < opens[day] {
        return false;
    }
    m % 1440 < closes[day]
}

// How many minutes the state of a minute of the week lasts for sure: to the opening, the closing or the day's end.
fn until_boundary(hours: Hours, m: u64) -> u64
    requires { m < 10080 }
    ensures { result ≡ until_boundary hours m }
{
    let day = (m / 1440) as usize;
    let opens = hours.opens;
    let closes = hours.closes;
    let minute = m % 1440;
    if minute < opens[day] {
        return opens[day] - minute;
    }
    if minute < closes[day] {
        return closes[day] - minute;
    }
    1440 - minute
}

// After how many minutes the state of a minute of the week first changes, if it ever does. A state lasts from one boundary to the next, so
// that only boundaries are looked at, at most three a day.
fn minutes_to_change(hours: Hours, m: u64) -> Option<u64>
    requires { (m < 10080) × (are_windows hours.opens hours.closes 7 ≡ true) }
    ensures { (maybe result ≡ change_from hours m 10080 1) × AreMinutes result }
{
    let now = open_at(hours, m);
    let mut walked: u64 = 0;
    while walked < WEEK_MINUTES {
        walked += until_boundary(hours, (m + walked) % WEEK_MINUTES);
        if open_at(hours, (m + walked) % WEEK_MINUTES) != now {
            return Some(walked);
        }
    }
    None
}

// The beginning of the minute that comes so many minutes after that of a moment, which has lasted for a part of its own.
fn change_after(moment: i64, part: u64, minutes: Option<u64>) -> Option<i64>
    requires { (is_within_windows 4611686018427387904 moment ≡ true) × (part < 60000000) × AreMinutes minutes }
    ensures { maybe result ≡ moment_after moment part (maybe minutes) }
{
    let n = minutes?;
    Some(moment + (n * MINUTE - part) as i64)
}

impl Hours {
    // Whether the hall is open at a moment, in microseconds from 2000-01-01 UTC, and the first later moment at which that changes.
    pub fn ask(self, moment: i64) -> Result<Told, Refusal>
        ensures { asked_of result ≡ hours_of self moment }
    {
        if !are_windows(self) {
            return Err(Refusal::InvalidWindow);
        }
        if !is_within(MOST_OFFSET, self.offset) {
            return Err(Refusal::OffsetOutOfRange);
        }
        if !is_within(MOST_MOMENT, moment) {
            return Err(Refusal::MomentOutOfRange);
        }
        let since = since_monday(self.offset, moment);
        let m = since / MINUTE;
        let change = change_after(moment, since % MINUTE, minutes_to_change(self, m));
        let is_open = open_at(self, m);
        Ok(Told { is_open, change })
    }
}
