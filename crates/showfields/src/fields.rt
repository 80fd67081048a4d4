// The fields of a header and of a record, in the words of a line.
use record::{RecordHeader, Release};
use std::fmt::{self, Display, Formatter, Write};
use textlines::{Digits, Page};
use timestamp::Timestamp;

// A field that is printed in words.
#[derive(Clone, Copy)]
pub struct InWords<T>(pub T);

// A release has an extension where it is 7.
impl Display for InWords<Release> {
    fn fmt<W: Write>(&self, f: &mut Formatter<W>) -> fmt::Result {
        let r = self.0;
        write!(f, "{}", r.release)?;
        if r.release == 7 {
            write!(f, " extension {}", r.extension)?;
        }
        write!(f, ", version {}", r.version)
    }
}

fn month_of(month: u32) -> &'static str {
    match month {
        1 => "January",
        2 => "February",
        3 => "March",
        4 => "April",
        5 => "May",
        6 => "June",
        7 => "July",
        8 => "August",
        9 => "September",
        10 => "October",
        11 => "November",
        _ => "December",
    }
}

// The day and the time, and how far that is from UTC: the sign is 1 for plus.
impl Display for InWords<Timestamp> {
    fn fmt<W: Write>(&self, f: &mut Formatter<W>) -> fmt::Result {
        let t = self.0;
        let sign = if t.sign == 1 { '+' } else { '-' };
        write!(f, "{} {} ", t.day, month_of(t.month))?;
        write!(f, "{:02}:{:02}, offset ", t.hour, t.minute)?;
        write!(f, "{sign}{:02}:{:02}", t.dev_hour, t.dev_minute)
    }
}

// The 20 octets of the address: the filler apart from the other 16.
impl Display for InWords<[u8; 20]> {
    fn fmt<W: Write>(&self, f: &mut Formatter<W>) -> fmt::Result {
        write!(f, "{} {}", Digits(&self.0[..4]), Digits(&self.0[4..]))
    }
}

// The same on a page, in less time.
pub fn print_address(page: &mut Page<'_>, address: &[u8; 20]) {
    page.put_digits(&address[..4]);
    page.put(b' ');
    page.put_digits(&address[4..]);
}

// The name of a record's format (000, 6.1.2.4).
fn format_of(format: u8) -> &'static str {
    match format {
        1 => "BER",
        2 => "unaligned PER",
        3 => "aligned PER",
        4 => "XER",
        _ => "unknown",
    }
}

// The last three digits of the TS that a record follows (000, table 6.1.2.5.1), if its number has a row.
fn ts_of(number: u8) -> Option<u32> {
    match number {
        0 => Some(5),
        1 => Some(15),
        2 => Some(205),
        3 => Some(215),
        4 => Some(225),
        5 => Some(235),
        6 => Some(250),
        7 => Some(251),
        9 => Some(260),
        10 => Some(270),
        11 => Some(271),
        12 => Some(272),
        13 => Some(273),
        14 => Some(275),
        15 => Some(274),
        16 => Some(277),
        17 => Some(296),
        18 => Some(278),
        _ => None,
    }
}

// What a record's header says beside the length of its body.
impl Display for InWords<RecordHeader> {
    fn fmt<W: Write>(&self, f: &mut Formatter<W>) -> fmt::Result {
        let h = self.0;
        write!(f, "release {}, ", InWords(h.release))?;
        write!(f, "format {} {}, ", h.format, format_of(h.format))?;
        match ts_of(h.ts) {
            Some(ts) => write!(f, "TS 32.{ts:03}"),
            None => write!(f, "TS number {}", h.ts),
        }
    }
}

// Octets, or the word for none of them.
#[derive(Clone, Copy)]
pub struct DigitsOr<'a>(pub &'a [u8], pub &'a str);

impl<'a> Display for DigitsOr<'a> {
    fn fmt<W: Write>(&self, f: &mut Formatter<W>) -> fmt::Result {
        if self.0.is_empty() {
            return f.write_str(self.1);
        }
        Digits(self.0).fmt(f)
    }
}

// The same on a page, in less time.
pub fn print_octets_or(page: &mut Page<'_>, octets: &[u8], none: &[u8]) {
    if octets.is_empty() {
        page.put_all(none);
    } else {
        page.put_digits(octets);
    }
}

#[cfg(test)]
mod tests {
    use super::*;
    use std::test::Fail;

    #[test]
    fn octets_stand_in_a_text(rt: HostRuntime) -> Result<(), Fail> {
        let alloc = rt.alloc();
        let address = [
            0x01, 0x12, 0x23, 0x34, 0x45, 0x56, 0x67, 0x78, 0x89, 0x9A, 0xAB, 0xBC, 0xCD, 0xDE,
            0xEF, 0xF0, 0x0F, 0x1E, 0x2D, 0x3C,
        ];
        let shown = format!(in alloc; "{}", InWords(address))?;
        assert_eq!(rt; shown.as_str(), "01122334 45566778899AABBCCDDEEFF00F1E2D3C");
        let some = format!(in alloc; "{}", DigitsOr(&[0x1F, 0xA0, 0x5C], "none"))?;
        assert_eq!(rt; some.as_str(), "1FA05C");
        let none = format!(in alloc; "{}", DigitsOr(&[], "none"))?;
        assert_eq!(rt; none.as_str(), "none");
        Ok(())
    }
}
