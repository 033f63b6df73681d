// How a refusal is printed.
ghost use Rattle.std.specs.Fmt.{DisplaysOnOk};
ghost use Rattle.std.specs.Option.{option_map};
ghost use Rattle.faults.specs.Reports.{report_text};

use std::fmt;

// Layer, number and place, as `file 4 at 8`.
pub fn write_report<W: fmt::Write, P: fmt::Display + Copy>(
    f: &mut fmt::Formatter<W>,
    layer: &str,
    report: (u8, P),
) -> fmt::Result
    ensures { DisplaysOnOk W.write_str_gives f.old result (option_map (report_text layer.now report.0) (P.output report.1)) f.new }
{
    let (number, place) = report;
    write!(f, "{layer} {number} at {place}")
}
